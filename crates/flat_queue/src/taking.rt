// A pop that waits for an item, and sleeps meanwhile.
ghost use Rattle.std.specs.Prelude.{◌≡◌, true, Ok, None};
ghost use Rattle.desk_core.specs.Words.{word_number};
ghost use Rattle.announce_board.specs.Tokens.{is_idle};
ghost use Rattle.flat_queue.specs.declared.event_count.Wakes.TheVariants.{Event, EventOrEnd};
ghost use Rattle.flat_queue.specs.Taking.{TakesOneBy, TakesUntilBy, OrEndsBy, LooksUntilBy, LooksOnBy};
ghost use Rattle.flat_queue.specs.Taking.{AddsPops, awaited_item, told_item};

use crate::deadline::{By, Deadline, Never};
use crate::error::CallError;
use crate::event_count::Wakes;
use crate::handle::Handle;
use crate::member::Member;
use crate::queue::Queue;
use crate::resting::Rest;
use crate::take_steps::{Left, TakeStage, TakeStepped, awaited_by};
use crate::time_source::TimeSource;
use leftist_heap::Store;
use pq_book::Entry;
use pq_types::{Item, Part};
use std::sync::Wait;
use std::time::Instant;

/// What a take comes back with that waits until a deadline.
#[derive(Clone, Copy)]
pub enum Awaited<I = Item> {
    /// The journal has this line of it, and this is the item.
    Taken(u64, I),
    /// No item came: the line of the pop in vain, and a time that the clock told, which is not before the deadline.
    Late(u64, Instant),
    /// There was no item, and the clock can't be read: the line of the pop in vain.
    NoClock(u64),
    /// Others held the lock, and no pop was made: a time that the clock told, which is not before the deadline; or none, as it
    /// can't be read.
    Held(Option<Instant>),
}

impl<S: Store<Entry<P>>, P: Part> Queue<S, P> {
    /// Takes the first item out of the queue, and waits for one: the number of the pop's journal line, and the item. It
    /// pops as `pop` does. Where that is in vain it announces itself, looks for an item as `take_first` does, and
    /// sleeps until somebody has pushed; so a take has one line more at most, whatever wakes it in vain. Refused as `pop`,
    /// and `Spent` (11) also where the last serial went to the pop in vain.
    pub fn take<R: Wait>(
        &self,
        rt: &R,
        member: &mut Member<S, P>,
    ) -> Result<(u64, Item<P>), CallError>
        requires queue { member.old.queue ≡ self.now }
        requires idle { is_idle member.old.pen.standing ≡ true }
        ensures takes { TakesOneBy (word_number P.wide) Event member.old result member.new }
        ensures adds { AddsPops member.old (told_item result) member.new }
    {
        match self.take_waking(rt, member, Wakes::Event) {
            Ok(Some(told)) => Ok(told),
            Ok(None) => unreachable!(),
            Err(error) => Err(error),
        }
    }

    /// The same until a deadline, by this clock: `Late` only where the clock tells that it has come, behind a pop in vain. Where it
    /// has passed before, it pops alone. The deadline ends a wait for the lock too: where others hold that, a take whose pop
    /// found no item is `Late`, and one that has made no pop is `Held`. So its pop posts nothing, as a post can't be taken back: it
    /// tries until the lock is free.
    #[tactic(auto, using(crate::proofs::TakenCalls::awaited_adds))]
    pub fn take_until<R: Wait + TimeSource>(
        &self,
        rt: &R,
        member: &mut Member<S, P>,
        deadline: Instant,
    ) -> Result<Awaited<Item<P>>, CallError>
        requires queue { member.old.queue ≡ self.now }
        requires idle { is_idle member.old.pen.standing ≡ true }
        ensures takes { TakesUntilBy (word_number P.wide) Event (R.may_tell rt.now) deadline member.old result member.new }
        ensures adds { AddsPops member.old (awaited_item result) member.new }
    {
        match self.take_waking_until(rt, member, deadline, Wakes::Event) {
            Ok(Some(awaited)) => Ok(awaited),
            Ok(None) => unreachable!(),
            Err(error) => Err(error),
        }
    }

    /// A take that is woken so; `None` at the end of the queue, where it heeds that.
    pub(crate) fn take_waking<R: Wait>(
        &self,
        rt: &R,
        member: &mut Member<S, P>,
        wakes: Wakes,
    ) -> Result<Option<(u64, Item<P>)>, CallError>
        requires queue { member.old.queue ≡ self.now }
        requires idle { is_idle member.old.pen.standing ≡ true }
        ensures takes { OrEndsBy (word_number P.wide) wakes (TakesOneBy (word_number P.wide) wakes) member.old result member.new }
        ensures heeds { result ≡ Ok None → wakes ≡ EventOrEnd }
    {
        match self.pop(rt, member) {
            Ok((number, Some(item))) => Ok(Some((number, item))),
            Ok((line, None)) => match self.look_on(rt, member, line, &Never, wakes) {
                Ok(Some(Awaited::Taken(number, item))) => Ok(Some((number, item))),
                Ok(Some(_)) => unreachable!(),
                Ok(None) => Ok(None),
                Err(error) => Err(error),
            },
            Err(error) => Err(self.pass_on(error)),
        }
    }

    /// The same until a deadline. It asks the clock once it has found the lock held, or no item.
    pub(crate) fn take_waking_until<R: Wait + TimeSource>(
        &self,
        rt: &R,
        member: &mut Member<S, P>,
        deadline: Instant,
        wakes: Wakes,
    ) -> Result<Option<Awaited<Item<P>>>, CallError>
        requires queue { member.old.queue ≡ self.now }
        requires idle { is_idle member.old.pen.standing ≡ true }
        ensures takes { OrEndsBy (word_number P.wide) wakes (TakesUntilBy (word_number P.wide) wakes (R.may_tell rt.now) deadline)
            member.old result member.new }
        ensures heeds { result ≡ Ok None → wakes ≡ EventOrEnd }
    {
        let by = By {
            clock: rt,
            at: deadline,
        };
        let mut rests = member.rest().of_tries();
        let mut clock = (Left::Enough, None);
        for _ in rt.forever() {
            let told = self.step_take(member, TakeStage::Pops, wakes, clock.0);
            self.waiters.wake_owed();
            match told {
                TakeStepped::Ends(took) => return awaited_by(took, clock.1),
                TakeStepped::Goes(next) => match next {
                    TakeStage::Pops => rests.rest(rt, self.joined()),
                    TakeStage::Announces(line) => {
                        return self.look_on(rt, member, line, &by, wakes);
                    }
                    TakeStage::Looks(_, _) | TakeStage::Sleeps(_, _) => unreachable!(),
                },
            }
            clock = by.left();
        }
        unreachable!()
    }

    // Looks for any item by steps, behind a pop that found none on this line, and sleeps between its looks, or rests where it
    // found the lock held. `None` at the end of the queue, where it heeds that: a look found the queue shut, and no item.
    #[tactic(auto, using(crate::proofs::TakeStepping::looks_first))]
    fn look_on<R: Wait, D: Deadline>(
        &self,
        rt: &R,
        member: &mut Member<S, P>,
        line: u64,
        deadline: &D,
        wakes: Wakes,
    ) -> Result<Option<Awaited<Item<P>>>, CallError>
        requires queue { member.old.queue ≡ self.now }
        requires idle { is_idle member.old.pen.standing ≡ true }
        ensures looks { LooksOnBy (word_number P.wide) wakes (LooksUntilBy (word_number P.wide) (D.may_end deadline.now) line)
            member.old result member.new }
        ensures heeds { result ≡ Ok None → wakes ≡ EventOrEnd }
    {
        let mut rests = member.rest().of_tries();
        let mut stage = TakeStage::Announces(line);
        for _ in rt.forever() {
            let (left, now) = deadline.left();
            let told = self.step_take(member, stage, wakes, left);
            self.waiters.wake_owed();
            match told {
                TakeStepped::Ends(took) => return awaited_by(took, now),
                TakeStepped::Goes(next) => {
                    self.rest_before(rt, next, &mut rests, deadline);
                    rests = rests_at(next, rests, member.rest());
                    stage = next;
                }
            }
        }
        unreachable!()
    }

    // What one does before a step at this stage of a take: it sleeps, or rests.
    fn rest_before<R: Wait, D: Deadline>(
        &self,
        rt: &R,
        stage: TakeStage,
        rests: &mut Rest,
        deadline: &D,
    ) {
        match stage {
            TakeStage::Sleeps(_, seen) => deadline.sleep(rt, &self.waiters, seen),
            TakeStage::Pops | TakeStage::Announces(_) | TakeStage::Looks(_, _) => {
                rests.rest(rt, self.joined());
            }
        }
    }

    /// One that is refused takes no item: whoever woke it meant one, so the next is woken.
    pub(crate) fn pass_on(&self, error: CallError) -> CallError
        ensures { result ≡ error }
    {
        self.waiters.count(1);
        self.waiters.wake_owed();
        error
    }
}

// How a take rests on from this stage: a look that begins does so afresh, as its member is to.
fn rests_at(stage: TakeStage, rests: Rest, afresh: Rest) -> Rest {
    match stage {
        TakeStage::Looks(_, _) => rests,
        TakeStage::Pops | TakeStage::Announces(_) | TakeStage::Sleeps(_, _) => afresh.of_tries(),
    }
}

impl<'q, S: Store<Entry<P>>, P: Part> Handle<'q, S, P> {
    /// Takes the first item out of the queue, and waits for one, as `Queue::take` does: the number of the pop's journal
    /// line, and the item. Refusals: `BookFull` (10), `Spent` (11).
    pub fn take<R: Wait>(&mut self, rt: &R) -> Result<(u64, Item<P>), CallError>
        ensures takes { TakesOneBy (word_number P.wide) Event self.old result self.new }
        ensures adds { AddsPops self.old (told_item result) self.new }
    {
        self.queue.take(rt, &mut self.member)
    }

    /// The same until a deadline, as `Queue::take_until` does.
    pub fn take_until<R: Wait + TimeSource>(
        &mut self,
        rt: &R,
        deadline: Instant,
    ) -> Result<Awaited<Item<P>>, CallError>
        ensures takes { TakesUntilBy (word_number P.wide) Event (R.may_tell rt.now) deadline self.old result self.new }
        ensures adds { AddsPops self.old (awaited_item result) self.new }
    {
        self.queue.take_until(rt, &mut self.member, deadline)
    }
}
