// A take in steps that never wait: their caller rests, or sleeps, between them.
ghost use Rattle.std.specs.Prelude.{◌≡◌, ℕ, ◌<◌, true};
ghost use Rattle.desk_core.specs.Words.{word_number};
ghost use Rattle.announce_board.specs.Tokens.{is_idle};
ghost use Rattle.flat_queue.specs.declared.event_count.Wakes.TheVariants.{EventOrEnd};
ghost use Rattle.flat_queue.specs.TakeSteps.{PopsOnceBy, LooksOneTimeBy, TakeStepsBy, TakeKeepsLook};
ghost use Rattle.flat_queue.specs.TakeSteps.{popped_by, looking_on, looked_on, awaited_by};

use crate::due_steps::{DueLook, DueNow, DueStage, DueStepped, DueTook};
use crate::error::CallError;
use crate::event_count::Wakes;
use crate::looking::Wanted;
use crate::member::Member;
use crate::queue::Queue;
use crate::taking::Awaited;
use leftist_heap::Store;
use pq_book::Entry;
use pq_types::{Answer, Item, Part, Reply, Request};
use std::time::Instant;

/// How much time is left until a deadline.
#[derive(Clone, Copy)]
pub enum Left {
    /// The deadline has come.
    Nothing,
    Enough,
}

/// How far a take has come.
#[derive(Clone, Copy)]
pub enum TakeStage {
    /// It is to pop, by a request of its own.
    Pops,
    /// Its pop found no item, on this line: it is to announce itself, and to look.
    Announces(u64),
    /// It is announced, and is to look: the line of its pop, and what it knew as it was announced.
    Looks(u64, DueLook),
    /// It is announced, and its look found no item: the line of its pop, and the count of events while which it may sleep.
    Sleeps(u64, u64),
}

/// What a take came to.
#[derive(Clone, Copy)]
pub enum Took<I = Item> {
    /// The journal has this line of it, and this is the item.
    Taken(u64, I),
    Refused(CallError),
    /// The deadline came, behind the pop that has this line and found no item.
    Late(u64),
    /// The deadline came while others held the lock: no pop was made.
    Held,
    /// The queue is shut, and no item was left: the line of the pop that found none.
    Over(u64),
}

/// What a step of a take came to.
#[derive(Clone, Copy)]
pub enum TakeStepped<I = Item> {
    /// The take is over.
    Ends(Took<I>),
    /// It goes on from this stage. Before the next step its caller rests where the stage is to pop or to look, as another holds
    /// the lock, and sleeps where it is to sleep.
    Goes(TakeStage),
}

impl<S: Store<Entry<P>>, P: Part> Queue<S, P> {
    /// The idle member takes the next step of a take, where so much is left until the deadline. A step tries the lock once at
    /// most, posts nothing, never waits, and wakes nobody: its caller does, by `owed_wakes` or `wake_owed` of the `waiters`. A
    /// take sleeps only behind a step that announced it, looked, and found no item. One that is announced is led to its end, by
    /// such steps.
    pub fn step_take(
        &self,
        member: &mut Member<S, P>,
        stage: TakeStage,
        wakes: Wakes,
        left: Left,
    ) -> TakeStepped<Item<P>>
        requires queue { member.old.queue ≡ self.now }
        requires idle { is_idle member.old.pen.standing ≡ true }
        ensures steps { TakeStepsBy (word_number P.wide) wakes (left ≡ Left.Nothing) stage member.old result member.new }
        ensures heeds { (line : ℕ) → result ≡ TakeStepped.Ends (Took.Over line) → wakes ≡ EventOrEnd }
        ensures keeps { TakeKeepsLook stage result }
    {
        match stage {
            TakeStage::Pops => self.step_popping(member, left),
            TakeStage::Announces(line) => match left {
                Left::Nothing => TakeStepped::Ends(Took::Late(line)),
                Left::Enough => {
                    self.step_looking(member, line, DueStage::Announces, wakes, left)
                }
            },
            TakeStage::Looks(line, look) => {
                self.step_looking(member, line, DueStage::Looks(look), wakes, left)
            }
            // It hands no wake on as it takes an item, as that is what it was woken for.
            TakeStage::Sleeps(line, _) => {
                self.waiters.end_wait();
                self.step_looking(member, line, DueStage::Announces, wakes, left)
            }
        }
    }

    // It tries to carry its pop out.
    fn step_popping(&self, member: &mut Member<S, P>, left: Left) -> TakeStepped<Item<P>>
        requires queue { member.old.queue ≡ self.now }
        requires idle { is_idle member.old.pen.standing ≡ true }
        ensures steps { PopsOnceBy (word_number P.wide) (left ≡ Left.Nothing) member.old result member.new }
        ensures goes { (line : ℕ) → ¬ (result ≡ TakeStepped.Ends (Took.Over line)) }
    {
        if self.most_posts() <= member.posts() {
            return self.refused(CallError::Spent);
        }
        match self.carry_out(member, Request::Pop) {
            None => match left {
                Left::Nothing => TakeStepped::Ends(Took::Held),
                Left::Enough => TakeStepped::Goes(TakeStage::Pops),
            },
            Some(answer) => self.popped_by(answer),
        }
    }

    // What its pop comes to, which was so answered.
    fn popped_by(&self, answer: Answer<Item<P>>) -> TakeStepped<Item<P>>
        ensures { result ≡ popped_by answer }
    {
        match answer {
            Answer::Entered(line, reply) => match reply {
                Reply::Got(item) => TakeStepped::Ends(Took::Taken(line, item)),
                _ => TakeStepped::Goes(TakeStage::Announces(line)),
            },
            Answer::BookFull => self.refused(CallError::BookFull),
            Answer::NoMemory => self.refused(CallError::NoMemory),
            Answer::Refused(refusal) => self.refused(CallError::Refused(refusal.why())),
        }
    }

    // Its pop, on this line, found no item: it looks for any, as a call does for what is due.
    fn step_looking(
        &self,
        member: &mut Member<S, P>,
        line: u64,
        stage: DueStage<Item<P>>,
        wakes: Wakes,
        left: Left,
    ) -> TakeStepped<Item<P>>
        requires queue { member.old.queue ≡ self.now }
        requires idle { is_idle member.old.pen.standing ≡ true }
        ensures steps { LooksOneTimeBy (word_number P.wide) wakes (left ≡ Left.Nothing) line member.old result member.new }
        ensures heeds { (number : ℕ) → result ≡ TakeStepped.Ends (Took.Over number) → wakes ≡ EventOrEnd }
        ensures keeps { TakeKeepsLook (looking_on line stage) result }
    {
        let now = DueNow {
            wanted: Wanted::Anything,
            left,
            wakes,
        };
        looked_on(line, self.step_due(member, stage, now))
    }

    // One that is refused takes no item: a wake that it may have got was meant for one, so the next is to be woken.
    fn refused(&self, error: CallError) -> TakeStepped<Item<P>>
        ensures { result ≡ TakeStepped.Ends (Took.Refused error) }
    {
        self.waiters.count(1);
        TakeStepped::Ends(Took::Refused(error))
    }
}

// What a step of a take comes to whose look came to this, behind a pop that found no item on this line.
fn looked_on<P: Part>(line: u64, looked: DueStepped<Item<P>>) -> TakeStepped<Item<P>>
    ensures { result ≡ looked_on line looked }
{
    match looked {
        DueStepped::Ends(DueTook::Taken(number, item)) => {
            TakeStepped::Ends(Took::Taken(number, item))
        }
        DueStepped::Ends(DueTook::Refused(error)) => TakeStepped::Ends(Took::Refused(error)),
        DueStepped::Ends(DueTook::Later(_) | DueTook::Nothing | DueTook::Held) => {
            TakeStepped::Ends(Took::Late(line))
        }
        DueStepped::Ends(DueTook::Over) => TakeStepped::Ends(Took::Over(line)),
        DueStepped::Goes(DueStage::Announces) => TakeStepped::Goes(TakeStage::Announces(line)),
        DueStepped::Goes(DueStage::Looks(look)) => TakeStepped::Goes(TakeStage::Looks(line, look)),
        DueStepped::Goes(DueStage::Sleeps(seen, _)) => {
            TakeStepped::Goes(TakeStage::Sleeps(line, seen))
        }
    }
}

// What a take comes back with that came to this, where the clock told this time last, or none.
pub(crate) fn awaited_by<P: Part>(
    took: Took<Item<P>>,
    told: Option<Instant>,
) -> Result<Option<Awaited<Item<P>>>, CallError>
    ensures { result ≡ awaited_by took told }
{
    match took {
        Took::Taken(number, item) => Ok(Some(Awaited::Taken(number, item))),
        Took::Refused(error) => Err(error),
        Took::Late(line) => match told {
            Some(now) => Ok(Some(Awaited::Late(line, now))),
            None => Ok(Some(Awaited::NoClock(line))),
        },
        Took::Held => Ok(Some(Awaited::Held(told))),
        Took::Over(_) => Ok(None),
    }
}
