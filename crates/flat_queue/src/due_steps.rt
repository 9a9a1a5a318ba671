// A call for what is due in steps that never wait: their caller rests, or sleeps, between them.
ghost use Rattle.std.specs.Prelude.{◌≡◌, true};
ghost use Rattle.desk_core.specs.Words.{word_number};
ghost use Rattle.announce_board.specs.Tokens.{is_idle};
ghost use Rattle.flat_queue.specs.declared.event_count.Wakes.TheVariants.{EventOrEnd};
ghost use Rattle.flat_queue.specs.DueSteps.{SightsOnceBy, KeepsLook, empty_step};

use crate::error::CallError;
use crate::event_count::Wakes;
use crate::looking::{Looked, Wanted};
use crate::member::Member;
use crate::queue::Queue;
use crate::take_steps::Left;
use leftist_heap::Store;
use pq_book::Entry;
use pq_types::{Item, Part};

/// What a step for what is due is told by its caller, who has a clock.
#[derive(Clone, Copy)]
pub struct DueNow {
    /// Which items are due.
    pub wanted: Wanted,
    /// How much time is left until the deadline.
    pub left: Left,
    /// Whether the end of the queue ends the call.
    pub wakes: Wakes,
}

/// What a look for what is due knows that was announced.
#[derive(Clone, Copy)]
pub struct DueLook {
    /// The count of events.
    pub seen: u64,
    /// Whether its call has slept: then it may have got a wake, and hands one on.
    pub has_slept: bool,
}

/// How far a call for what is due has come.
#[derive(Clone, Copy)]
pub enum DueStage<I = Item> {
    /// It is to announce itself, and to look.
    Announces,
    /// It is announced, and is to look.
    Looks(DueLook),
    /// It is announced, and its look took nothing: the count of events while which it may sleep, and the first item, which stays,
    /// or none. It sleeps until that is due at most.
    Sleeps(u64, Option<I>),
}

/// What a call for what is due came to.
#[derive(Clone, Copy)]
pub enum DueTook<I = Item> {
    /// The journal has this line of it, and this is the item, which was due.
    Taken(u64, I),
    Refused(CallError),
    /// The deadline has come: this item is the first, and stays, as it is not due.
    Later(I),
    /// The deadline has come, and there was no item.
    Nothing,
    /// The deadline has come while another held the lock.
    Held,
    /// The queue is shut, and no item was left.
    Over,
}

/// What a step of such a call came to.
#[derive(Clone, Copy)]
pub enum DueStepped<I = Item> {
    /// The call is over.
    Ends(DueTook<I>),
    /// It goes on from this stage. Before the next step its caller rests where the stage is to look, as another holds the lock,
    /// and sleeps where it is to sleep.
    Goes(DueStage<I>),
}

impl<S: Store<Entry<P>>, P: Part> Queue<S, P> {
    /// The idle member takes the next step of a call for what is due, as is told. A step looks at the first item once, or finds
    /// the lock held; it takes only an item that is due, posts nothing, never waits, and wakes nobody: its caller does, by
    /// `owed_wakes` or `wake_owed` of the `waiters`. A call sleeps only behind a step that announced it, looked, and took nothing.
    /// One that is announced is led to its end by such steps, or by `leave_due`.
    pub fn step_due(
        &self,
        member: &mut Member<S, P>,
        stage: DueStage<Item<P>>,
        now: DueNow,
    ) -> DueStepped<Item<P>>
        requires queue { member.old.queue ≡ self.now }
        requires idle { is_idle member.old.pen.standing ≡ true }
        ensures steps { SightsOnceBy (word_number P.wide) now.wakes (now.left ≡ Left.Nothing) now.wanted member.old result member.new }
        ensures heeds { result ≡ DueStepped.Ends DueTook.Over → now.wakes ≡ EventOrEnd }
        ensures keeps { KeepsLook stage result }
    {
        match stage {
            DueStage::Announces => self.step_awaiting(member, now, false),
            DueStage::Looks(look) => self.step_sighting(member, now, look),
            DueStage::Sleeps(_, _) => {
                self.waiters.end_wait();
                self.step_awaiting(member, now, true)
            }
        }
    }

    /// Ends a call for what is due that has come to this stage, and goes no further. It wakes nobody, as `step_due`.
    pub fn leave_due(&self, stage: DueStage<Item<P>>) {
        match stage {
            DueStage::Announces => (),
            DueStage::Looks(_) | DueStage::Sleeps(_, _) => self.waiters.end_wait(),
        }
        self.waiters.count(1);
    }

    // It announces itself, and looks.
    fn step_awaiting(
        &self,
        member: &mut Member<S, P>,
        now: DueNow,
        has_slept: bool,
    ) -> DueStepped<Item<P>>
        requires queue { member.old.queue ≡ self.now }
        requires idle { is_idle member.old.pen.standing ≡ true }
        ensures steps { SightsOnceBy (word_number P.wide) now.wakes (now.left ≡ Left.Nothing) now.wanted member.old result member.new }
        ensures heeds { result ≡ DueStepped.Ends DueTook.Over → now.wakes ≡ EventOrEnd }
    {
        let seen = self.waiters.begin_wait();
        self.step_sighting(member, now, DueLook { seen, has_slept })
    }

    // It is announced, and looks. One that leaves an item there, is refused, or goes where it found the lock held, hands a wake on,
    // and so does one that has slept and takes an item: another was to wake for that, or for the next one.
    fn step_sighting(
        &self,
        member: &mut Member<S, P>,
        now: DueNow,
        look: DueLook,
    ) -> DueStepped<Item<P>>
        requires queue { member.old.queue ≡ self.now }
        requires idle { is_idle member.old.pen.standing ≡ true }
        ensures steps { SightsOnceBy (word_number P.wide) now.wakes (now.left ≡ Left.Nothing) now.wanted member.old result member.new }
        ensures heeds { result ≡ DueStepped.Ends DueTook.Over → now.wakes ≡ EventOrEnd }
        ensures keeps { KeepsLook (DueStage.Looks look) result }
    {
        if member.posts() >= self.most_posts() {
            return self.end_due(DueTook::Refused(CallError::Spent), true);
        }
        match self.take_first(member, now.wanted) {
            None => match now.left {
                Left::Nothing => self.end_due(DueTook::Held, true),
                Left::Enough => DueStepped::Goes(DueStage::Looks(look)),
            },
            Some(Looked::Taken(number, item)) => {
                self.end_due(DueTook::Taken(number, item), look.has_slept)
            }
            Some(Looked::Stays(item)) => match now.left {
                Left::Nothing => self.end_due(DueTook::Later(item), true),
                Left::Enough => DueStepped::Goes(DueStage::Sleeps(look.seen, Some(item))),
            },
            Some(Looked::Nothing) => self.step_empty(now.left, look.seen),
            Some(Looked::Over) => match now.wakes {
                Wakes::EventOrEnd => self.end_due(DueTook::Over, false),
                Wakes::Event => self.step_empty(now.left, look.seen),
            },
            Some(Looked::BookFull) => self.end_due(DueTook::Refused(CallError::BookFull), true),
            Some(Looked::Refused(refusal)) => {
                self.end_due(DueTook::Refused(CallError::Refused(refusal)), true)
            }
        }
    }

    // Its look found no item, and that is no end to it: it sleeps, or ends where the deadline has come.
    fn step_empty(&self, left: Left, seen: u64) -> DueStepped<Item<P>>
        ensures { result ≡ empty_step left seen }
    {
        match left {
            Left::Nothing => self.end_due(DueTook::Nothing, false),
            Left::Enough => DueStepped::Goes(DueStage::Sleeps(seen, None)),
        }
    }

    // One that was announced comes to this, and hands a wake on where this says so.
    fn end_due(&self, took: DueTook<Item<P>>, hands_on: bool) -> DueStepped<Item<P>>
        ensures { result ≡ DueStepped.Ends took }
    {
        self.waiters.end_wait();
        if hands_on {
            self.waiters.count(1);
        }
        DueStepped::Ends(took)
    }
}
