// A delay queue: a call that takes the first item out once it is due, and sleeps until then.
ghost use Rattle.std.specs.Prelude.{◌≡◌, ℕ, ◌^◌, ◌<◌, ◌↔◌, true, Ok, Some, None, IsSome};
ghost use Rattle.desk_core.specs.Words.{word_number};
ghost use Rattle.announce_board.specs.Tokens.{is_idle};
ghost use Rattle.flat_queue.specs.declared.event_count.Wakes.TheVariants.{Event, EventOrEnd};
ghost use Rattle.flat_queue.specs.Looking.{IsWanted};
ghost use Rattle.flat_queue.specs.Due.{HasCome, IsDueAt, TakesDueBy, TakesDueOrEndsBy};
ghost use Rattle.flat_queue.specs.DueSteps.{IsLook, IsShort, due_by};

use crate::due_steps::{DueNow, DueStage, DueStepped, DueTook};
use crate::error::CallError;
use crate::event_count::Wakes;
use crate::handle::Handle;
use crate::member::Member;
use crate::queue::Queue;
use crate::resting::Rest;
use crate::take_steps::Left;
use crate::time_source::TimeSource;
use crate::times::Times;
use leftist_heap::Store;
use pq_book::Entry;
use pq_types::{Item, Part};
use std::sync::Wait;
use std::time::Instant;

/// What a call comes back with that takes the first item out once it is due. Each time is one that the clock told.
#[derive(Clone, Copy)]
pub enum Due<I = Item> {
    /// The journal has this line of it, and this is the item: it was due at this time.
    Taken(u64, I, Instant),
    /// The deadline came: this item is the first, and stays, as it was not due at this time, which is not before the deadline.
    Later(I, Instant),
    /// The deadline came, at this time at the latest, and there was no item.
    Nothing(Instant),
    /// The deadline came while another held the lock, and nothing was looked at since: this time is not before the deadline.
    Held(Instant),
    /// The clock can't be read.
    NoClock,
}

// What such a call waits for.
#[derive(Clone, Copy)]
struct DueCall {
    times: Times,
    deadline: Option<Instant>,
    wakes: Wakes,
}

impl<S: Store<Entry<P>>, P: Part> Queue<S, P> {
    /// Takes the first item out once it is due, by these times and this clock: the number of the pop's journal line, the item,
    /// and when the clock told that it was due. It announces itself, looks at the first item as `take_first` does, and sleeps
    /// until that is due, or somebody has pushed, or until the deadline where it has one. A look in vain has no line. The deadline
    /// ends a wait for the lock too: where another holds that, the call is `Held`. Where the deadline has passed before, it tries
    /// the lock once, and looks if it gets that. Items that are due at one time come out in the order of their pushes.
    ///
    /// All that wait at such a queue wait by this, or by `take_due_or_end`, and by the same times: one that goes wakes another,
    /// which looks at what is left. Refusals: `BookFull` (10), `Spent` (11). Takes memory for the pushes of others alone.
    pub fn take_due<R: Wait + TimeSource>(
        &self,
        rt: &R,
        member: &mut Member<S, P>,
        times: Times,
        deadline: Option<Instant>,
    ) -> Result<Due<Item<P>>, CallError>
        requires queue { member.old.queue ≡ self.now }
        requires idle { is_idle member.old.pen.standing ≡ true }
        ensures { TakesDueBy (word_number P.wide) Event (R.may_tell rt.now) times deadline member.old result member.new }
    {
        let call = DueCall {
            times,
            deadline,
            wakes: Wakes::Event,
        };
        match self.take_due_waking(rt, member, call) {
            Ok(Some(due)) => Ok(due),
            Ok(None) => unreachable!(),
            Err(error) => Err(error),
        }
    }

    /// The same, but no longer than to the end of the queue, as `take_or_end`: `None` exactly where a look found the queue shut, and
    /// no item, also where the deadline has come by then. What is left there it waits for.
    pub fn take_due_or_end<R: Wait + TimeSource>(
        &self,
        rt: &R,
        member: &mut Member<S, P>,
        times: Times,
        deadline: Option<Instant>,
    ) -> Result<Option<Due<Item<P>>>, CallError>
        requires queue { member.old.queue ≡ self.now }
        requires idle { is_idle member.old.pen.standing ≡ true }
        ensures { TakesDueOrEndsBy (word_number P.wide) EventOrEnd (R.may_tell rt.now) times deadline member.old result member.new }
    {
        let call = DueCall {
            times,
            deadline,
            wakes: Wakes::EventOrEnd,
        };
        self.take_due_waking(rt, member, call)
    }

    // Such a call, by steps. It sleeps between its looks, or rests where it found the lock held, and reads the clock before each
    // step. `None` at the end of the queue, where it heeds that.
    fn take_due_waking<R: Wait + TimeSource>(
        &self,
        rt: &R,
        member: &mut Member<S, P>,
        call: DueCall,
    ) -> Result<Option<Due<Item<P>>>, CallError>
        requires queue { member.old.queue ≡ self.now }
        requires idle { is_idle member.old.pen.standing ≡ true }
        ensures takes { TakesDueOrEndsBy (word_number P.wide) call.wakes (R.may_tell rt.now) call.times call.deadline member.old result member.new }
        ensures heeds { result ≡ Ok None → call.wakes ≡ EventOrEnd }
    {
        let mut rests = member.rest().of_tries();
        let mut stage = DueStage::Announces;
        let mut clock = rt.time();
        for _ in rt.forever() {
            let Some(now) = clock else {
                return Ok(Some(self.leave_unread(stage)));
            };
            let told = self.step_due(member, stage, call.at(now));
            self.waiters.wake_owed();
            match told {
                DueStepped::Ends(took) => return due_by(took, now),
                DueStepped::Goes(next) => {
                    self.pause_before_due(rt, next, &mut rests, call);
                    rests = due_rests_at(next, rests, member.rest());
                    clock = time_at(rt, next, now);
                    stage = next;
                }
            }
        }
        unreachable!()
    }

    // What its caller does before a step of such a call at this stage.
    fn pause_before_due<R: Wait + TimeSource>(
        &self,
        rt: &R,
        stage: DueStage<Item<P>>,
        rests: &mut Rest,
        call: DueCall,
    ) {
        match stage {
            DueStage::Announces => (),
            DueStage::Looks(_) => rests.rest(rt, self.joined()),
            DueStage::Sleeps(seen, Some(item)) => {
                let due_at = call.times.due_at(item.priority.as_u64());
                let until = sooner(due_at, call.deadline);
                self.waiters.sleep_to(rt, seen, until);
            }
            DueStage::Sleeps(seen, None) => self.waiters.sleep_to(rt, seen, call.deadline),
        }
    }

    // Such a call that has come to this stage ends, as the clock can't be read.
    fn leave_unread(&self, stage: DueStage<Item<P>>) -> Due<Item<P>>
        ensures { result ≡ Due.NoClock }
    {
        self.leave_due(stage);
        self.waiters.wake_owed();
        Due::NoClock
    }
}

impl DueCall {
    // What a step of it is told at this time.
    fn at(self, now: Instant) -> DueNow
        ensures due { (priority : ℕ) → IsWanted result.wanted priority → IsDueAt self.times now priority }
        ensures all { (priority : ℕ) → priority < 2 ^ 64 → IsDueAt self.times now priority → IsWanted result.wanted priority }
        ensures late { result.left ≡ Left.Nothing → HasCome self.deadline now }
        ensures wakes { result.wakes ≡ self.wakes }
    {
        let left = if has_come(self.deadline, now) {
            Left::Nothing
        } else {
            Left::Enough
        };
        DueNow {
            wanted: self.times.wanted_at(now),
            left,
            wakes: self.wakes,
        }
    }
}

// The time by which a step at this stage goes: the newest that the clock tells. Where that can't be read, a look that goes on keeps
// the one by which it went.
fn time_at<C: TimeSource, P: Part>(
    clock: &C,
    stage: DueStage<Item<P>>,
    now: Instant,
) -> Option<Instant>
    ensures told { C.may_tell clock.now (Some now) → C.may_tell clock.now result }
    ensures keeps { IsLook stage → IsSome result }
{
    let newest = clock.time();
    match stage {
        DueStage::Looks(_) => newest.or(Some(now)),
        DueStage::Announces | DueStage::Sleeps(_, _) => newest,
    }
}

// How such a call rests on from this stage: a look that begins does so afresh, as its member is to.
fn due_rests_at<P: Part>(stage: DueStage<Item<P>>, rests: Rest, afresh: Rest) -> Rest {
    match stage {
        DueStage::Looks(_) => rests,
        DueStage::Announces | DueStage::Sleeps(_, _) => afresh.of_tries(),
    }
}

// What such a call comes back with that came to this, where the clock told this time before its last look.
fn due_by<P: Part>(took: DueTook<Item<P>>, now: Instant) -> Result<Option<Due<Item<P>>>, CallError>
    ensures told { result ≡ due_by took now }
    ensures range { IsShort took }
{
    match took {
        DueTook::Taken(number, item) => Ok(Some(Due::Taken(number, item, now))),
        DueTook::Refused(error) => Err(error),
        DueTook::Later(item) => {
            let _ = item.priority.as_u64();
            Ok(Some(Due::Later(item, now)))
        }
        DueTook::Nothing => Ok(Some(Due::Nothing(now))),
        DueTook::Held => Ok(Some(Due::Held(now))),
        DueTook::Over => Ok(None),
    }
}

// Whether there is a deadline, and it has come at this time.
fn has_come(deadline: Option<Instant>, now: Instant) -> bool
    ensures { result ≡ true ↔ HasCome deadline now }
{
    match deadline {
        None => false,
        Some(deadline) => now.checked_duration_since(deadline).is_some(),
    }
}

// Whichever comes first of two times, of which each may never come.
fn sooner(one: Option<Instant>, other: Option<Instant>) -> Option<Instant> {
    match (one, other) {
        (Some(a), Some(b)) if b < a => Some(b),
        (Some(a), _) => Some(a),
        (None, other) => other,
    }
}

impl<'q, S: Store<Entry<P>>, P: Part> Handle<'q, S, P> {
    /// Takes the first item out once it is due, and waits for that, as `Queue::take_due` does. Refusals: `BookFull` (10),
    /// `Spent` (11).
    pub fn take_due<R: Wait + TimeSource>(
        &mut self,
        rt: &R,
        times: Times,
        deadline: Option<Instant>,
    ) -> Result<Due<Item<P>>, CallError>
        ensures { TakesDueBy (word_number P.wide) Event (R.may_tell rt.now) times deadline self.old result self.new }
    {
        self.queue.take_due(rt, &mut self.member, times, deadline)
    }

    /// The same until the end of the queue, as `Queue::take_due_or_end` does.
    pub fn take_due_or_end<R: Wait + TimeSource>(
        &mut self,
        rt: &R,
        times: Times,
        deadline: Option<Instant>,
    ) -> Result<Option<Due<Item<P>>>, CallError>
        ensures { TakesDueOrEndsBy (word_number P.wide) EventOrEnd (R.may_tell rt.now) times deadline self.old result self.new }
    {
        self.queue
            .take_due_or_end(rt, &mut self.member, times, deadline)
    }
}
