// How a member goes on in steps with a call that it has posted: its caller rests between them.
ghost use Rattle.desk_core.specs.Words.{word_number};
ghost use Rattle.flat_queue.specs.Members.{HasRoomForAll};
ghost use Rattle.queue_pool.specs.Calling.{StepsAnswerBy};

use crate::shared::{SharedHandle, Undone};
use flat_queue::{CallStage, CallStepped, Came, Open};
use leftist_heap::Store;
use pq_book::Entry;
use pq_types::{Answer, Item, Part};

impl<S: Store<Entry<P>>, P: Part> SharedHandle<S, P> {
    /// The next step of a call that has posted, as `Queue::step_asking` makes it: the member looks for its answer, and where none
    /// is there tries a round of its own. Where another leads, it makes the step again. It tries the lock once at most. Takes
    /// memory for the pushes of others alone, and never waits.
    pub fn step_answer(&mut self) -> Result<Answer<Item<P>>, Undone>
        ensures { StepsAnswerBy (word_number P.wide) (HasRoomForAll S.room self.old.queue) self.old result self.new }
    {
        if self.member.is_idle() {
            return Err(Undone::Idle);
        }
        match self.queue.step_asking(&mut self.member, &Open) {
            CallStepped::Ends(Came::Answered(answer)) => Ok(answer),
            CallStepped::Goes(CallStage::Looks) => Err(Undone::Led),
            // It found the lock held, as it waits for its answer, and never gives up.
            CallStepped::Goes(CallStage::Waits | CallStage::Tries(_, _))
            | CallStepped::Ends(Came::Spent | Came::Held | Came::Posted) => Err(Undone::LockHeld),
        }
    }
}
