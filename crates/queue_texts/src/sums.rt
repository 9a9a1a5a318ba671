// What the lines of a journal add up to.
ghost use Rattle.std.specs.Prelude.{◌≡◌, ◌+◌, ◌<◌, ◌≤◌, ◌^◌, length};
ghost use Rattle.pq_types.specs.Asked.{Line};
ghost use Rattle.queue_texts.specs.Sums.{HasRoom, counted};

use pq_types::{Done, Item, Operation, Part, Reply};

/// What the lines so far add up to.
#[derive(Clone, Copy)]
pub struct JournalSums {
    /// Places that have a line.
    pub places: u64,
    /// Pushes.
    pub pushed: u64,
    /// Pops and removals that took an item out.
    pub got: u64,
    /// Pops, removals and moves that found no item.
    pub empty: u64,
    /// The priorities put in, by pushes and moves, added up.
    pub sum_in: u128,
    /// Those taken out, by pops, removals and moves.
    pub sum_out: u128,
}

/// The sums of no lines.
pub const NOTHING: JournalSums = JournalSums {
    places: 0,
    pushed: 0,
    got: 0,
    empty: 0,
    sum_in: 0,
    sum_out: 0,
};

impl JournalSums {
    /// Counts an operation and its reply, and its place, if it is a new one. A move that found its item is no push and no pop: it
    /// takes a priority out and puts another in. A shut is neither.
    pub(crate) fn count<P: Part>(
        &mut self,
        new_place: bool,
        operation: &Operation<P>,
        reply: &Reply<Item<P>>,
    )
        requires { HasRoom self.old }
        ensures counted { self.new ≡ counted self.old new_place operation.now reply.now }
        ensures small_in { self.new.sum_in ≤ self.old.sum_in + 2 ^ 64 }
        ensures small_out { self.new.sum_out ≤ self.old.sum_out + 2 ^ 64 }
    {
        if new_place {
            self.places += 1;
        }
        match (&operation.done, reply) {
            (Done::Push(item), _) => {
                self.pushed += 1;
                self.sum_in += u128::from(item.priority.as_u64());
            }
            (Done::Pop | Done::Remove(_), Reply::Got(item)) => {
                self.got += 1;
                self.sum_out += u128::from(item.priority.as_u64());
            }
            (Done::Move(priority, _), Reply::Got(item)) => {
                self.sum_in += u128::from(priority.as_u64());
                self.sum_out += u128::from(item.priority.as_u64());
            }
            (Done::Pop | Done::Remove(_) | Done::Move(_, _), Reply::Empty) => self.empty += 1,
            _ => {}
        }
    }
}
