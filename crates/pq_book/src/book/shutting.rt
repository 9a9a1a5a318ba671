// How a Book is shut.
ghost use Rattle.std.specs.Prelude.{◌≡◌, ◌<◌, ◌∷◌, []};
ghost use Rattle.pq_types.specs.Mail.{IsProperAnswerOf};
ghost use Rattle.pq_types.specs.Operation.{Shuts};
ghost use Rattle.pq_types.specs.History.{entries_of, last_serial, journal_by, MayDo};
ghost use Rattle.pq_book.specs.Book.{limits_of, KeepsTerms, IsAnswerWithin};
ghost use Rattle.pq_book.specs.Runs.{MayRun, doing};

use crate::book::Book;
use crate::entry::Entry;
use leftist_heap::Store;
use pq_types::laws::{law_items_stay_in_range, law_one_more_line, law_shut};
use pq_types::{Answer, Item, Line, Operation, Part, Reply};
use std::alloc::Allocator;

impl<S: Store<Entry<P>>, A: Allocator, P: Part> Book<S, A, P> {
    /// Shuts the queue, and enters that in the journal. From then on the Book refuses each push and each
    /// further shut. What waits stays, and pops, peeks, removals and moves go on. A shut is refused as
    /// `MayDo` says: where the journal is full, where the queue is shut, or where its line would make memory
    /// forget one that is not archived. It takes no memory. The serial is above each one that the place has
    /// in the journal.
    pub fn apply_shut(&mut self, place: u16, serial: u64) -> Answer<Item<P>>
        requires { last_serial place self.old.journal < serial }
        ensures answer { MayDo (limits_of self.old) self.old.journal Shuts result }
        ensures journal { self.new.journal ≡ journal_by self.old.journal place serial Shuts result }
        ensures entries { entries_of self.new.journal ≡ entries_of self.old.journal }
        ensures terms { KeepsTerms self.old self.new }
        ensures allowed { self.new.allowed ≡ self.old.allowed }
        ensures proper { IsProperAnswerOf P.wide result }
        ensures within { IsAnswerWithin P.wide self.old.room result }
        // A run of one, of those that `law_every_run_with_tickets` speaks of.
        ensures run { MayRun self.old.room self.old.bound self.old.journal
            (doing self.old.allowed place serial Shuts result ∷ []) self.new.journal }
    {
        law_one_more_line();
        law_shut();
        law_items_stay_in_range();
        if let Some(refused) = self.bar(&Operation::shut()) {
            return refused;
        }
        let number = self.journal.len() + 1;
        self.journal.add(Line {
            serial,
            operation: Operation::shut(),
            reply: Reply::Empty,
            place,
        });
        self.shut = true;
        self.push_limit = 0;
        Answer::Entered(number, Reply::Empty)
    }
}
