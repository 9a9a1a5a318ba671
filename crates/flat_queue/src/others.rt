// How a leader serves the others before it releases with a request of its own.
ghost use Rattle.std.specs.Prelude.{◌≡◌};
ghost use Rattle.desk_core.specs.Words.{word_number};
ghost use Rattle.pq_book.specs.Book.{limits_of};
ghost use Rattle.announce_board.specs.Tokens.{IsLeadOf};
ghost use Rattle.flat_queue.specs.Members.{pen_of};
ghost use Rattle.flat_queue.specs.OwnRequest.{SweepsWhereBy};

use crate::hint::HintRead;
use crate::member::Member;
use crate::queue::Queue;
use announce_board::Lead;
use leftist_heap::Store;
use pq_book::Entry;
use pq_types::Part;

/// That a leader has read the hint, and served the others where it was set: `Queue::serve_others` alone makes one, and
/// who releases with a request of its own hands it in.
#[derive(Drop)]
pub(crate) struct Served {
    read: HintRead,
}

impl<S: Store<Entry<P>>, P: Part> Queue<S, P> {
    /// The leader serves the others, where the hint says that somebody has posted.
    pub(crate) fn serve_others(&self, member: &mut Member<S, P>, lead: &mut Lead<S, P>) -> Served
        requires queue { member.old.queue ≡ self.now }
        requires lead { IsLeadOf (pen_of member.old) lead.old }
        ensures lead { IsLeadOf (pen_of member.new) lead.new }
        ensures limits { limits_of lead.new.book ≡ limits_of lead.old.book }
        ensures sweeps { SweepsWhereBy (word_number P.wide) result.read.posted member.old member.new }
    {
        let read = self.hint.read();
        if read.is_set() {
            self.sweep_trail(member, lead);
        }
        Served { read }
    }
}
