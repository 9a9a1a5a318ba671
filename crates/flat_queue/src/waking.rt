// How a member hands out whom its releases have woken.
ghost use Rattle.std.specs.Prelude.{◌≡◌};
ghost use Rattle.desk_core.specs.Pen.{after_hand_out};
ghost use Rattle.announce_board.specs.Waking.{IsMaskOf, owes_any};

use crate::member::Member;
use crate::queue::Queue;
use leftist_heap::Store;
use pq_book::Entry;
use pq_types::Part;

impl<S: Store<Entry<P>>, P: Part> Queue<S, P> {
    /// The member hands out the numbers of those whom its releases have woken, as the bits of a mask: from now on it owes nobody a
    /// wake. Its caller is to wake each of them. Takes no memory, and never waits.
    pub fn take_wakes(&self, member: &mut Member<S, P>) -> u64
        requires queue { member.old.queue ≡ self.now }
        ensures wakes { IsMaskOf result member.old.pen.owed }
        ensures after { member.new ≡ record member.old { pen = after_hand_out member.old.pen } }
    {
        self.desk.take_wakes(&mut member.pen)
    }
}

impl<S: Store<Entry<P>>, P: Part> Member<S, P> {
    /// Whether its releases have woken one whom it has not handed out yet.
    pub fn owes_wakes(&self) -> bool
        ensures { result ≡ owes_any self.now.pen.owed }
    {
        self.pen.owes_wakes()
    }
}
