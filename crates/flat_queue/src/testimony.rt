// Testimonies of members, by which their calls are seen side by side, in whatever threads they were made.
ghost use Rattle.std.specs.Prelude.{◌≡◌, ℕ, ◌+◌, [], ◌∷◌, ◌++◌};
ghost use Rattle.desk_core.specs.Witnessed.{AreLinearized};

use crate::handle::Handle;
use crate::member::Member;
use crate::queue::Queue;
use announce_board::Testimony;
use leftist_heap::Store;
use pq_book::Entry;
use pq_types::Part;

impl<S: Store<Entry<P>>, P: Part> Queue<S, P> {
    /// The member gives testimony of its calls, and of when they began and ended, and stays as it is. Takes no memory, and
    /// never waits.
    pub fn testify(&self, member: &mut Member<S, P>) -> Testimony
        requires queue { member.old.queue ≡ self.now }
        ensures same { member.new ≡ member.old }
        ensures gives { result ≡ record { table = self.now.desk; pens = member.old.pen ∷ []; licences = 0 } }
    {
        self.desk.testify(&mut member.pen)
    }

    /// Puts two testimonies of this queue together. There is one history, which has the beginning and the end of each of their
    /// members' calls at the positions that the member keeps, and one journal that linearizes it (Herlihy and Wing 1990), and
    /// which has each call that the members were told of. So of two such calls of which one ended before the other began, it
    /// has the earlier line (`law_calls_follow_time`). Takes no memory, and never waits.
    pub fn gather(&self, one: Testimony, other: Testimony) -> Testimony
        requires one { one.table ≡ self.now.desk }
        requires other { other.table ≡ self.now.desk }
        ensures both { result ≡ record one { pens = one.pens ++ other.pens; licences = one.licences + other.licences } }
        ensures linearized { (room : ℕ) × AreLinearized room result.pens }
    {
        self.desk.gather(one, other)
    }
}

impl<'q, S: Store<Entry<P>>, P: Part> Handle<'q, S, P> {
    /// Gives testimony of its calls, as `Queue::testify` does. Takes no memory, and never waits.
    pub fn testify(&mut self) -> Testimony
        ensures same { self.new ≡ self.old }
        ensures gives { result ≡ record { table = self.old.queue.desk; pens = self.old.pen ∷ []; licences = 0 } }
    {
        self.queue.testify(&mut self.member)
    }

    /// Puts two testimonies of its queue together, as `Queue::gather` does. Takes no memory, and never waits.
    pub fn gather(&self, one: Testimony, other: Testimony) -> Testimony
        requires one { one.table ≡ self.now.queue.desk }
        requires other { other.table ≡ self.now.queue.desk }
        ensures both { result ≡ record one { pens = one.pens ++ other.pens; licences = one.licences + other.licences } }
        ensures linearized { (room : ℕ) × AreLinearized room result.pens }
    {
        self.queue.gather(one, other)
    }
}
