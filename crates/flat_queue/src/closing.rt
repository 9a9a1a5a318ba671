// How a queue is closed.
ghost use Rattle.std.specs.Prelude.{◌≡◌, ℕ, ◌+◌, true, false, [], length, map, IfOk, IfErr};
ghost use Rattle.std.specs.List.{All};
ghost use Rattle.desk_core.specs.Calls.{calls_of};
ghost use Rattle.desk_core.specs.Knows.{Knows};
ghost use Rattle.announce_board.specs.Tokens.{is_idle};
ghost use Rattle.announce_board.specs.Opening.{IsHomeBook, IsHomeWith, IsHeld, IsHeldWith};
ghost use Rattle.flat_queue.specs.Closing.{ClosesAll, ClosedAreLinearized, retired_pen};
ghost use Rattle.flat_queue.specs.Gathered.{Gathers, IsOf};

use crate::gathered::both;
use crate::member::{Member, Newcomer};
use crate::queue::Queue;
use announce_board::{Desk, LockHeld, Testimony};
use desk_core::laws::{law_calls_are_lines, law_dealt_runs_are_linearizable, law_times};
use leftist_heap::Store;
use pq_book::{Book, Entry};
use pq_types::Part;
use std::alloc::Global;

impl<S: Store<Entry<P>>, P: Part> Queue<S, P> {
    /// Closes the queue, which no thread shares any more: the Book, if it is at home. `LockHeld`
    /// only where a member leads, or kept the Book for good.
    pub fn close(self) -> Result<Book<S, Global, P>, LockHeld>
        ensures ok { IfOk result (λ book. IsHomeBook self.room self.terms book) }
        ensures err { IfErr result (λ _. IsHeld self.room self.terms) }
    {
        let Queue {
            grid,
            desk,
            hint: _,
            joined: _,
            waiters: _,
            spare: _,
        } = self;
        grid.close();
        desk.close()
    }

    /// The same, with a member of the queue: the Book's journal begins with the one of the member's
    /// last release. Of its place it has the calls that the member has read, and at most the
    /// entered answer for which it waits; of an idle member exactly its calls. What the member last
    /// saw in its record still stood there at the end. A member that leads gets no Book; and the
    /// only member of a queue for one gets it wherever it doesn't lead.
    #[tactic(auto, using(crate::proofs::Idle::idle_known))]
    pub fn close_with(self, member: Member<S, P>) -> Result<Book<S, Global, P>, LockHeld>
        requires queue { member.queue ≡ self }
        ensures ok { IfOk result (λ book. IsHomeWith self.room self.terms member.pen book) }
        ensures knows { IfOk result (λ book. Knows self.room member.pen book.journal) }
        ensures idle { IfOk result (λ book. is_idle member.pen.standing ≡ true
            → calls_of member.pen.place book.journal ≡ member.pen.mine) }
        ensures led_not { IfOk result (λ _. member.pen.leading ≡ false) }
        ensures err { IfErr result (λ _. IsHeldWith self.room self.terms member.pen) }
        ensures alone { IfErr result (λ _. self.places ≡ 1 → member.pen.leading ≡ true) }
    {
        let Queue {
            grid,
            desk,
            hint: _,
            joined: _,
            waiters: _,
            spare: _,
        } = self;
        let Member {
            stopped: _,
            pen,
            rest: _,
        } = member;
        grid.close();
        desk.close_with(pen)
    }

    /// Closes the queue with all its members and those newcomers that have not joined: the Book. No member leads, so it is
    /// always at home. Of each member it has the calls that the member has read, and at most the entered answer for which it
    /// waits; of an idle member exactly its calls; and it has no line of another place. What each member last saw in its
    /// record still stood there at the end. Its journal linearizes one history (Herlihy and Wing 1990), which has all that each
    /// member keeps of its calls. Takes no memory, and never waits.
    pub fn close_all(
        self,
        members: Vec<Member<S, P>>,
        newcomers: Vec<Newcomer>,
    ) -> Book<S, Global, P>
        requires members { All (λ m. m.queue ≡ self) members.items }
        requires newcomers { All (λ n. n.queue ≡ self) newcomers.items }
        requires all { length members.items + length newcomers.items ≡ self.comers }
        requires led_not { All (λ m. m.pen.leading ≡ false) members.items }
        ensures { ClosesAll self members.items result }
    {
        law_closed_are_linearized();
        let Queue {
            grid,
            desk,
            hint: _,
            joined: _,
            waiters: _,
            spare,
        } = self;
        let all = all_of(&desk, members, newcomers, spare.into_licences()).unwrap();
        grid.close();
        desk.close_all(all)
    }
}

// What the members of a closed queue keep of their calls is of one history, which its journal linearizes.
fn law_closed_are_linearized()
    ensures { ClosedAreLinearized }
{
    law_calls_are_lines();
    law_dealt_runs_are_linearizable();
    law_times();
}

// The last testimony of these members, who retire, with the licences of these newcomers, who won't join, and with those that no
// comer has.
fn all_of<S: Store<Entry<P>>, P: Part>(
    desk: &Desk<S, P>,
    members: Vec<Member<S, P>>,
    newcomers: Vec<Newcomer>,
    spare: Option<Testimony>,
) -> Option<Testimony>
    requires members { All (λ m. m.queue.desk ≡ desk.now.table) members.items }
    requires led_not { All (λ m. m.pen.leading ≡ false) members.items }
    requires newcomers { All (λ n. n.queue.desk ≡ desk.now.table) newcomers.items }
    requires spare { IsOf desk.now.table spare }
    ensures gathers { (more : ℕ) → Gathers desk.now.table [] more spare
        → Gathers desk.now.table (map retired_pen members.items) (length newcomers.items + more) result }
    ensures rooms { All (λ m. m.pen.room ≡ m.queue.room) members.items }
{
    let licences = both(desk, unused_of(desk, newcomers), spare);
    both(desk, retired_of(desk, members), licences)
}

// The last testimony of these members, who retire.
fn retired_of<S: Store<Entry<P>>, P: Part>(
    desk: &Desk<S, P>,
    members: Vec<Member<S, P>>,
) -> Option<Testimony>
    requires here { All (λ m. m.queue.desk ≡ desk.now.table) members.items }
    requires led_not { All (λ m. m.pen.leading ≡ false) members.items }
    ensures gathers { Gathers desk.now.table (map retired_pen members.items) 0 result }
    ensures rooms { All (λ m. m.pen.room ≡ m.queue.room) members.items }
{
    let mut all = None;
    for member in members {
        let Member { pen, .. } = member;
        all = both(desk, all, Some(desk.retire(pen)));
    }
    all
}

// The licences of these newcomers, who won't join.
fn unused_of<S: Store<Entry<P>>, P: Part>(
    desk: &Desk<S, P>,
    newcomers: Vec<Newcomer>,
) -> Option<Testimony>
    requires { All (λ n. n.queue.desk ≡ desk.now.table) newcomers.items }
    ensures { Gathers desk.now.table [] (length newcomers.items) result }
{
    let mut all = None;
    for newcomer in newcomers {
        let Newcomer { licence, .. } = newcomer;
        all = both(desk, all, Some(licence));
    }
    all
}
