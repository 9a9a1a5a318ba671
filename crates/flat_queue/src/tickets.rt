// Calls that use the ticket of an item, wherever it waits: one removes it, the other moves it to another priority.
ghost use Rattle.std.specs.Prelude.{◌≡◌, ◌≢◌, ◌<◌, true, None, Some, IfSome, IfNone, IsErrOf};
ghost use Rattle.pq_types.specs.declared.journal.TheConstants.{GREATEST_NUMBER};
ghost use Rattle.pq_types.specs.Operation.{ByTicket};
ghost use Rattle.desk_core.specs.Words.{word_number};
ghost use Rattle.announce_board.specs.Asking.{IsAnswerBy};
ghost use Rattle.announce_board.specs.Slots.{MeetsTerms};
ghost use Rattle.announce_board.specs.Tokens.{IsLeadOf, is_idle};
ghost use Rattle.flat_queue.specs.Members.{pen_of, HasRoomForAll};
ghost use Rattle.flat_queue.specs.Memory.{HasSpareRoom};
ghost use Rattle.flat_queue.specs.Turns.{FindsLockHeld};
ghost use Rattle.flat_queue.specs.Tickets.{ReleasesByTicket, CarriesOutByTicket, TellsFound};
ghost use Rattle.flat_queue.specs.Tickets.{found_by, ended_by_ticket, MissesThenUsesBy, UsesTicketBy, RemovesBy, ReschedulesBy};

use crate::error::CallError;
use crate::handle::Handle;
use crate::member::Member;
use crate::others::Served;
use crate::queue::Queue;
use announce_board::Lead;
use leftist_heap::TicketStore;
use pq_book::Entry;
use pq_types::{Answer, Deed, Item, Part, Reply, Ticketed};
use std::sync::Wait;

impl<S: TicketStore<Entry<P>>, P: Part> Queue<S, P> {
    /// Removes the item with this ticket, wherever it waits in the queue: the number of the removal's journal line, and the
    /// item, or none where it no longer waits. A ticket is the number that `push` or `reschedule` told: that of the line that
    /// put the item in. The idle member waits until it has the lock, as a call rests, serves the others and removes, all under
    /// the one lock. It posts nothing: nobody else carries its removal out. Takes memory for the pushes of others alone.
    ///
    /// Refusals: `BookFull` (10): the removal has no line, and the item stays. `Spent` (11): all serials have been used, and
    /// nothing was done. Never `NoMemory`, and it never gives up.
    pub fn remove<R: Wait>(
        &self,
        rt: &R,
        member: &mut Member<S, P>,
        ticket: u64,
    ) -> Result<(u64, Option<Item<P>>), CallError>
        requires queue { member.old.queue ≡ self.now }
        requires idle { is_idle member.old.pen.standing ≡ true }
        ensures { RemovesBy (word_number P.wide) ticket member.old result member.new }
    {
        self.use_ticket(rt, member, Ticketed::remove(ticket))
    }

    /// Moves the item with this ticket to this priority, behind all items of that priority, wherever it waits in the queue: the
    /// number of the move's journal line, and the item as it was, or none where it no longer waits. Where there is an item, that
    /// number is its new ticket, and the old one finds nothing. It enters one line: no other line sees the queue without the
    /// item. Else as `remove`; but the move takes memory where the store has to grow, and never where all stores have room for as
    /// many items as the journal has lines.
    ///
    /// Refusals: `BookFull` (10) and `NoMemory` (9): the move has no line, and the item stays as it was. `Spent` (11): all
    /// serials have been used, and nothing was done. It never gives up.
    pub fn reschedule<R: Wait>(
        &self,
        rt: &R,
        member: &mut Member<S, P>,
        ticket: u64,
        priority: P,
    ) -> Result<(u64, Option<Item<P>>), CallError>
        requires queue { member.old.queue ≡ self.now }
        requires idle { is_idle member.old.pen.standing ≡ true }
        ensures moves { ReschedulesBy (word_number P.wide) ticket (P.number priority) member.old result member.new }
        ensures memory { HasRoomForAll S.room self.now → ¬ (IsErrOf result CallError.NoMemory) }
    {
        self.use_ticket(rt, member, Ticketed::reschedule(ticket, priority))
    }

    // What `remove` and `reschedule` do.
    #[tactic(auto, using(crate::proofs::TicketUses::unused_spent))]
    fn use_ticket<R: Wait>(
        &self,
        rt: &R,
        member: &mut Member<S, P>,
        ticketed: Ticketed<P>,
    ) -> Result<(u64, Option<Item<P>>), CallError>
        requires queue { member.old.queue ≡ self.now }
        requires idle { is_idle member.old.pen.standing ≡ true }
        ensures uses { UsesTicketBy (word_number P.wide) ticketed member.old result member.new }
        ensures memory { HasRoomForAll S.room self.now → ¬ (IsErrOf result CallError.NoMemory) }
    {
        if member.posts() >= self.most_posts() {
            return Err(CallError::Spent);
        }
        end_by_ticket(self.wait_and_use_ticket(rt, member, ticketed))
    }

    // The member tries until it finds the lock free, and uses the ticket.
    fn wait_and_use_ticket<R: Wait>(
        &self,
        rt: &R,
        member: &mut Member<S, P>,
        ticketed: Ticketed<P>,
    ) -> Answer<Item<P>>
        requires queue { member.old.queue ≡ self.now }
        requires idle { is_idle member.old.pen.standing ≡ true }
        requires few { member.old.pen.posts < GREATEST_NUMBER }
        ensures uses { MissesThenUsesBy (word_number P.wide) ticketed member.old result member.new }
        ensures memory { HasRoomForAll S.room self.now → result ≢ Answer.NoMemory }
    {
        let mut rests = member.rest().of_tries();
        for _ in rt.forever() {
            let again = ticketed;
            if let Some(answer) = self.carry_out_by_ticket(member, again) {
                self.waiters.wake_owed();
                return answer;
            }
            rests.rest(rt, self.joined());
        }
        unreachable!()
    }

    /// The idle member removes the item with this ticket, as `remove` does, or moves it, as `reschedule` does, if it finds the
    /// lock free, and wakes nobody: its caller does, by `owed_wakes` or `wake_owed` of the `waiters`. The answer: `Entered` with
    /// `Got` and the item as it was, or with `Empty` where it no longer waits; or `BookFull`; or to a move `NoMemory`. `None`
    /// only where it found the lock held. Takes memory for a move and the pushes of others alone, and never waits.
    pub fn carry_out_by_ticket(
        &self,
        member: &mut Member<S, P>,
        ticketed: Ticketed<P>,
    ) -> Option<Answer<Item<P>>>
        requires queue { member.old.queue ≡ self.now }
        requires idle { is_idle member.old.pen.standing ≡ true }
        requires few { member.old.pen.posts < GREATEST_NUMBER }
        ensures carries { IfSome result (λ answer. CarriesOutByTicket (word_number P.wide) ticketed member.old answer member.new) }
        ensures tells { IfSome result (λ answer. TellsFound ticketed answer) }
        ensures held { IfNone result (FindsLockHeld member.old member.new) }
        ensures memory { HasRoomForAll S.room self.now → result ≢ Some Answer.NoMemory }
        ensures spare { HasSpareRoom S.room member.new.pen.known → result ≢ Some Answer.NoMemory }
    {
        let mut lead = self.lead(member)?;
        let served = self.serve_others(member, &mut lead);
        Some(self.release_by_ticket(member, lead, ticketed, served))
    }

    // The idle leader, to which nothing is due, releases the lock with the use of a ticket, behind the requests of the others.
    // Behind a move it counts one who waits for an item and may be woken, as behind a push.
    fn release_by_ticket(
        &self,
        member: &mut Member<S, P>,
        lead: Lead<S, P>,
        ticketed: Ticketed<P>,
        _served: Served,
    ) -> Answer<Item<P>>
        requires queue { member.old.queue ≡ self.now }
        requires lead { IsLeadOf (pen_of member.old) lead }
        requires terms { MeetsTerms self.now.terms lead.book }
        requires due { member.old.pen.due ≡ None }
        requires idle { is_idle member.old.pen.standing ≡ true }
        requires few { member.old.pen.posts < GREATEST_NUMBER }
        ensures releases { ReleasesByTicket member.old ticketed result member.new }
        ensures answers { IsAnswerBy self.now.room (ByTicket ticketed) result }
        ensures memory { HasRoomForAll S.room self.now → result ≢ Answer.NoMemory }
        ensures spare { HasSpareRoom S.room member.old.pen.hand → result ≢ Answer.NoMemory }
    {
        let moves = matches!(ticketed.deed, Deed::Move(_, _));
        let answer = self.desk.release_by_ticket(&mut member.pen, lead, ticketed);
        self.waiters
            .count_by_ticket(moves, &answer, self.desk.room());
        answer
    }
}

impl<'q, S: TicketStore<Entry<P>>, P: Part> Handle<'q, S, P> {
    /// Removes the item with this ticket, which `push` or `reschedule` told, wherever it waits, as `Queue::remove` does: the
    /// number of the removal's journal line, and the item, none where it no longer waits. It waits until it has the lock, and
    /// posts nothing. Refusals: `BookFull` (10), `Spent` (11).
    pub fn remove<R: Wait>(
        &mut self,
        rt: &R,
        ticket: u64,
    ) -> Result<(u64, Option<Item<P>>), CallError>
        ensures { RemovesBy (word_number P.wide) ticket self.old result self.new }
    {
        self.queue.remove(rt, &mut self.member, ticket)
    }

    /// Moves the item with this ticket to this priority, wherever it waits, as `Queue::reschedule` does: the number of the
    /// move's journal line, which is the item's new ticket, and the item as it was, none where it no longer waits. It waits
    /// until it has the lock, and posts nothing. Refusals: `NoMemory` (9), `BookFull` (10), `Spent` (11).
    pub fn reschedule<R: Wait>(
        &mut self,
        rt: &R,
        ticket: u64,
        priority: P,
    ) -> Result<(u64, Option<Item<P>>), CallError>
        ensures moves { ReschedulesBy (word_number P.wide) ticket (P.number priority) self.old result self.new }
        ensures memory { HasRoomForAll S.room self.old.queue → ¬ (IsErrOf result CallError.NoMemory) }
    {
        self.queue
            .reschedule(rt, &mut self.member, ticket, priority)
    }
}

// What an answer comes to as the end of such a call.
fn end_by_ticket<P: Part>(answer: Answer<Item<P>>) -> Result<(u64, Option<Item<P>>), CallError>
    ensures { result ≡ ended_by_ticket answer }
{
    match answer {
        Answer::Entered(number, reply) => Ok((number, found(reply))),
        Answer::BookFull => Err(CallError::BookFull),
        Answer::NoMemory => Err(CallError::NoMemory),
        Answer::Refused(refusal) => Err(CallError::Refused(refusal.why())),
    }
}

// What was found by a ticket, by the reply to its use.
fn found<P: Part>(reply: Reply<Item<P>>) -> Option<Item<P>>
    ensures { result ≡ found_by reply }
{
    match reply {
        Reply::Got(item) => Some(item),
        Reply::Pushed | Reply::Least(_) | Reply::Empty => None,
    }
}
