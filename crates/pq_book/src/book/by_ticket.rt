// Removals and moves of a Book whose store has tickets.
ghost use Rattle.std.specs.Prelude.{◌≡◌, ◌≢◌, ◌+◌, ◌<◌, ◌≤◌, ◌⊎◌, [], ◌∷◌, length, IsSome, IsTrue, IsFalse, IfSome, IfNone, OnSome};
ghost use Rattle.std.specs.List.{AllByRecursion};
ghost use Rattle.pq_types.specs.Mail.{IsProperAnswerOf};
ghost use Rattle.pq_types.specs.Operation.{ByTicket, Remove, Move, ticket_of};
ghost use Rattle.pq_types.specs.Entry.{entry, item_at, with_entry, without, entries_after, reply_by};
ghost use Rattle.pq_types.specs.History.{entries_of, left, last_serial, journal_by, MayDo, PutsIn};
ghost use Rattle.pq_book.specs.Book.{limits_of, KeepsTerms};
ghost use Rattle.pq_book.specs.Book.{IsAnswerWithin, AllHaveRoom};
ghost use Rattle.pq_book.specs.Runs.{MayRun, doing};

use crate::book::{Book, peak_with};
use crate::entry::Entry;
use leftist_heap::{MOST_ITEMS, TicketStore};
use pq_types::laws::{
    law_by_tickets, law_items_stay_in_range, law_one_more_line, law_shut, law_ticketed_is_proper,
};
use pq_types::{Answer, Deed, Item, Line, Operation, Part, Reply, Ticketed};
use std::alloc::Allocator;

impl<S: TicketStore<Entry<P>>, A: Allocator, P: Part> Book<S, A, P> {
    /// Uses a ticket, the number of the line that put an item in, and enters that in the journal. A removal takes the item out,
    /// where it still waits. A move puts it behind all of another priority, and this line's number is its ticket from then on.
    /// The reply is the item as it was. Where it was popped, removed or moved before, or no such line put one in, the reply is
    /// Empty, and the content stays as it was. Journal and limits decide whether it is refused, as of `apply`; else it answers
    /// NoMemory only to a move of an item that waits: the store could not grow, or had 4,294,967,295 items. After a refusal
    /// nothing has changed.
    /// Where `apply` never answers NoMemory to a push, this never does. The serial is above each one that the place has in
    /// the journal.
    pub fn apply_by_ticket(
        &mut self,
        place: u16,
        serial: u64,
        ticketed: Ticketed<P>,
    ) -> Answer<Item<P>>
        requires { last_serial place self.old.journal < serial }
        ensures answer { MayDo (limits_of self.old) self.old.journal (ByTicket ticketed) result }
        ensures journal { self.new.journal ≡ journal_by self.old.journal place serial (ByTicket ticketed) result }
        ensures terms { KeepsTerms self.old self.new }
        ensures allowed { self.new.allowed ≡ self.old.allowed }
        ensures proper { IsProperAnswerOf P.wide result }
        ensures within { IsAnswerWithin P.wide self.old.room result }
        ensures memory { AllHaveRoom S.room self.old.room → result ≢ Answer.NoMemory }
        ensures spare { AllHaveRoom S.room (length (left self.old.journal) + 1) → result ≢ Answer.NoMemory }
        ensures refused { result ≡ Answer.NoMemory → PutsIn (ByTicket ticketed) × IsSome (item_at (ticket_of ticketed) (entries_of self.old.journal)) }
        // A run of one, of those that `law_every_run_with_tickets` speaks of.
        ensures run { MayRun self.old.room self.old.bound self.old.journal
            (doing self.old.allowed place serial (ByTicket ticketed) result ∷ []) self.new.journal }
    {
        law_one_more_line();
        law_shut();
        law_items_stay_in_range();
        law_ticketed_is_proper(&ticketed);
        if let Some(refused) = self.bar(&Operation::by_ticket(ticketed)) {
            return refused;
        }
        let number = self.journal.len() + 1;
        let used = ticketed;
        let Some(reply) = carried_out_by_ticket(&mut self.store, number, used) else {
            return Answer::NoMemory;
        };
        let told = reply;
        self.journal.add(Line {
            serial,
            operation: Operation::by_ticket(ticketed),
            reply: told,
            place,
        });
        self.peak = peak_with(self.peak, self.store.len() as u64);
        Answer::Entered(number, reply)
    }

    /// The item that has this ticket, where it still waits: what a removal would take out. Enters nothing, and takes no memory.
    pub fn item_at(&self, ticket: u64) -> Option<Item<P>>
        ensures { result ≡ item_at ticket (entries_of self.now.journal) }
    {
        found(&self.store, ticket)
    }
}

// The reply of the store to the use of a ticket, whose journal line has this number, and None where memory for a move was
// refused.
fn carried_out_by_ticket<S: TicketStore<Entry<P>>, P: Part>(
    store: &mut S,
    line: u64,
    ticketed: Ticketed<P>,
) -> Option<Reply<Item<P>>>
    requires lines { AllByRecursion (λ e. e.line < line) (S.content store.old) }
    ensures reply { IfSome result (λ reply. reply ≡ reply_by (S.content store.old) (ByTicket ticketed)) }
    ensures entries { OnSome result (S.content store.new ≡ entries_after (S.content store.old) line (ByTicket ticketed)) }
    ensures none { IfNone result (PutsIn (ByTicket ticketed) × (S.content store.new ≡ S.content store.old)) }
    ensures there { IfNone result (IsSome (item_at (ticket_of ticketed) (S.content store.old))) }
    ensures full { IfNone result (S.room store.old ≤ length (S.content store.old) ⊎ MOST_ITEMS ≤ length (S.content store.old)) }
{
    match ticketed.deed {
        Deed::Remove(ticket) => Some(removed(store, ticket)),
        Deed::Move(priority, ticket) => moved(store, line, ticket, priority),
    }
}

// The reply of the store to a removal by this ticket.
fn removed<S: TicketStore<Entry<P>>, P: Part>(store: &mut S, ticket: u64) -> Reply<Item<P>>
    ensures reply { result ≡ reply_by (S.content store.old) (ByTicket (Remove ticket)) }
    ensures entries { S.content store.new ≡ without ticket (S.content store.old) }
{
    match store.remove(ticket) {
        Some(entry) => Reply::Got(entry.item()),
        None => Reply::Empty,
    }
}

// The reply of the store to a move by this ticket to this priority, whose journal line has this number, and None where memory
// was refused.
fn moved<S: TicketStore<Entry<P>>, P: Part>(
    store: &mut S,
    line: u64,
    ticket: u64,
    priority: P,
) -> Option<Reply<Item<P>>>
    requires lines { AllByRecursion (λ e. e.line < line) (S.content store.old) }
    ensures reply { IfSome result (λ reply. reply ≡ reply_by (S.content store.old) (ByTicket (Move ticket (P.number priority)))) }
    ensures entries { OnSome result (S.content store.new ≡ entries_after (S.content store.old) line (ByTicket (Move ticket (P.number priority)))) }
    ensures none { IfNone result (S.content store.new ≡ S.content store.old) }
    ensures there { IfNone result (IsSome (item_at ticket (S.content store.old))) }
    ensures full { IfNone result (S.room store.old ≤ length (S.content store.old) ⊎ MOST_ITEMS ≤ length (S.content store.old)) }
{
    law_by_tickets();
    let Some(item) = found(store, ticket) else {
        return Some(Reply::Empty);
    };
    let value = item.value;
    if put_behind(store, line, ticket, Item { priority, value }) {
        Some(Reply::Got(item))
    } else {
        None
    }
}

// The item of the store with this ticket, where there is one.
fn found<S: TicketStore<Entry<P>>, P: Part>(store: &S, ticket: u64) -> Option<Item<P>>
    ensures { result ≡ item_at ticket (S.content store.now) }
{
    match store.find(ticket) {
        Some(entry) => Some(entry.item()),
        None => None,
    }
}

// Puts the item in behind all of its priority, as an entry of this line, and takes the ticket's entry out. Where memory is
// refused, it does nothing: the new entry goes in first, so that a refusal has nothing to mend.
fn put_behind<S: TicketStore<Entry<P>>, P: Part>(
    store: &mut S,
    line: u64,
    ticket: u64,
    item: Item<P>,
) -> bool
    requires lines { AllByRecursion (λ e. e.line < line) (S.content store.old) }
    requires other { ticket ≢ line }
    ensures entries { IsTrue result → S.content store.new ≡ with_entry (entry line item) (without ticket (S.content store.old)) }
    ensures none { IsFalse result → S.content store.new ≡ S.content store.old }
    ensures full { IsFalse result → S.room store.old ≤ length (S.content store.old) ⊎ MOST_ITEMS ≤ length (S.content store.old) }
{
    if store.len() >= MOST_ITEMS as usize {
        return false;
    }
    match store.push(Entry::of(item, line)) {
        Ok(()) => {
            store.remove(ticket);
            true
        }
        Err(_) => false,
    }
}
