// Stores from which an item can be removed by its ticket.
ghost use Rattle.std.specs.Prelude.{◌≡◌, ℕ, ◌≤◌, Some, None};
ghost use Rattle.std.specs.Option.{MatchOption};
ghost use Rattle.leftist_heap.specs.Tickets.{item_with, without_ticket};

use crate::exact::Exact;
use crate::store::Store;

/// Items that carry a ticket. Different items of a store mostly have different tickets, but no
/// store relies on it.
pub trait HasTicket: Exact {
    /// Its ticket.
    ghost ticket_of: { Self → ℕ };

    /// Its ticket.
    fn ticket(&self) -> u64
        ensures { result ≡ ticket_of self.now };
}

// A number is its own ticket.
impl HasTicket for u32 {
    ghost ticket_of = { λ n. n };

    fn ticket(&self) -> u64 {
        u64::from(*self)
    }
}

impl HasTicket for u64 {
    ghost ticket_of = { λ n. n };

    fn ticket(&self) -> u64 {
        *self
    }
}

/// A store from which an item can be removed by its ticket, wherever it waits.
pub trait TicketStore<T: HasTicket>: Store<T> {
    /// Takes out the first item with this ticket, where there is one. Takes no memory.
    fn remove(&mut self, ticket: u64) -> Option<T>
        ensures item { result ≡ item_with T.ticket_of ticket (Self.content self.old) }
        ensures rest { Self.content self.new ≡ without_ticket T.ticket_of ticket (Self.content self.old) }
        ensures room { Self.room self.old ≤ Self.room self.new };

    /// The first item with this ticket, where there is one. Takes no memory.
    fn find(&self, ticket: u64) -> Option<&T>
        ensures { MatchOption result (item_with T.ticket_of ticket (Self.content self.now) ≡ None)
            (λ x. item_with T.ticket_of ticket (Self.content self.now) ≡ Some x.now) };
}
