// What a line of the journal says was done.
ghost use Rattle.std.specs.Prelude.{◌≡◌, ◌↔◌, IsTrue};
ghost use Rattle.pq_types.specs.History.{Adds, EndsAtShut};
ghost use Rattle.pq_types.specs.Operation.{Asked, ByTicket, Shuts, Remove, Move};

use crate::item::Item;
use crate::part::Part;
use crate::request::Request;
use crate::ticketed::{Deed, Ticketed};
use std::alloc::AllocError;
use std::marker::Model;

/// What a line of the journal says was done: a request, or the use of a ticket. The ticket of an item is the number of the
/// line that put it in. The priority of a move stands before its ticket: so all of it has 16 bytes, or 24 for wide items.
#[derive(Clone, Copy, Debug, PartialEq, Eq)]
pub enum Done<P: Part = u32> {
    /// This item was put in.
    Push(Item<P>),
    /// The first item was taken out.
    Pop,
    /// The first item was read.
    Least,
    /// The item with this ticket was taken out, if it still waited.
    Remove(u64),
    /// The item with this ticket was put behind all of this priority, if it still waited. Its ticket is this line's number
    /// from then on.
    Move(P, u64),
    /// The queue was shut.
    Shut,
}

/// What was done. A contract sees a request as `Asked`, which may be posted, the use of a ticket as `ByTicket`, and that the
/// queue was shut as `Shuts`. These two are never posted.
#[derive(Copy, Debug, PartialEq, Eq)]
pub struct Operation<P: Part = u32> {
    pub done: Done<P>,
}

impl<P: Part> Model for Operation<P> {
    ghost use Rattle.pq_types.specs.Asked.{Operation as Seen};
    ghost use Rattle.pq_types.specs.Operation.{seen, shown, shown_seen};
    ghost use Rattle.std.proofs.Common.{ap};

    ghost Value = { Seen };

    ghost view = { λ o. seen P.number o.done };

    ghost inverse = { λ o. record { done = shown P.part_of o } };

    ghost inverse_ok = { λ a h. ap (λ d. record { done = d }) (shown_seen P.number P.part_of P.back a.done) };
}

impl<P: Part> Clone for Operation<P> {
    ghost is_clone = { λ x y. x ≡ y };

    ghost is_infallible = { λ _. Unit };

    fn clone(&self) -> Result<Operation<P>, AllocError> {
        Ok(*self)
    }
}

impl<P: Part> Operation<P> {
    /// This request.
    pub fn asked(request: Request<Item<P>>) -> Operation<P>
        ensures { result ≡ Asked request }
    {
        let done = match request {
            Request::Push(item) => Done::Push(item),
            Request::Pop => Done::Pop,
            Request::Least => Done::Least,
        };
        Operation { done }
    }

    /// This use of a ticket.
    pub fn by_ticket(ticketed: Ticketed<P>) -> Operation<P>
        ensures { result ≡ ByTicket ticketed }
    {
        let done = match ticketed.deed {
            Deed::Remove(ticket) => Done::Remove(ticket),
            Deed::Move(priority, ticket) => Done::Move(priority, ticket),
        };
        Operation { done }
    }

    /// A shut of the queue.
    pub fn shut() -> Operation<P>
        ensures { result ≡ Shuts }
    {
        Operation { done: Done::Shut }
    }

    /// Whether one item more waits after it: it is a push.
    pub fn adds(&self) -> bool
        ensures { IsTrue result ↔ Adds self.now }
    {
        matches!(&self.done, Done::Push(_))
    }

    /// Whether a queue that is shut refuses it: it is a push, or another shut.
    pub fn ends_at_shut(&self) -> bool
        ensures { IsTrue result ↔ EndsAtShut self.now }
    {
        matches!(&self.done, Done::Push(_) | Done::Shut)
    }

    /// The removal of the item with this ticket.
    pub fn remove(ticket: u64) -> Operation<P>
        ensures { result ≡ ByTicket (Remove ticket) }
    {
        Operation::by_ticket(Ticketed::remove(ticket))
    }

    /// The move of the item with this ticket to this priority.
    pub fn reschedule(ticket: u64, priority: P) -> Operation<P>
        ensures { result ≡ ByTicket (Move ticket (P.number priority)) }
    {
        Operation::by_ticket(Ticketed::reschedule(ticket, priority))
    }
}
