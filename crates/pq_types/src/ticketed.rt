// What is done with a ticket.
ghost use Rattle.std.specs.Prelude.{◌≡◌};
ghost use Rattle.pq_types.specs.Operation.{Remove, Move};

use crate::part::Part;
use std::alloc::AllocError;
use std::marker::Model;

/// What is done with a ticket, the number of the line that put an item in.
#[derive(Clone, Copy, Debug, PartialEq, Eq)]
pub enum Deed<P: Part = u32> {
    /// The item with this ticket is taken out.
    Remove(u64),
    /// The item with this ticket is put behind all of this priority.
    Move(P, u64),
}

/// The use of a ticket, which is never posted: a removal, or a move to another priority.
#[derive(Copy, Debug, PartialEq, Eq)]
pub struct Ticketed<P: Part = u32> {
    pub deed: Deed<P>,
}

impl<P: Part> Model for Ticketed<P> {
    ghost use Rattle.pq_types.specs.Operation.{Ticketed as Seen, ticketed, deed_of, deed_ticketed};
    ghost use Rattle.std.proofs.Common.{ap};

    ghost Value = { Seen };

    ghost view = { λ t. ticketed P.number t.deed };

    ghost inverse = { λ t. record { deed = deed_of P.part_of t } };

    ghost inverse_ok = { λ a h. ap (λ d. record { deed = d }) (deed_ticketed P.number P.part_of P.back a.deed) };
}

impl<P: Part> Clone for Ticketed<P> {
    ghost is_clone = { λ x y. x ≡ y };

    ghost is_infallible = { λ _. Unit };

    fn clone(&self) -> Result<Ticketed<P>, AllocError> {
        Ok(*self)
    }
}

impl<P: Part> Ticketed<P> {
    /// The removal of the item with this ticket.
    pub fn remove(ticket: u64) -> Ticketed<P>
        ensures { result ≡ Remove ticket }
    {
        Ticketed {
            deed: Deed::Remove(ticket),
        }
    }

    /// The move of the item with this ticket to this priority.
    pub fn reschedule(ticket: u64, priority: P) -> Ticketed<P>
        ensures { result ≡ Move ticket (P.number priority) }
    {
        Ticketed {
            deed: Deed::Move(priority, ticket),
        }
    }
}
