// What the queue replies, and what a request is answered.
ghost use Rattle.std.specs.Prelude.{◌≡◌};

use crate::item::Item;
use std::alloc::AllocError;
use std::marker::Model;

/// What the queue of one thread replies to a request.
#[derive(Clone, Copy, Debug, PartialEq, Eq)]
pub enum Reply<I = Item> {
    /// The item is in the queue.
    Pushed,
    /// This was the first item, and it is taken out.
    Got(I),
    /// This is the first item.
    Least(I),
    /// There is no item.
    Empty,
}

/// Why the queue refuses a request by its rules, and not for want of lines or memory.
#[derive(Clone, Copy, Debug, PartialEq, Eq)]
pub enum Refusal {
    /// The journal has a shut line: the queue takes no push, and no other shut.
    Shut,
    /// One line more would make memory forget a line that is not archived.
    Unarchived,
    /// As many items wait as the queue's bound.
    Full,
}

/// A refusal in 8 bytes, as an answer has it. A contract sees the refusal alone. So the tag of an answer has 8 bytes, and a call
/// copies none that lie idle between the tag and the rest.
#[derive(Copy, Debug, PartialEq, Eq)]
pub struct PaddedRefusal {
    why: Refusal,
    padding: [u64; 0],
}

impl Model for PaddedRefusal {
    ghost use Rattle.pq_types.specs.declared.answer.Refusal.{Refusal as Seen};
    ghost use Rattle.std.specs.Prelude.{◌≡◌, []};
    ghost use Rattle.std.proofs.Common.{ap, sym};

    ghost Value = { Seen };

    ghost view = { λ r. r.why };

    ghost invariant = { λ r. r.padding ≡ [] };

    ghost inverse = { λ r. record { why = r; padding = [] } };

    ghost inverse_ok = { λ a h. ap (λ p. record { why = a.why; padding = p }) (sym h) };
}

impl Clone for PaddedRefusal {
    ghost is_clone = { λ x y. x ≡ y };

    ghost is_infallible = { λ _. Unit };

    fn clone(&self) -> Result<PaddedRefusal, AllocError> {
        Ok(*self)
    }
}

impl Refusal {
    /// The same, as an answer has it.
    pub fn padded(self) -> PaddedRefusal
        ensures { result ≡ self }
    {
        PaddedRefusal {
            why: self,
            padding: [],
        }
    }
}

impl PaddedRefusal {
    /// The refusal.
    pub fn why(self) -> Refusal
        ensures { result ≡ self }
    {
        self.why
    }
}

/// What a request is answered.
#[derive(Clone, Copy, Debug, PartialEq, Eq)]
pub enum Answer<I = Item> {
    /// The request stands in the journal at this line, counted from 1, and has this reply.
    Entered(u64, Reply<I>),
    /// The journal has no line left. The request has no line and changed nothing.
    BookFull,
    /// Memory for a push was refused. The request has no line and changed nothing.
    NoMemory,
    /// The queue's rules refuse it. The request has no line and changed nothing.
    Refused(PaddedRefusal),
}
