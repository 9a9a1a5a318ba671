// The terms of a desk's queue.
ghost use Rattle.std.specs.Prelude.{◌≡◌};
ghost use Rattle.std.specs.Borrow.{ftrue};
ghost use Rattle.announce_board.specs.declared.terms.Terms.{Terms};

use std::marker::Model;

/// The limits that the queue of a desk has from its opening: the most items that pushes may leave; and how
/// many lines its journal may have before any are archived.
#[derive(Clone, Copy)]
pub struct Terms {
    pub bound: u64,
    pub allowed: u64,
}

/// Terms that proofs alone name: no byte is kept of them.
#[derive(Drop)]
pub struct NamedTerms {
    pub ghost terms: { Terms },
}

impl Model for NamedTerms {
    ghost also_owns = { λ _. ftrue };
}

// It owns nothing.
unsafe impl Send for NamedTerms {}

unsafe impl Sync for NamedTerms {}

impl NamedTerms {
    /// These terms, named.
    pub fn of(_terms: &Terms) -> NamedTerms
        ensures { result.terms ≡ _terms.now }
    {
        NamedTerms {}
    }
}
