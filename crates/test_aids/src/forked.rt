// A handle whose clone can be refused, as that of an allocator with memory of its own for each
// owner.
ghost use Rattle.std.specs.Prelude.{ℕ, ◌≡◌};
ghost use Rattle.test_aids.specs.Refusal.{Refuses, IsOn};

use crate::refusing::Refusing;
use std::alloc::{AllocError, Allocator};

/// A handle on a `Refusing`, as `Forked::new(&refusing)`, which refuses nothing itself. It is not
/// copied: each of its clones counts as one more request of the `Refusing`, and can be refused.
pub type Forked<'a, A> = Refusing<&'a Refusing<A>>;

impl<'a, A: Allocator> Refusing<&'a Refusing<A>> {
    /// The first handle, which is no request.
    pub fn new(of: &'a Refusing<A>) -> Refusing<&'a Refusing<A>>
        ensures on { IsOn result of.entry }
        ensures none { (m : ℕ) → ¬ Refuses result m }
    {
        Refusing::nothing(of)
    }
}

impl<'a, A: Allocator> Clone for Refusing<&'a Refusing<A>> {
    ghost is_clone = { λ forked copy. IsOn copy forked.inner };

    fn clone(&self) -> Result<Refusing<&'a Refusing<A>>, AllocError> {
        if self.inner.requests.refuses_next() {
            return Err(AllocError);
        }
        Ok(Refusing::nothing(self.inner))
    }
}
