// An allocator that counts the requests for memory and refuses those that the test names.
//
// To the tests above it promises that it is an allocator like any other: each block that it hands
// out is the other allocator's, and a refused request is an `AllocError`. Lend it, as
// `Vec::new(&refusing)`: a `&Refusing` is an allocator that is copied, and the count is shared.
ghost use Rattle.std.specs.Prelude.{ℕ, ◌≡◌, ◌≤◌, ◌↔◌, IsTrue};
ghost use Rattle.test_aids.specs.Refusal.{Refuses, IsOn, IsRefusedBy};

use std::alloc::{AllocError, Allocator, Global};
use std::cell::Cell;

// Which requests are refused, by their numbers.
#[derive(Clone, Copy)]
enum Refused {
    Nothing,
    Nth(u64),
    From(u64),
}

impl Refused {
    fn contains(self, number: u64) -> bool
        ensures { IsTrue result ↔ IsRefusedBy self number }
    {
        match self {
            Refused::Nothing => false,
            Refused::Nth(refused) => number == refused,
            Refused::From(first) => first <= number,
        }
    }
}

// The requests that came so far, in cells since an allocator is shared.
#[derive(Drop)]
pub(crate) struct Requests {
    refused: Refused,
    so_far: Cell<u64>,
    any_refused: Cell<bool>,
}

impl Requests {
    fn new(refused: Refused) -> Requests
        ensures { result.refused ≡ refused }
    {
        Requests {
            refused,
            so_far: Cell::new(0),
            any_refused: Cell::new(false),
        }
    }

    // Counts one more request, and says whether it is refused.
    pub(crate) fn refuses_next(&self) -> bool {
        let number = self.so_far.get().saturating_add(1);
        self.so_far.set(number);
        let is_refused = self.refused.contains(number);
        if is_refused {
            self.any_refused.set(true);
        }
        is_refused
    }
}

/// An allocator that counts the requests for memory, from 1, and refuses those that it was made to
/// refuse. Every other one goes on to the allocator `A`, and so does every block that is given
/// back.
///
/// A collection makes one request each time that it grows or shrinks its block. To give a block
/// back is no request.
#[derive(Drop)]
pub struct Refusing<A: Allocator = Global> {
    pub(crate) inner: A,
    pub(crate) requests: Requests,
}

impl<A: Allocator> Refusing<A> {
    /// Refuses nothing, and counts alone.
    pub fn nothing(inner: A) -> Refusing<A>
        ensures on { IsOn result inner }
        ensures none { (m : ℕ) → ¬ Refuses result m }
    {
        Refusing {
            inner,
            requests: Requests::new(Refused::Nothing),
        }
    }

    /// Refuses the request of this number alone. No request has the number 0, so that 0 refuses
    /// none.
    pub fn nth(inner: A, number: u64) -> Refusing<A>
        ensures { (m : ℕ) → Refuses result m ↔ (m ≡ number) }
    {
        Refusing {
            inner,
            requests: Requests::new(Refused::Nth(number)),
        }
    }

    /// Refuses the request of this number and all later ones.
    pub fn onwards(inner: A, number: u64) -> Refusing<A>
        ensures { (m : ℕ) → Refuses result m ↔ (number ≤ m) }
    {
        Refusing {
            inner,
            requests: Requests::new(Refused::From(number)),
        }
    }

    /// How many requests there were, the refused ones with them.
    pub fn requests(&self) -> u64 {
        self.requests.so_far.get()
    }

    /// Whether a request was refused.
    pub fn has_refused(&self) -> bool {
        self.requests.any_refused.get()
    }
}

unsafe impl<A: Allocator> Allocator for Refusing<A> {
    ghost dealloc_token = { λ heap ty ptr. A.dealloc_token heap.inner ty ptr };

    fn allocate(&self, size: usize, align: usize) -> Result<*mut u8, AllocError> {
        if self.requests.refuses_next() {
            return Err(AllocError);
        }
        self.inner.allocate(size, align)
    }

    unsafe fn deallocate(&self, ptr: *mut u8, size: usize, align: usize) {
        self.inner.deallocate(ptr, size, align);
    }
}
