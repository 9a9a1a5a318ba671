// A Book on the heap.
ghost use Rattle.std.specs.Prelude.{◌≡◌};
ghost use Rattle.announce_board.specs.Slots.{terms_of};
ghost use Rattle.announce_board.specs.Waking.{IsMaskOf};
ghost use Rattle.desk_core.specs.Pen.{newly_woken};
ghost use Rattle.pq_book.specs.Stock.{settled_book};

use crate::terms::Terms;
use leftist_heap::Store;
use pq_book::{Book, Entry};
use pq_types::Part;
use std::alloc::Global;
use std::marker::Model;

/// A Book on the heap, so that one word goes in and out of a desk's slot. A contract sees of it its
/// Book.
#[derive(Drop)]
pub struct BoxedBook<S: Store<Entry<P>>, P: Part = u32> {
    pub(crate) boxed: Box<Book<S, Global, P>>,
}

impl<S: Store<Entry<P>>, P: Part> Model for BoxedBook<S, P> {
    ghost use Rattle.pq_book.specs.Book.{Volume};

    ghost Value = { Volume };

    ghost view = { λ b. b.boxed.value };
}

impl<S: Store<Entry<P>>, P: Part> BoxedBook<S, P> {
    /// Its terms, as they are now.
    pub(crate) fn terms(&self) -> Terms
        ensures { result ≡ terms_of self.now }
    {
        Terms {
            bound: self.boxed.bound(),
            allowed: self.boxed.allowed(),
        }
    }

    /// The Book once it has woken whom it is to wake, and the mask of their numbers.
    #[inline(always)]
    pub(crate) fn settled(self) -> (Self, u64)
        ensures book { result.0 ≡ settled_book self }
        ensures wakes { IsMaskOf result.1 (newly_woken self) }
    {
        let mut book = self;
        let wakes = book.boxed.settle();
        (book, wakes)
    }

    /// The Book, whose memory on the heap is freed.
    pub(crate) fn into_book(self) -> Book<S, Global, P>
        ensures { result ≡ self }
    {
        Box::into_inner(self.boxed)
    }
}
