// A Book whose requests come under the serials 1, 2, 3 and so on, whatever their places.
ghost use Rattle.std.specs.Prelude.{◌≡◌, ◌≤◌, ℕ, []};
ghost use Rattle.pq_types.specs.History.{last_serial};

use leftist_heap::Store;
use pq_book::{Book, BookError, Entry};
use pq_types::laws::law_one_more_line;
use pq_types::{Answer, Part, Request};
use std::alloc::Global;

/// A value in a struct of its own, by which whatever has it is dropped. A lock round what has a Book as a field by itself has a
/// drop that the borrow checker doesn't cover.
#[derive(Drop)]
struct Owned<T> {
    value: T,
}

/// A Book that gives each request the next serial.
#[derive(Drop)]
pub struct OrderedBook<S: Store<Entry<P>>, P: Part = u32> {
    book: Owned<Book<S, Global, P>>,
    serial: u64,
    ghost below: { (place : ℕ) → last_serial place book.value.journal ≤ serial },
}

impl<S: Store<Entry>> OrderedBook<S> {
    /// A Book without lines over an empty store, with room for so many lines.
    pub fn new(alloc: Global, store: S, lines: u32) -> Result<OrderedBook<S>, BookError>
        requires { S.content store ≡ [] }
    {
        let book = Book::new(alloc, store, lines)?;
        Ok(OrderedBook {
            book: Owned { value: book },
            serial: 0,
        })
    }

    /// Carries a request out under the next serial, where one is left, and enters it in the
    /// journal.
    pub fn apply(&mut self, place: u16, request: Request) -> Option<Answer> {
        law_one_more_line();
        let serial = self.serial.checked_add(1)?;
        let answer = self.book.value.apply(place, serial, request);
        self.serial = serial;
        Some(answer)
    }

    /// The Book.
    pub fn into_book(self) -> Book<S, Global> {
        self.book.value
    }
}
