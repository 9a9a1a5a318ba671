// A simulator keeps its clock in a Book: an event's time is its priority, and its number its value.
ghost use Rattle.std.specs.Prelude.{◌≡◌, IfOk};
ghost use Rattle.readme_examples.specs.Clock.{IsEntered, Tells, earlier};

use leftist_heap::Leftist;
use pq_book::{Book, BookError};
use pq_types::{Answer, Item, Request};
use std::alloc::Global;

/// What the clock was answered: to the two events, and to the question what comes next.
#[derive(Clone, Copy, Debug, PartialEq, Eq)]
pub struct Told {
    pub first: Answer,
    pub second: Answer,
    pub next: Answer,
}

/// Puts two events in, and takes the next one out. Where memory was there for both, that is the
/// earlier one, and of two at the same time the one that was put in first.
pub fn next_of_two(alloc: Global, arrival: Item, departure: Item) -> Result<Told, BookError>
    ensures { IfOk result (λ told. IsEntered told.first → IsEntered told.second → Tells told.next 3 (earlier arrival departure)) }
{
    let mut book = Book::new(alloc, Leftist::new(alloc), 1024)?;
    let first = book.apply(0, 1, Request::Push(arrival));
    let second = book.apply(0, 2, Request::Push(departure));
    let next = book.apply(0, 3, Request::Pop);
    Ok(Told {
        first,
        second,
        next,
    })
}
