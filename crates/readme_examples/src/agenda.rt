// A Book for one thread alone, of which contracts see what it holds.
ghost use Rattle.std.specs.Prelude.{◌≡◌, ◌+◌, ◌<◌, ◌≤◌, ◌↔◌, [], length, IfOk, IfErr, OnErr, IsErrOf};
ghost use Rattle.leftist_heap.specs.Store.{first_of, rest_of};
ghost use Rattle.pq_types.specs.History.{left};
ghost use Rattle.pq_types.specs.Laws.{MayDoPlainly};
ghost use Rattle.pq_types.specs.Operation.{Asked};
ghost use Rattle.pq_types.specs.Queue.{IsAscending, with_item};
ghost use Rattle.pq_book.specs.Book.{IsRoom};
ghost use Rattle.readme_examples.specs.Agenda.{IsOpen, Leaves};

use leftist_heap::Leftist;
use pq_book::{Book, BookError, Entry};
use pq_types::laws::{law_one_answer, law_one_more_line, law_shut};
use pq_types::{Answer, Item, Reply, Request};
use std::alloc::{AllocFailed, Global};
use std::marker::Model;
use thiserror::Error;

/// The store of an agenda, which takes memory for each item that it holds.
pub type Heap = Leftist<Entry, Global>;

/// Why an item was not put in or taken out. Nothing has changed then.
#[derive(Clone, Copy, Debug, PartialEq, Eq, Error)]
pub enum Refused {
    /// A journal has room for 1 to 1,048,576 lines.
    #[error("lines out of range")]
    LinesOutOfRange,
    /// Each push and each pop takes a line of the journal, and none is left.
    #[error("book full")]
    BookFull,
    /// Memory was refused.
    #[error("no memory")]
    NoMemory,
    /// There is no time so late.
    #[error("too late")]
    TooLate,
}

impl From<AllocFailed<Item>> for Refused {
    ghost use Rattle.readme_examples.specs.declared.agenda.Refused.TheVariants.{NoMemory};

    ghost from_gives = { λ _ e. e ≡ NoMemory };

    fn from(_refused: AllocFailed<Item>) -> Refused {
        Refused::NoMemory
    }
}

/// What one thread has still to do. A contract sees the items that it holds, in the order in which
/// they come out, and how many lines of its journal's room are taken.
#[derive(Drop)]
pub struct Agenda {
    book: Book<Heap, Global>,
}

impl Model for Agenda {
    ghost use Rattle.std.specs.Prelude.{length};
    ghost use Rattle.pq_types.specs.History.{left};
    ghost use Rattle.readme_examples.specs.Agenda.{Held, IsOpen};

    ghost Value = { Held };

    ghost view = { λ a. record { items = left a.book.journal; lines = length a.book.journal; room = a.book.room } };

    ghost invariant = { λ a. IsOpen a.book };
}

impl Agenda {
    /// An agenda that holds nothing, with a journal of so many lines.
    pub fn new(alloc: Global, lines: u32) -> Result<Agenda, Refused>
        ensures ok { IfOk result (λ agenda. agenda ≡ record { items = []; lines = 0; room = lines }) }
        ensures lines { IsErrOf result Refused.LinesOutOfRange ↔ (¬ (IsRoom lines)) }
        ensures opens { ¬ (IsErrOf result Refused.BookFull) }
    {
        match Book::new(alloc, Leftist::new(alloc), lines) {
            Ok(book) => Ok(Agenda { book }),
            Err(BookError::LinesOutOfRange) => Err(Refused::LinesOutOfRange),
            Err(BookError::NoMemory) => Err(Refused::NoMemory),
        }
    }

    /// Puts an item behind every item whose priority is not above its own.
    pub fn push(&mut self, item: Item) -> Result<(), Refused>
        ensures ok { IfOk result (λ _.
            self.new ≡ record self.old { items = with_item item self.old.items; lines = self.old.lines + 1 }) }
        ensures err { OnErr result (self.new ≡ self.old) }
        ensures full { IsErrOf result Refused.BookFull ↔ self.old.lines ≡ self.old.room }
        ensures ascending { IsAscending self.new.items }
    {
        law_one_more_line();
        match ask(&mut self.book, Request::Push(item)) {
            Answer::Entered(_, _) => Ok(()),
            Answer::BookFull => Err(Refused::BookFull),
            Answer::NoMemory => Err(Refused::NoMemory),
            Answer::Refused(_) => unreachable!(),
        }
    }

    /// Takes the first item out, where there is one. It is refused only where no line is left.
    pub fn pop(&mut self) -> Result<Option<Item>, Refused>
        ensures ok { IfOk result (λ first. (first ≡ first_of self.old.items)
            × (self.new ≡ record self.old { items = rest_of self.old.items; lines = self.old.lines + 1 })) }
        ensures err { IfErr result (λ error. (error ≡ Refused.BookFull) × (self.new ≡ self.old)) }
        ensures full { IsErrOf result Refused.BookFull ↔ self.old.lines ≡ self.old.room }
        ensures ascending { IsAscending self.old.items }
    {
        law_one_more_line();
        match ask(&mut self.book, Request::Pop) {
            Answer::Entered(_, reply) => match reply {
                Reply::Got(item) => Ok(Some(item)),
                _ => Ok(None),
            },
            Answer::BookFull => Err(Refused::BookFull),
            Answer::NoMemory | Answer::Refused(_) => unreachable!(),
        }
    }

    /// The Book, which holds what the agenda held.
    pub fn into_book(self) -> Book<Heap, Global>
        ensures { left result.journal ≡ self.items }
    {
        self.book
    }
}

// Has the Book carry a request out, under the number of the next line as its serial.
fn ask(book: &mut Book<Heap, Global>, request: Request) -> Answer
    requires { IsOpen book.old }
    ensures answer { MayDoPlainly book.old.room book.old.journal (Asked request) result }
    ensures lines { Leaves book.old.journal request result book.new.journal }
    ensures room { book.new.room ≡ book.old.room }
    ensures open { IsOpen book.new }
{
    law_one_more_line();
    law_one_answer();
    law_shut();
    let serial = book.len() + 1;
    book.apply(0, serial, request)
}
