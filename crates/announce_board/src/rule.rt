// What the table of a desk keeps between any two steps, and what each step tells.
ghost use Rattle.pq_book.specs.Book.{AllHaveRoom, Volume};
ghost use Rattle.leftist_heap.specs.Store.{first_of};
ghost use Rattle.pq_types.specs.History.{left, last_serial};
ghost use Rattle.std.specs.Prelude.{◌≡◌, ◌≢◌, ◌+◌, ◌<◌, length};
ghost use Rattle.announce_board.specs.Rule.{Keeps, dealt_one, pen_dealt};
ghost use Rattle.announce_board.specs.Slots.{with_book, says, out, book_of, CarriesOut};
ghost use Rattle.announce_board.specs.Steps.{Drafted, PostStored, LockRead, LockTried, MailRead, ItemRead, ItemLaid};
ghost use Rattle.announce_board.specs.Steps.{AnswerStored, Applied, Archived, Changed, HandedOut, Released, ReleasedWith, AnswerLooked, ItemSeen, ItemTaken};
ghost use Rattle.desk_core.specs.declared.model.View.TheVariants.{Dealer};

use crate::boxed_book::BoxedBook;
use crate::terms::{NamedTerms, Terms};
use atomic_table::{Play, Seat, Shared, Split, Table, TableRule};
use desk_core::View;
use leftist_heap::Store;
use pq_book::Entry;
use pq_types::{Answer, Item, Part, Request};
use std::marker::{Model, PhantomData};

/// What a desk is made for: the room of its journal, its terms, and the number of its places.
#[derive(Drop)]
pub struct Plan {
    pub room: u64,
    pub terms: Terms,
    pub places: u16,
}

/// What lies in the slot of a desk's table: the Book, but while a pen leads. A slot without a Book names
/// terms, for proofs alone: by one a step says which terms the desk has.
#[derive(Drop)]
pub struct Slot<S: Store<Entry<P>>, P: Part = u32> {
    book: Option<BoxedBook<S, P>>,
    said: NamedTerms,
}

impl<S: Store<Entry<P>>, P: Part> Model for Slot<S, P> {
    ghost use Rattle.announce_board.specs.Slots.{Slotted, slotted};

    ghost Value = { Slotted };

    ghost view = { λ s. slotted s.book s.said.terms };
}

impl<S: Store<Entry<P>>, P: Part> Slot<S, P> {
    /// The slot with this Book.
    #[inline(always)]
    pub fn with(book: BoxedBook<S, P>) -> Self
        ensures { result ≡ with_book book }
    {
        let nothing = Terms {
            bound: 0,
            allowed: 0,
        };
        Slot {
            book: Some(book),
            said: NamedTerms::of(&nothing),
        }
    }

    /// The slot while a pen leads.
    #[inline(always)]
    pub fn out() -> Self
        ensures { result ≡ out }
    {
        Slot::saying(Terms {
            bound: 0,
            allowed: 0,
        })
    }

    /// A slot without a Book, which names these terms.
    #[inline(always)]
    pub fn saying(terms: Terms) -> Self
        ensures { result ≡ says terms }
    {
        Slot {
            book: None,
            said: NamedTerms::of(&terms),
        }
    }

    /// The Book, where it is there.
    #[inline(always)]
    #[tactic(auto, using(crate::proofs::Slots::book_back))]
    pub fn into_inner(self) -> Option<BoxedBook<S, P>>
        ensures { result ≡ book_of self }
    {
        let Slot { book, said: _ } = self;
        book
    }

    /// Has the Book, which is there, carry out a request.
    #[inline(always)]
    pub fn carry_out(
        &mut self,
        place: u16,
        serial: u64,
        request: Request<Item<P>>,
    ) -> Answer<Item<P>>
        requires there { (book : Volume) × (self.old ≡ with_book book) × (last_serial place book.journal < serial) }
        ensures carries { CarriesOut P.wide place serial request self.old result self.new }
        ensures memory { (book : Volume) → self.old ≡ with_book book → AllHaveRoom S.room book.room → result ≢ Answer.NoMemory }
        ensures spare { (book : Volume) → self.old ≡ with_book book → AllHaveRoom S.room (length (left book.journal) + 1)
            → result ≢ Answer.NoMemory }
    {
        match &mut self.book {
            Some(book) => book.boxed.apply(place, serial, request),
            None => unreachable!(),
        }
    }

    /// The first item of the Book, which is there.
    #[inline(always)]
    pub fn first(&self) -> Option<Item<P>>
        requires there { (book : Volume) × (self.now ≡ with_book book) }
        ensures { (book : Volume) → self.now ≡ with_book book → result ≡ first_of (left book.journal) }
    {
        match &self.book {
            Some(book) => book.boxed.first(),
            None => unreachable!(),
        }
    }
}

/// The rule of a desk's table, whose items have parts of this type.
pub struct DeskRule<P: Part> {
    width: PhantomData<P>,
}

impl<S: Store<Entry<P>>, P: Part> TableRule<Slot<S, P>, View, Plan> for DeskRule<P> {
    ghost holds = { λ plan. Keeps P.wide (AllHaveRoom S.room) plan.room plan.terms plan.places };

    ghost first = { λ plan. Dealer 0 plan.room };
}

/// The table of a desk, with its memory of this allocator.
pub type DeskTable<S, A, P = u32> = Table<Slot<S, P>, View, Plan, DeskRule<P>, A>;

/// The table of a desk, as threads share it.
pub type Board<S, P = u32> = Shared<Slot<S, P>, View, Plan, DeskRule<P>>;

/// A seat of that table.
pub type BoardSeat<S, P = u32> = Seat<Slot<S, P>, View>;

/// The dealer gives out the pen of its next place.
pub struct NextPen;

impl Split<View> for NextPen {
    ghost left = { dealt_one };

    ghost right = { pen_dealt };
}

/// An item is stored in the pen's own cell.
pub struct Draft<P: Part> {
    width: PhantomData<P>,
}

impl<S: Store<Entry<P>>, P: Part> Play<Slot<S, P>, View> for Draft<P> {
    ghost then = { Drafted P.wide };
}

/// A posted control is stored at the pen's own place.
pub struct Post;

impl<S: Store<Entry<P>>, P: Part> Play<Slot<S, P>, View> for Post {
    ghost then = { PostStored };
}

/// The lock is loaded.
pub struct ReadLock;

impl<S: Store<Entry<P>>, P: Part> Play<Slot<S, P>, View> for ReadLock {
    ghost then = { LockRead };
}

/// The lock is tried, at a desk of the terms that the step names.
pub struct TryLock;

impl<S: Store<Entry<P>>, P: Part> Play<Slot<S, P>, View> for TryLock {
    ghost then = { LockTried };
}

/// The leader loads the control of a place.
pub struct ReadMail;

impl<S: Store<Entry<P>>, P: Part> Play<Slot<S, P>, View> for ReadMail {
    ghost then = { MailRead };
}

/// The leader loads the item of what is due.
pub struct ReadItem<P: Part> {
    width: PhantomData<P>,
}

impl<S: Store<Entry<P>>, P: Part> Play<Slot<S, P>, View> for ReadItem<P> {
    ghost then = { ItemRead P.wide };
}

/// The leader stores the item of an answer.
pub struct LayItem<P: Part> {
    width: PhantomData<P>,
}

impl<S: Store<Entry<P>>, P: Part> Play<Slot<S, P>, View> for LayItem<P> {
    ghost then = { ItemLaid P.wide };
}

/// The leader stores the control of an answer.
pub struct StoreAnswer;

impl<S: Store<Entry<P>>, P: Part> Play<Slot<S, P>, View> for StoreAnswer {
    ghost then = { AnswerStored };
}

/// The leader applies a request of its own.
pub struct Apply;

impl<S: Store<Entry<P>>, P: Part> Play<Slot<S, P>, View> for Apply {
    ghost then = { Applied };
}

/// The leader hears that lines are archived.
pub struct Archive;

impl<S: Store<Entry<P>>, P: Part> Play<Slot<S, P>, View> for Archive {
    ghost then = { Archived };
}

/// The leader changes who waits at its Book.
pub struct ChangeList;

impl<S: Store<Entry<P>>, P: Part> Play<Slot<S, P>, View> for ChangeList {
    ghost then = { Changed };
}

/// The pen hands out whom it has woken.
pub struct HandOut;

impl<S: Store<Entry<P>>, P: Part> Play<Slot<S, P>, View> for HandOut {
    ghost then = { HandedOut };
}

/// The leader frees the lock.
pub struct Release;

impl<S: Store<Entry<P>>, P: Part> Play<Slot<S, P>, View> for Release {
    ghost then = { Released };
}

/// The leader frees the lock with a request of its own.
pub struct ReleaseWith;

impl<S: Store<Entry<P>>, P: Part> Play<Slot<S, P>, View> for ReleaseWith {
    ghost then = { ReleasedWith };
}

/// A pen that waits loads the control of its own place.
pub struct Look;

impl<S: Store<Entry<P>>, P: Part> Play<Slot<S, P>, View> for Look {
    ghost then = { AnswerLooked (AllHaveRoom S.room) };
}

/// A pen that has seen an answer with an item loads its own cell.
pub struct TakeItem<P: Part> {
    width: PhantomData<P>,
}

impl<S: Store<Entry<P>>, P: Part> Play<Slot<S, P>, View> for TakeItem<P> {
    ghost then = { ItemTaken P.wide };
}

/// A pen that has seen an answer with an item loads a word of its own cell, of which there is more to
/// load.
pub struct SeeItem<P: Part> {
    width: PhantomData<P>,
}

impl<S: Store<Entry<P>>, P: Part> Play<Slot<S, P>, View> for SeeItem<P> {
    ghost then = { ItemSeen P.wide };
}
