// What a thread holds of a desk: a pen, which asks; and a lead, while its pen leads.
ghost use Rattle.std.specs.Prelude.{◌≡◌, ◌↔◌, ◌+◌, ◌<◌, ◌≤◌, ◌++◌, false, length, drop, OnOk, OnErr, IsErrOf};
ghost use Rattle.pq_book.specs.Pages.{page_of};
ghost use Rattle.pq_book.specs.Peak.{IsPeak};
ghost use Rattle.pq_types.specs.History.{left, is_shut};
ghost use Rattle.leftist_heap.specs.Store.{first_of};
ghost use Rattle.wait_list.specs.Settled.{is_watched};
ghost use Rattle.announce_board.specs.Slots.{terms_of};
ghost use Rattle.announce_board.specs.Tokens.{is_idle};
ghost use Rattle.announce_board.specs.Waking.{owes_any};

use crate::boxed_book::BoxedBook;
use crate::rule::BoardSeat;
use crate::terms::Terms;
use leftist_heap::Store;
use pq_book::{Book, Entry, LinesError};
use pq_types::{Item, Line, Part};
use std::alloc::{Allocator, Global};
use std::marker::Model;
use std::snapshot::Snapshot;

/// The right to post at one place of a desk. It goes from thread to thread. It keeps the numbers of those whom its releases have
/// woken, as a mask, until it hands them out. A contract sees of it its desk's table, and what it has done and seen.
#[derive(Drop)]
pub struct Pen<S: Store<Entry<P>>, P: Part = u32> {
    pub(crate) seat: BoardSeat<S, P>,
    pub(crate) place: u16,
    pub(crate) posts: u64,
    pub(crate) idle: bool,
    pub(crate) wakes: u64,
}

impl<S: Store<Entry<P>>, P: Part> Model for Pen<S, P> {
    ghost use Rattle.announce_board.specs.Steps.{pen_at};
    ghost use Rattle.announce_board.specs.Tokens.{AtDesk, IsPen};

    ghost Value = { AtDesk };

    ghost view = { λ p. record { table = p.seat.table_id; state = pen_at p.seat.me } };

    ghost invariant = { λ p. IsPen p.seat.table_id p.seat.me p.place p.posts p.idle p.wakes };
}

/// The Book of a desk, in the hand of the pen that leads. It has no `Drop`: whoever has won the
/// lock releases it, or keeps the Book for good. A contract sees of it its desk's table, its pen's
/// place and its Book.
pub struct Lead<S: Store<Entry<P>>, P: Part = u32> {
    pub(crate) book: BoxedBook<S, P>,
    pub(crate) seat: Snapshot<BoardSeat<S, P>>,
}

impl<S: Store<Entry<P>>, P: Part> Model for Lead<S, P> {
    ghost use Rattle.announce_board.specs.Steps.{pen_at};
    ghost use Rattle.announce_board.specs.Tokens.{Leading};

    ghost Value = { Leading };

    ghost view = { λ l. record { table = l.seat.value.table_id; place = (pen_at l.seat.value.me).place; book = l.book } };
}

impl<S: Store<Entry<P>>, P: Part> Lead<S, P> {
    /// How many lines the journal of the Book has.
    pub fn lines(&self) -> u64
        ensures { result ≡ length self.now.book.journal }
    {
        self.book.boxed.len()
    }

    /// The first item that the journal of the Book leaves in the queue, where there is one.
    pub fn first(&self) -> Option<Item<P>>
        ensures { result ≡ first_of (left self.now.book.journal) }
    {
        self.book.boxed.first()
    }

    /// How many items the journal of the Book leaves in the queue.
    pub fn items(&self) -> u64
        ensures { result ≡ length (left self.now.book.journal) }
    {
        self.book.boxed.items()
    }

    /// The most items that waited at once: the greatest number that the journal of the Book, or any beginning of it, leaves in
    /// the queue.
    pub fn peak_items(&self) -> u64
        ensures { IsPeak self.now.book.journal result }
    {
        self.book.boxed.peak_items()
    }

    /// Whether the queue is shut: whether the journal of the Book has a shut line.
    pub fn is_shut(&self) -> bool
        ensures { result ≡ is_shut self.now.book.journal }
    {
        self.book.boxed.is_shut()
    }

    /// The terms of the Book, as they are now.
    pub fn terms(&self) -> Terms
        ensures { result ≡ terms_of self.now.book }
    {
        self.book.terms()
    }

    /// Whether an item of this priority is taken when it is due: by a thread that was woken, or by one that takes what is due and
    /// sleeps until then at most.
    pub fn is_watched(&self, priority: u64) -> bool
        ensures { result ≡ is_watched priority self.now.book.waiters }
    {
        self.book.boxed.is_watched(priority)
    }

    /// Copies the lines of the journal behind the first so many, which the archive has already, to its
    /// end, as `Book::lines_from`: `Forgotten` where the first of them is, else `NoMemory` where memory
    /// for them was refused. The archive is as it was then.
    pub fn lines_from<B: Allocator>(
        &self,
        archived: u64,
        archive: &mut Vec<Line<P>, B>,
    ) -> Result<(), LinesError>
        ensures ok { OnOk result (archive.new.items ≡ archive.old.items ++ drop archived self.now.book.journal) }
        ensures err { OnErr result (archive.new.items ≡ archive.old.items) }
        ensures forgotten { IsErrOf result LinesError.Forgotten
            ↔ archived + page_of self.now.book.room < length self.now.book.journal }
        // An archive with as many lines as the Book takes for archived loses none.
        ensures kept { self.now.book.allowed ≤ archived + page_of self.now.book.room → IsErrOf result LinesError.Forgotten → ⊥ }
    {
        self.book.boxed.lines_from(archived, archive)
    }

    /// The Book, without a release. The lock is held for good.
    pub fn into_book(self) -> Book<S, Global, P>
        ensures { result ≡ self.book }
    {
        self.into_boxed().into_book()
    }

    /// The same, where it lies.
    pub(crate) fn into_boxed(self) -> BoxedBook<S, P>
        ensures { result ≡ self.book }
    {
        let Lead { book, seat: _ } = self;
        book
    }
}

impl<S: Store<Entry<P>>, P: Part> Pen<S, P> {
    /// The place of the pen.
    pub fn place(&self) -> u16
        ensures { result ≡ self.now.state.place }
    {
        self.place
    }

    /// Its last serial: how often it has posted, or released with a request of its own.
    pub fn posts(&self) -> u64
        ensures { result ≡ self.now.state.posts }
    {
        self.posts
    }

    /// Whether it waits for no answer.
    pub fn is_idle(&self) -> bool
        ensures { result ≡ is_idle self.now.state.standing }
    {
        self.idle
    }

    /// Whether its releases have woken somebody whose number it has not handed out.
    #[inline(always)]
    pub fn owes_wakes(&self) -> bool
        ensures { result ≡ owes_any self.now.state.owed }
    {
        self.wakes != 0
    }
}
