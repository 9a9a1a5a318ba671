// How a desk is opened.
ghost use Rattle.std.specs.Prelude.{◌≡◌, ◌+◌, ◌<◌, ◌≤◌, ◌↔◌, ℕ, [], length, IfOk, IsErrOf};
ghost use Rattle.pq_types.specs.declared.journal.TheConstants.{GREATEST_NUMBER};
ghost use Rattle.pq_book.specs.Book.{IsRoom, IsLongRoom};
ghost use Rattle.desk_core.specs.Layout.{word_count};
ghost use Rattle.desk_core.specs.declared.model.View.TheVariants.{Dealer};
ghost use Rattle.announce_board.specs.Opening.{Opens, ArePens, pen_of_place};
ghost use Rattle.announce_board.specs.Slots.{terms_of, plain_terms};
ghost use Rattle.announce_board.specs.Tokens.{IsDesk};

use crate::boxed_book::BoxedBook;
use crate::desk::Desk;
use crate::error::DeskError;
use crate::laws::law_opening_and_end;
use crate::rule::{Board, BoardSeat, DeskTable, NextPen, Plan, Slot};
use crate::terms::Terms;
use crate::tokens::Pen;
use crate::words::words_of;
use atomic_table::{Refused, Table};
use leftist_heap::{Leftist, Store};
use pq_book::{Book, BookError, Entry};
use pq_types::{MOST_LINES, Part};
use std::alloc::{AllocError, Allocator, Global};

impl<S: Store<Entry<P>>, P: Part> Desk<S, P> {
    /// A desk with this empty store, so many places, and a journal of so many lines, 1 to
    /// 1,048,576, else `LinesOutOfRange`; and the pen of each place, in their order. `NoMemory`
    /// where memory was refused. All memory that the desk will ever need is taken here, but for the
    /// growth of the store.
    pub fn with_store(
        alloc: Global,
        store: S,
        places: u16,
        lines: u32,
    ) -> Result<(Desk<S, P>, Vec<Pen<S, P>>), DeskError>
        requires empty { S.content store ≡ [] }
        ensures ok { IfOk result (λ r. Opens places lines r.0 r.1.items) }
        ensures terms { IfOk result (λ r. r.0.terms ≡ plain_terms lines) }
        ensures in_range { IfOk result (λ _. IsRoom lines) }
        ensures out_of_range { IsErrOf result DeskError.LinesOutOfRange ↔ (¬ (IsRoom lines)) }
    {
        let room = u64::from(lines);
        if room > MOST_LINES {
            return Err(DeskError::LinesOutOfRange);
        }
        let plain = Terms {
            bound: room + 1,
            allowed: room,
        };
        Desk::limited(alloc, store, places, room, plain)
    }

    /// A desk with this empty store and so many places, a journal of so many lines, 1 to
    /// 72,057,594,037,927,936, else `LinesOutOfRange`, and a queue of these terms; else as `with_store`. One that
    /// refuses rather than forget a line that is not archived allows as many lines as are kept; one that forgets
    /// allows all.
    pub fn limited(
        alloc: Global,
        store: S,
        places: u16,
        room: u64,
        terms: Terms,
    ) -> Result<(Desk<S, P>, Vec<Pen<S, P>>), DeskError>
        requires empty { S.content store ≡ [] }
        ensures ok { IfOk result (λ r. Opens places room r.0 r.1.items) }
        ensures terms { IfOk result (λ r. r.0.terms ≡ terms) }
        ensures in_range { IfOk result (λ _. IsLongRoom room) }
        ensures out_of_range { IsErrOf result DeskError.LinesOutOfRange ↔ (¬ (IsLongRoom room)) }
    {
        let book = match Book::limited(alloc, store, room, terms.bound, terms.allowed) {
            Ok(book) => book,
            Err(BookError::LinesOutOfRange) => return Err(DeskError::LinesOutOfRange),
            Err(BookError::NoMemory) => return Err(DeskError::NoMemory),
        };
        let Ok(boxed) = Box::new(alloc, book) else {
            return Err(DeskError::NoMemory);
        };
        match opened(alloc, BoxedBook { boxed }, places, room) {
            Ok(made) => Ok(made),
            Err(AllocError) => Err(DeskError::NoMemory),
        }
    }
}

impl Desk<Leftist<Entry, Global>> {
    /// A desk with so many places over a leftist heap, with room for so many lines, 1 to 1,048,576,
    /// else `LinesOutOfRange`; and the pen of each place, in their order. `NoMemory` where memory
    /// was refused.
    pub fn new(
        alloc: Global,
        places: u16,
        lines: u32,
    ) -> Result<
        (
            Desk<Leftist<Entry, Global>>,
            Vec<Pen<Leftist<Entry, Global>>>,
        ),
        DeskError,
    >
        ensures ok { IfOk result (λ r. Opens places lines r.0 r.1.items) }
        ensures terms { IfOk result (λ r. r.0.terms ≡ plain_terms lines) }
        ensures in_range { IfOk result (λ _. IsRoom lines) }
        ensures out_of_range { IsErrOf result DeskError.LinesOutOfRange ↔ (¬ (IsRoom lines)) }
    {
        Desk::with_store(alloc, Leftist::new(alloc), places, lines)
    }
}

// The desk with this Book, and its pens.
fn opened<S: Store<Entry<P>>, P: Part>(
    alloc: Global,
    book: BoxedBook<S, P>,
    places: u16,
    lines: u64,
) -> Result<(Desk<S, P>, Vec<Pen<S, P>>), AllocError>
    requires room { book.room ≡ lines }
    requires empty { book.journal ≡ [] }
    requires waiters { book.waiters ≡ [] }
    requires lines { lines ≤ GREATEST_NUMBER }
    ensures ok { IfOk result (λ r. Opens places lines r.0 r.1.items) }
    ensures terms { IfOk result (λ r. r.0.terms ≡ terms_of book) }
{
    let terms = book.terms();
    let (table, pens) = laid_out(alloc, book, places, lines)?;
    let desk = Desk {
        table,
        places,
        room: lines,
        terms,
    };
    Ok((desk, pens))
}

/// The table of a desk with this Book, and its pens; all of their memory is this allocator's, so
/// that a test can refuse each request. Where there is no table, the Book is dropped.
pub fn laid_out<S: Store<Entry<P>>, A: Allocator + Copy, P: Part>(
    alloc: A,
    book: BoxedBook<S, P>,
    places: u16,
    lines: u64,
) -> Result<(DeskTable<S, A, P>, Vec<Pen<S, P>, A>), AllocError>
    requires room { book.room ≡ lines }
    requires empty { book.journal ≡ [] }
    requires waiters { book.waiters ≡ [] }
    requires lines { lines ≤ GREATEST_NUMBER }
    ensures desk { IfOk result (λ r. IsDesk r.0.shared.table_id r.0.shared.key.places r.0.shared.key.room r.0.shared.key.terms
        places lines (terms_of book)) }
    ensures counted { IfOk result (λ r. length r.1.items ≡ places) }
    ensures dealt { IfOk result (λ r. ArePens r.0.shared.table_id lines r.1.items) }
{
    law_opening_and_end::<S, P>();
    let terms = book.terms();
    let mut slots = Vec::with_capacity(alloc, 1)?;
    slots.push_reserved(Slot::with(book));
    let words = vec![in alloc; 0u64; words_of(places)]?;
    let plan = Plan {
        room: lines,
        terms,
        places,
    };
    let (table, dealer) = match Table::new(alloc, &words, slots, &plan) {
        Ok(made) => made,
        Err(Refused { slots: _ }) => return Err(AllocError),
    };
    let pens = deal(alloc, &table.shared, dealer, places)?;
    Ok((table, pens))
}

// The pens of all places, one cut off the dealer's seat after the other.
fn deal<S: Store<Entry<P>>, A: Allocator, P: Part>(
    alloc: A,
    board: &Board<S, P>,
    mut dealer: BoardSeat<S, P>,
    places: u16,
) -> Result<Vec<Pen<S, P>, A>, AllocError>
    requires here { dealer.table_id ≡ board.now.table_id }
    requires words { board.now.table_id.words ≡ word_count places }
    requires places { places ≡ board.now.key.places }
    requires all { dealer.me ≡ (Dealer 0 board.now.key.room, []) }
    ensures counted { IfOk result (λ pens. length pens.items ≡ places) }
    ensures dealt { IfOk result (λ pens. ArePens board.now.table_id board.now.key.room pens.items) }
{
    let mut pens = Vec::with_capacity(alloc, places as usize)?;
    for place in 0..places {
        pens.push(next_pen(board, &mut dealer, place))?;
    }
    Ok(pens)
}

fn next_pen<S: Store<Entry<P>>, P: Part>(
    board: &Board<S, P>,
    dealer: &mut BoardSeat<S, P>,
    place: u16,
) -> Pen<S, P>
    requires here { dealer.old.table_id ≡ board.now.table_id }
    requires words { board.now.table_id.words ≡ word_count board.now.key.places }
    requires place { place < board.now.key.places }
    requires dealer { dealer.old.me ≡ (Dealer place board.now.key.room, []) }
    ensures table { dealer.new.table_id ≡ dealer.old.table_id }
    ensures dealer { dealer.new.me ≡ (Dealer (place + 1) board.now.key.room, []) }
    ensures pen { result ≡ pen_of_place board.now.table_id board.now.key.room place }
{
    law_opening_and_end::<S, P>();
    Pen {
        seat: board.split_seat::<NextPen>(dealer),
        place,
        posts: 0,
        idle: true,
        wakes: 0,
    }
}
