// How a pen wins the lock of its desk and the Book with it, and gives both back.
ghost use Rattle.std.specs.Prelude.{◌≡◌, ◌<◌, true, [], ◌∷◌, MatchOption};
ghost use Rattle.desk_core.specs.declared.model.View.TheVariants.{Holder};
ghost use Rattle.desk_core.specs.Layout.{lock_at};
ghost use Rattle.desk_core.specs.Pen.{after_miss, after_release, book_in_hand, newly_woken};
ghost use Rattle.announce_board.specs.Steps.{pen_at, Becomes};
ghost use Rattle.announce_board.specs.Loads.{TriesLock, WinsBook};
ghost use Rattle.announce_board.specs.Slots.{out};
ghost use Rattle.announce_board.specs.Waking.{IsMaskOf};

use crate::boxed_book::BoxedBook;
use crate::laws::law_steps_are_allowed;
use crate::rule::{Board, BoardSeat, ReadLock, Release, Slot, TryLock};
use crate::terms::Terms;
use crate::words::LOCK;
use leftist_heap::Store;
use pq_book::Entry;
use pq_types::Part;

// Tries the lock where it is free: whether the pen has won it. A load that finds it held is the
// same step as a try that does, and leaves the cache line with the leader.
fn try_lock<S: Store<Entry<P>>, P: Part>(
    board: &Board<S, P>,
    seat: &mut BoardSeat<S, P>,
    terms: Terms,
) -> bool
    requires here { seat.old.table_id ≡ board.now.table_id }
    requires is { seat.old.me.0 ≡ Holder (pen_at seat.old.me) }
    requires lock { lock_at < board.now.table_id.words }
    requires terms { terms ≡ board.now.key.terms }
    ensures table { seat.new.table_id ≡ seat.old.table_id }
    ensures tries { TriesLock terms result seat.old.me seat.new.me }
{
    law_steps_are_allowed::<S, P>();
    if board.load::<ReadLock>(seat, LOCK) != 0 {
        return false;
    }
    let said = Slot::saying(terms);
    board.compare_exchange_with::<TryLock>(seat, LOCK, 0, 1, &said) == 0
}

/// Drops what came out of a slot. Where a Book goes home none came out, so it is freed out of line.
#[inline(always)]
pub fn drop_slot<S: Store<Entry<P>>, P: Part>(slot: Slot<S, P>) {
    if let Some(book) = slot.into_inner() {
        free(book);
    }
}

// Frees a Book.
#[cold]
#[inline(never)]
fn free<S: Store<Entry<P>>, P: Part>(book: BoxedBook<S, P>) {
    drop(book);
}

/// Tries the lock of a desk of these terms, and takes the Book out of its slot where the pen has won.
pub fn win_book<S: Store<Entry<P>>, P: Part>(
    board: &Board<S, P>,
    seat: &mut BoardSeat<S, P>,
    terms: Terms,
) -> Option<BoxedBook<S, P>>
    requires here { seat.old.table_id ≡ board.now.table_id }
    requires is { seat.old.me.0 ≡ Holder (pen_at seat.old.me) }
    requires lock { lock_at < board.now.table_id.words }
    requires terms { terms ≡ board.now.key.terms }
    ensures table { seat.new.table_id ≡ seat.old.table_id }
    ensures wins { MatchOption result (Becomes seat.old.me (after_miss (pen_at seat.old.me)) seat.new.me)
        (λ book. WinsBook terms seat.old.me book seat.new.me) }
{
    if !try_lock(board, seat, terms) {
        return None;
    }
    board.exchange(seat, 0, Slot::out()).into_inner()
}

/// Has the Book wake whom it is to wake, puts it into its slot, and frees the lock then. The mask of those who were woken.
pub fn put_home<S: Store<Entry<P>>, P: Part>(
    board: &Board<S, P>,
    seat: &mut BoardSeat<S, P>,
    book: BoxedBook<S, P>,
) -> u64
    requires here { seat.old.table_id ≡ board.now.table_id }
    requires is { seat.old.me.0 ≡ Holder (pen_at seat.old.me) }
    requires lock { lock_at < board.now.table_id.words }
    requires slot { seat.old.me.1 ≡ (0, out) ∷ [] }
    requires leads { (pen_at seat.old.me).leading ≡ true }
    requires book { book ≡ book_in_hand (pen_at seat.old.me) }
    ensures table { seat.new.table_id ≡ seat.old.table_id }
    ensures wakes { IsMaskOf result (newly_woken (book_in_hand (pen_at seat.old.me))) }
    ensures after { seat.new.me ≡ (Holder (after_release (pen_at seat.old.me)), []) }
{
    law_steps_are_allowed::<S, P>();
    let (book, wakes) = book.settled();
    drop_slot(board.exchange(seat, 0, Slot::with(book)));
    board.store::<Release>(seat, LOCK, 0);
    wakes
}
