// How a leader hears that lines are archived: from then on the Book in its hand allows more.
ghost use Rattle.std.specs.Prelude.{◌≡◌, ◌<◌, true, [], ◌∷◌};
ghost use Rattle.desk_core.specs.declared.model.View.TheVariants.{Holder};
ghost use Rattle.desk_core.specs.Layout.{lock_at};
ghost use Rattle.desk_core.specs.Pen.{after_archive, book_in_hand};
ghost use Rattle.announce_board.specs.Slots.{out};
ghost use Rattle.announce_board.specs.Steps.{pen_at};
ghost use Rattle.announce_board.specs.Tokens.{IsLeadOf};

use crate::applying::take_back;
use crate::boxed_book::BoxedBook;
use crate::desk::Desk;
use crate::laws::law_steps_are_allowed;
use crate::locking::drop_slot;
use crate::rule::{Archive, Board, BoardSeat, Slot};
use crate::tokens::{Lead, Pen};
use crate::words::LOCK;
use leftist_heap::Store;
use pq_book::Entry;
use pq_types::Part;

// Has the Book allow as many lines as it may once so many are archived: it lies in its slot while the lock is loaded.
fn allow_more<S: Store<Entry<P>>, P: Part>(
    board: &Board<S, P>,
    seat: &mut BoardSeat<S, P>,
    book: BoxedBook<S, P>,
    lines: u64,
) -> BoxedBook<S, P>
    requires here { seat.old.table_id ≡ board.now.table_id }
    requires is { seat.old.me.0 ≡ Holder (pen_at seat.old.me) }
    requires lock { lock_at < board.now.table_id.words }
    requires slot { seat.old.me.1 ≡ (0, out) ∷ [] }
    requires leads { (pen_at seat.old.me).leading ≡ true }
    requires book { book ≡ book_in_hand (pen_at seat.old.me) }
    ensures table { seat.new.table_id ≡ seat.old.table_id }
    ensures book { result ≡ book_in_hand (after_archive (pen_at seat.old.me) lines) }
    ensures after { seat.new.me ≡ (Holder (after_archive (pen_at seat.old.me) lines), (0, out) ∷ []) }
{
    law_steps_are_allowed::<S, P>();
    let mut book = book;
    book.boxed.archived(lines);
    drop_slot(board.exchange(seat, 0, Slot::with(book)));
    board.load::<Archive>(seat, LOCK);
    take_back(board, seat)
}

impl<S: Store<Entry<P>>, P: Part> Desk<S, P> {
    /// The leader hears, in one step, that the first so many lines of its journal are archived, or all where it has
    /// fewer. From now on the journal may have as many more as memory keeps. Nothing else changes, and no other call
    /// has a Book allow more.
    pub fn archive(&self, pen: &mut Pen<S, P>, lead: Lead<S, P>, lines: u64) -> Lead<S, P>
        requires table { pen.old.table ≡ self.now.table }
        requires lead { IsLeadOf pen.old lead }
        ensures lead { IsLeadOf pen.new result }
        ensures after { pen.new ≡ record pen.old { state = after_archive pen.old.state lines } }
    {
        let Lead { book, seat } = lead;
        let book = allow_more(&self.table.shared, &mut pen.seat, book, lines);
        Lead { book, seat }
    }
}
