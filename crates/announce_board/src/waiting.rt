// How a leader changes who waits at its Book.
ghost use Rattle.std.specs.Prelude.{◌≡◌, ◌<◌, true, false, [], ◌∷◌};
ghost use Rattle.wait_list.specs.Waiters.{Change, Waits, Leaves, AllLeave, has_number, is_woken_at, without};
ghost use Rattle.desk_core.specs.declared.model.View.TheVariants.{Holder};
ghost use Rattle.desk_core.specs.Layout.{lock_at};
ghost use Rattle.desk_core.specs.Pen.{after_change, after_hand_out, book_in_hand};
ghost use Rattle.announce_board.specs.Slots.{out};
ghost use Rattle.announce_board.specs.Steps.{pen_at};
ghost use Rattle.announce_board.specs.Tokens.{IsLeadOf};
ghost use Rattle.announce_board.specs.Waking.{IsMaskOf};

use crate::applying::take_back;
use crate::boxed_book::BoxedBook;
use crate::desk::Desk;
use crate::laws::law_steps_are_allowed;
use crate::locking::drop_slot;
use crate::rule::{Board, BoardSeat, ChangeList, HandOut, Slot};
use crate::tokens::{Lead, Pen};
use crate::words::LOCK;
use leftist_heap::Store;
use pq_book::Entry;
use pq_types::Part;
use wait_list::Wants;

// The step by which others wait at the Book than before: it lies in its slot, as it is then, while the lock is loaded.
fn keep_changed<S: Store<Entry<P>>, P: Part>(
    board: &Board<S, P>,
    seat: &mut BoardSeat<S, P>,
    book: BoxedBook<S, P>,
) -> BoxedBook<S, P>
    requires here { seat.old.table_id ≡ board.now.table_id }
    requires is { seat.old.me.0 ≡ Holder (pen_at seat.old.me) }
    requires lock { lock_at < board.now.table_id.words }
    requires slot { seat.old.me.1 ≡ (0, out) ∷ [] }
    requires leads { (pen_at seat.old.me).leading ≡ true }
    requires changed { (change : Change) × (book ≡ book_in_hand (after_change (pen_at seat.old.me) change)) }
    ensures table { seat.new.table_id ≡ seat.old.table_id }
    ensures book { result ≡ book }
    ensures after { (change : Change) → book ≡ book_in_hand (after_change (pen_at seat.old.me) change)
        → seat.new.me ≡ (Holder (after_change (pen_at seat.old.me) change), (0, out) ∷ []) }
{
    law_steps_are_allowed::<S, P>();
    drop_slot(board.exchange(seat, 0, Slot::with(book)));
    board.load::<ChangeList>(seat, LOCK);
    take_back(board, seat)
}

// Has one with this number wait for this at the Book.
fn keep_wait<S: Store<Entry<P>>, P: Part>(
    board: &Board<S, P>,
    seat: &mut BoardSeat<S, P>,
    book: BoxedBook<S, P>,
    number: u8,
    wants: Wants,
) -> BoxedBook<S, P>
    requires here { seat.old.table_id ≡ board.now.table_id }
    requires is { seat.old.me.0 ≡ Holder (pen_at seat.old.me) }
    requires lock { lock_at < board.now.table_id.words }
    requires slot { seat.old.me.1 ≡ (0, out) ∷ [] }
    requires leads { (pen_at seat.old.me).leading ≡ true }
    requires book { book ≡ book_in_hand (pen_at seat.old.me) }
    requires below { number < 64 }
    requires apart { has_number number (pen_at seat.old.me).waiters ≡ false }
    ensures table { seat.new.table_id ≡ seat.old.table_id }
    ensures book { result ≡ book_in_hand (after_change (pen_at seat.old.me) (Waits number wants)) }
    ensures after { seat.new.me ≡ (Holder (after_change (pen_at seat.old.me) (Waits number wants)), (0, out) ∷ []) }
{
    let mut book = book;
    book.boxed.wait(number, wants);
    keep_changed(board, seat, book)
}

// Takes the one with this number out, where there is one: whether it was woken.
fn keep_leave<S: Store<Entry<P>>, P: Part>(
    board: &Board<S, P>,
    seat: &mut BoardSeat<S, P>,
    book: BoxedBook<S, P>,
    number: u8,
) -> (BoxedBook<S, P>, bool)
    requires here { seat.old.table_id ≡ board.now.table_id }
    requires is { seat.old.me.0 ≡ Holder (pen_at seat.old.me) }
    requires lock { lock_at < board.now.table_id.words }
    requires slot { seat.old.me.1 ≡ (0, out) ∷ [] }
    requires leads { (pen_at seat.old.me).leading ≡ true }
    requires book { book ≡ book_in_hand (pen_at seat.old.me) }
    ensures table { seat.new.table_id ≡ seat.old.table_id }
    ensures book { result.0 ≡ book_in_hand (after_change (pen_at seat.old.me) (Leaves number)) }
    ensures was_woken { result.1 ≡ is_woken_at number (pen_at seat.old.me).waiters }
    ensures gone { has_number number (without number (pen_at seat.old.me).waiters) ≡ false }
    ensures after { seat.new.me ≡ (Holder (after_change (pen_at seat.old.me) (Leaves number)), (0, out) ∷ []) }
{
    let mut book = book;
    let was_woken = book.boxed.leave(number);
    (keep_changed(board, seat, book), was_woken)
}

// Takes those of the mask out.
fn keep_leave_all<S: Store<Entry<P>>, P: Part>(
    board: &Board<S, P>,
    seat: &mut BoardSeat<S, P>,
    book: BoxedBook<S, P>,
    mask: u64,
) -> BoxedBook<S, P>
    requires here { seat.old.table_id ≡ board.now.table_id }
    requires is { seat.old.me.0 ≡ Holder (pen_at seat.old.me) }
    requires lock { lock_at < board.now.table_id.words }
    requires slot { seat.old.me.1 ≡ (0, out) ∷ [] }
    requires leads { (pen_at seat.old.me).leading ≡ true }
    requires book { book ≡ book_in_hand (pen_at seat.old.me) }
    ensures table { seat.new.table_id ≡ seat.old.table_id }
    ensures book { result ≡ book_in_hand (after_change (pen_at seat.old.me) (AllLeave mask)) }
    ensures after { seat.new.me ≡ (Holder (after_change (pen_at seat.old.me) (AllLeave mask)), (0, out) ∷ []) }
{
    let mut book = book;
    book.boxed.leave_all(mask);
    keep_changed(board, seat, book)
}

// The step by which the pen owes nobody a wake from then on.
fn owe_nobody<S: Store<Entry<P>>, P: Part>(board: &Board<S, P>, seat: &mut BoardSeat<S, P>)
    requires here { seat.old.table_id ≡ board.now.table_id }
    requires is { seat.old.me.0 ≡ Holder (pen_at seat.old.me) }
    requires lock { lock_at < board.now.table_id.words }
    ensures table { seat.new.table_id ≡ seat.old.table_id }
    ensures after { seat.new.me ≡ (Holder (after_hand_out (pen_at seat.old.me)), seat.old.me.1) }
{
    law_steps_are_allowed::<S, P>();
    board.load::<HandOut>(seat, LOCK);
}

impl<S: Store<Entry<P>>, P: Part> Desk<S, P> {
    /// The pen hands out the numbers of those whom its releases have woken, in one step, as the bits of a mask: from now on it
    /// owes nobody a wake, and all else is as it was. The caller wakes them.
    pub fn take_wakes(&self, pen: &mut Pen<S, P>) -> u64
        requires table { pen.old.table ≡ self.now.table }
        ensures wakes { IsMaskOf result pen.old.state.owed }
        ensures after { pen.new ≡ record pen.old { state = after_hand_out pen.old.state } }
    {
        owe_nobody(&self.table.shared, &mut pen.seat);
        let wakes = pen.wakes;
        pen.wakes = 0;
        wakes
    }

    /// One with this number, which nobody in the list has, waits for this from now on at the Book of the lead, behind all others.
    /// In one step.
    pub fn wait(
        &self,
        pen: &mut Pen<S, P>,
        lead: Lead<S, P>,
        number: u8,
        wants: Wants,
    ) -> Lead<S, P>
        requires table { pen.old.table ≡ self.now.table }
        requires lead { IsLeadOf pen.old lead }
        requires below { number < 64 }
        requires apart { has_number number pen.old.state.waiters ≡ false }
        ensures lead { IsLeadOf pen.new result }
        ensures after { pen.new ≡ record pen.old { state = after_change pen.old.state (Waits number wants) } }
    {
        let Lead { book, seat } = lead;
        let book = keep_wait(&self.table.shared, &mut pen.seat, book, number, wants);
        Lead { book, seat }
    }

    /// The one with this number comes back, or gives up, where there is one: it is in the list no more. The flag says whether it
    /// was woken. In one step.
    pub fn leave(&self, pen: &mut Pen<S, P>, lead: Lead<S, P>, number: u8) -> (Lead<S, P>, bool)
        requires table { pen.old.table ≡ self.now.table }
        requires lead { IsLeadOf pen.old lead }
        ensures lead { IsLeadOf pen.new result.0 }
        ensures was_woken { result.1 ≡ is_woken_at number pen.old.state.waiters }
        ensures gone { has_number number pen.new.state.waiters ≡ false }
        ensures after { pen.new ≡ record pen.old { state = after_change pen.old.state (Leaves number) } }
    {
        let Lead { book, seat } = lead;
        let (book, was_woken) = keep_leave(&self.table.shared, &mut pen.seat, book, number);
        (Lead { book, seat }, was_woken)
    }

    /// Those whose bits are set in the mask come back, or give up. In one step.
    pub fn leave_all(&self, pen: &mut Pen<S, P>, lead: Lead<S, P>, mask: u64) -> Lead<S, P>
        requires table { pen.old.table ≡ self.now.table }
        requires lead { IsLeadOf pen.old lead }
        ensures lead { IsLeadOf pen.new result }
        ensures after { pen.new ≡ record pen.old { state = after_change pen.old.state (AllLeave mask) } }
    {
        let Lead { book, seat } = lead;
        let book = keep_leave_all(&self.table.shared, &mut pen.seat, book, mask);
        Lead { book, seat }
    }
}
