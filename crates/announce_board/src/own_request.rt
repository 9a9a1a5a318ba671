// How a leader releases with a request of its own: it posts nothing, and its line is in the Book that
// goes home.
ghost use Rattle.std.specs.Prelude.{◌≡◌, ◌≢◌, ℕ, ◌+◌, ◌<◌, ◌≤◌, true, [], ◌∷◌, length, None};
ghost use Rattle.pq_types.specs.Asked.{Reply};
ghost use Rattle.pq_types.specs.declared.answer.Answer.TheVariants.{Entered};
ghost use Rattle.pq_types.specs.declared.journal.TheConstants.{GREATEST_NUMBER};
ghost use Rattle.pq_types.specs.History.{left, MayAnswer};
ghost use Rattle.pq_types.specs.Operation.{Asked};
ghost use Rattle.pq_book.specs.Book.{AllHaveRoom};
ghost use Rattle.desk_core.specs.declared.model.View.TheVariants.{Holder};
ghost use Rattle.desk_core.specs.Knows.{NoneAbove};
ghost use Rattle.desk_core.specs.Layout.{lock_at};
ghost use Rattle.desk_core.specs.Pen.{IsIdle, after_release_with, book_in_hand, limits_in_hand, newly_woken};
ghost use Rattle.announce_board.specs.Asking.{IsAnswerTo, IsAboveAll, IsFullFor};
ghost use Rattle.announce_board.specs.Slots.{out};
ghost use Rattle.announce_board.specs.Waking.{IsMaskOf};
ghost use Rattle.announce_board.specs.Steps.{pen_at, book_by};
ghost use Rattle.announce_board.specs.Tokens.{IsLeadOf, is_idle};

use crate::boxed_book::BoxedBook;
use crate::desk::Desk;
use crate::laws::law_steps_are_allowed;
use crate::locking::drop_slot;
use crate::rule::{Board, BoardSeat, ReleaseWith, Slot};
use crate::tokens::{Lead, Pen};
use crate::words::LOCK;
use desk_core::laws::law_calls_are_lines;
use leftist_heap::Store;
use pq_book::Entry;
use pq_types::laws::law_request_is_proper;
use pq_types::{Answer, Item, Part, Request};

/// Has the Book carry out a request of the pen's own, puts it into its slot, and frees the lock
/// then.
#[inline(always)]
fn put_home_with<S: Store<Entry<P>>, P: Part>(
    board: &Board<S, P>,
    seat: &mut BoardSeat<S, P>,
    place: u16,
    serial: u64,
    book: BoxedBook<S, P>,
    request: Request<Item<P>>,
) -> (Answer<Item<P>>, u64)
    requires here { seat.old.table_id ≡ board.now.table_id }
    requires is { seat.old.me.0 ≡ Holder (pen_at seat.old.me) }
    requires lock { lock_at < board.now.table_id.words }
    requires slot { seat.old.me.1 ≡ (0, out) ∷ [] }
    requires leads { (pen_at seat.old.me).leading ≡ true }
    requires due { (pen_at seat.old.me).due ≡ None }
    requires idle { IsIdle (pen_at seat.old.me).standing }
    requires place { place ≡ (pen_at seat.old.me).place }
    requires serial { serial ≡ (pen_at seat.old.me).posts + 1 }
    requires few { serial ≤ GREATEST_NUMBER }
    requires used { NoneAbove (pen_at seat.old.me).place (pen_at seat.old.me).posts (pen_at seat.old.me).hand }
    requires book { book ≡ book_in_hand (pen_at seat.old.me) }
    ensures table { seat.new.table_id ≡ seat.old.table_id }
    ensures may { MayAnswer (limits_in_hand (pen_at seat.old.me)) (pen_at seat.old.me).hand request result.0 }
    ensures answers { IsAnswerTo (pen_at seat.old.me).room request result.0 }
    ensures behind { (number : ℕ) (reply : Reply) → result.0 ≡ Entered number reply → IsAboveAll number (pen_at seat.old.me).mine }
    ensures full { result.0 ≡ Answer.BookFull → IsFullFor (pen_at seat.new.me) }
    ensures barred { IsFullFor (pen_at seat.old.me) → (number : ℕ) (reply : Reply) → result.0 ≢ Entered number reply }
    ensures memory { AllHaveRoom S.room (pen_at seat.old.me).room → result.0 ≢ Answer.NoMemory }
    ensures spare { AllHaveRoom S.room (length (left (pen_at seat.old.me).hand) + 1) → result.0 ≢ Answer.NoMemory }
    ensures wakes { IsMaskOf result.1 (newly_woken (book_by (pen_at seat.old.me) (Asked request) result.0)) }
    ensures after { (now : ℕ) × (seat.new.me ≡ (Holder (after_release_with (pen_at seat.old.me) request result.0 now), [])) }
{
    law_steps_are_allowed::<S, P>();
    law_calls_are_lines();
    law_request_is_proper(&request);
    let mut book = book;
    let answer = book.boxed.apply(place, serial, request);
    let (book, wakes) = book.settled();
    drop_slot(board.exchange(seat, 0, Slot::with(book)));
    board.store::<ReleaseWith>(seat, LOCK, 0);
    (answer, wakes)
}

impl<S: Store<Entry<P>>, P: Part> Desk<S, P> {
    /// The idle leader, to which nothing is due, has the Book carry out a request of its own, puts
    /// the Book home and then frees the lock, in one step. A line that is entered is behind those of
    /// the pen's calls before. BookFull is answered where the journal is full, and whoever was told so is
    /// entered no more. Over stores that all have room for as many items as the journal has lines, the
    /// answer is never NoMemory; nor is it while they all have room for one item more than the journal in
    /// hand leaves.
    #[inline(always)]
    pub fn release_with(
        &self,
        pen: &mut Pen<S, P>,
        lead: Lead<S, P>,
        request: Request<Item<P>>,
    ) -> Answer<Item<P>>
        requires table { pen.old.table ≡ self.now.table }
        requires lead { IsLeadOf pen.old lead }
        requires due { pen.old.state.due ≡ None }
        requires idle { is_idle pen.old.state.standing ≡ true }
        requires few { pen.old.state.posts < GREATEST_NUMBER }
        ensures may { MayAnswer (limits_in_hand pen.old.state) pen.old.state.hand request result }
        ensures answers { IsAnswerTo pen.old.state.room request result }
        ensures behind { (number : ℕ) (reply : Reply) → result ≡ Entered number reply → IsAboveAll number pen.old.state.mine }
        ensures full { result ≡ Answer.BookFull → IsFullFor pen.new.state }
        ensures barred { IsFullFor pen.old.state → (number : ℕ) (reply : Reply) → result ≢ Entered number reply }
        ensures memory { AllHaveRoom S.room pen.old.state.room → result ≢ Answer.NoMemory }
        ensures spare { AllHaveRoom S.room (length (left pen.old.state.hand) + 1) → result ≢ Answer.NoMemory }
        ensures after { (now : ℕ) × (pen.new ≡ record pen.old { state = after_release_with pen.old.state request result now }) }
    {
        let serial = pen.posts + 1;
        let book = lead.into_boxed();
        let (answer, wakes) = put_home_with(
            &self.table.shared,
            &mut pen.seat,
            pen.place,
            serial,
            book,
            request,
        );
        pen.posts = serial;
        pen.wakes |= wakes;
        answer
    }
}
