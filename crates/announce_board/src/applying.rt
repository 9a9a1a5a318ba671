// How a leader applies requests of its own, and goes on leading: it posts nothing. Meanwhile the Book lies in its slot, and the
// leader uses it there.
ghost use Rattle.std.specs.Prelude.{◌≡◌, ◌≢◌, ℕ, ◌+◌, ◌<◌, [], ◌∷◌, length};
ghost use Rattle.pq_types.specs.Asked.{Reply};
ghost use Rattle.pq_types.specs.declared.answer.Answer.TheVariants.{Entered};
ghost use Rattle.pq_types.specs.declared.journal.TheConstants.{GREATEST_NUMBER};
ghost use Rattle.pq_types.specs.History.{left, MayAnswer};
ghost use Rattle.pq_book.specs.Book.{AllHaveRoom, Volume};
ghost use Rattle.leftist_heap.specs.Store.{first_of};
ghost use Rattle.desk_core.specs.Pen.{after_apply, book_in_hand, limits_in_hand};
ghost use Rattle.announce_board.specs.Asking.{IsAnswerTo, IsAboveAll, IsFullFor};
ghost use Rattle.announce_board.specs.Batches.{IsLent, is_first_due};
ghost use Rattle.announce_board.specs.Slots.{with_book, out};
ghost use Rattle.announce_board.specs.Steps.{pen_at};

use crate::boxed_book::BoxedBook;
use crate::laws::law_steps_are_allowed;
use crate::locking::drop_slot;
use crate::rule::{Apply, Board, BoardSeat, Slot};
use crate::words::LOCK;
use desk_core::laws::law_calls_are_lines;
use leftist_heap::Store;
use pq_book::Entry;
use pq_types::laws::law_request_is_proper;
use pq_types::{Answer, Item, Part, Request};

/// Puts the Book into the slot that the pen holds.
#[inline(always)]
pub fn lend<S: Store<Entry<P>>, P: Part>(
    board: &Board<S, P>,
    seat: &mut BoardSeat<S, P>,
    book: BoxedBook<S, P>,
)
    requires here { seat.old.table_id ≡ board.now.table_id }
    requires slot { seat.old.me.1 ≡ (0, out) ∷ [] }
    ensures table { seat.new.table_id ≡ seat.old.table_id }
    ensures after { seat.new.me ≡ (seat.old.me.0, (0, with_book book) ∷ []) }
{
    drop_slot(board.exchange(seat, 0, Slot::with(book)));
}

/// Takes the Book, which lies in the slot that the pen holds, out of it.
pub fn take_back<S: Store<Entry<P>>, P: Part>(
    board: &Board<S, P>,
    seat: &mut BoardSeat<S, P>,
) -> BoxedBook<S, P>
    requires here { seat.old.table_id ≡ board.now.table_id }
    requires slot { (book : Volume) × (seat.old.me.1 ≡ (0, with_book book) ∷ []) }
    ensures table { seat.new.table_id ≡ seat.old.table_id }
    ensures book { seat.old.me.1 ≡ (0, with_book result) ∷ [] }
    ensures after { seat.new.me ≡ (seat.old.me.0, (0, out) ∷ []) }
{
    match board.exchange(seat, 0, Slot::out()).into_inner() {
        Some(book) => book,
        None => unreachable!(),
    }
}

/// Has the Book, which lies in its slot, carry out a request of the pen's own, and goes on leading.
#[inline(always)]
pub fn apply_in_slot<S: Store<Entry<P>>, P: Part>(
    board: &Board<S, P>,
    seat: &mut BoardSeat<S, P>,
    place: u16,
    posts: u64,
    request: Request<Item<P>>,
) -> Answer<Item<P>>
    requires here { seat.old.table_id ≡ board.now.table_id }
    requires lent { IsLent board.now.table_id place posts seat.old.me }
    requires few { posts < GREATEST_NUMBER }
    ensures table { seat.new.table_id ≡ seat.old.table_id }
    ensures lent { IsLent board.now.table_id place (posts + 1) seat.new.me }
    ensures may { MayAnswer (limits_in_hand (pen_at seat.old.me)) (pen_at seat.old.me).hand request result }
    ensures answers { IsAnswerTo (pen_at seat.old.me).room request result }
    ensures behind { (number : ℕ) (reply : Reply) → result ≡ Entered number reply → IsAboveAll number (pen_at seat.old.me).mine }
    ensures barred { IsFullFor (pen_at seat.old.me) → (number : ℕ) (reply : Reply) → result ≢ Entered number reply }
    ensures memory { AllHaveRoom S.room (pen_at seat.old.me).room → result ≢ Answer.NoMemory }
    ensures spare { AllHaveRoom S.room (length (left (pen_at seat.old.me).hand) + 1) → result ≢ Answer.NoMemory }
    ensures after { (now : ℕ) × (pen_at seat.new.me ≡ after_apply (pen_at seat.old.me) request result now) }
{
    law_steps_are_allowed::<S, P>();
    law_calls_are_lines();
    law_request_is_proper(&request);
    let slot = seat.slot_mut(board, 0);
    let answer = slot.carry_out(place, posts + 1, request);
    board.load::<Apply>(seat, LOCK);
    answer
}

/// Whether the Book, which lies in its slot, has a first item, and the priority of that is at most this one. No step is made.
#[inline(always)]
pub fn is_due_in_slot<S: Store<Entry<P>>, P: Part>(
    board: &Board<S, P>,
    seat: &mut BoardSeat<S, P>,
    priority: P,
) -> bool
    requires here { seat.old.table_id ≡ board.now.table_id }
    requires slot { seat.old.me.1 ≡ (0, with_book (book_in_hand (pen_at seat.old.me))) ∷ [] }
    ensures table { seat.new.table_id ≡ seat.old.table_id }
    ensures same { seat.new.me ≡ seat.old.me }
    ensures due { result ≡ is_first_due (P.number priority) (first_of (left (pen_at seat.old.me).hand)) }
{
    let slot = seat.slot_mut(board, 0);
    is_due(slot.first(), priority)
}

// Whether there is a first item, and its priority is at most this one.
#[inline(always)]
fn is_due<P: Part>(first: Option<Item<P>>, priority: P) -> bool
    ensures { result ≡ is_first_due (P.number priority) first }
{
    match first {
        None => false,
        Some(item) => item.priority.as_u64() <= priority.as_u64(),
    }
}
