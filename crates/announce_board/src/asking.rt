// The atomic steps of a pen that asks: it drafts, posts, looks, and takes the item of its answer.
ghost use Rattle.std.specs.Prelude.{◌≡◌, ◌≢◌, ◌+◌, ◌≤◌, ℕ, true, Some, IfSome, IfNone};
ghost use Rattle.pq_types.specs.declared.journal.TheConstants.{GREATEST_NUMBER};
ghost use Rattle.pq_types.specs.Asked.{Request as RequestSeen};
ghost use Rattle.pq_types.specs.declared.control.Control.TheVariants.{Answered};
ghost use Rattle.pq_types.specs.Control.{notice_has_item};
ghost use Rattle.pq_book.specs.Book.{AllHaveRoom};
ghost use Rattle.desk_core.specs.Knows.{NoneAbove};
ghost use Rattle.desk_core.specs.Pen.{IsIdle, after_post};
ghost use Rattle.desk_core.specs.Words.{word_number};
ghost use Rattle.announce_board.specs.Steps.{pen_at, Becomes};
ghost use Rattle.announce_board.specs.Tokens.{IsAt, StaysSeated};
ghost use Rattle.announce_board.specs.Asking.{IsDrafted, Waits, LooksBy, asked_by};
ghost use Rattle.announce_board.specs.ItemWords.{drafted_by};
ghost use Rattle.announce_board.specs.Loads.{LoadsOwn, TakesOwn};

use crate::item_words::{draft_words, no_item, take_words};
use crate::laws::{law_steps_are_allowed, law_steps_tell};
use crate::rule::{Board, BoardSeat, Look, Post};
use crate::words::{control_index, has_item, notice_in_word};
use leftist_heap::Store;
use pq_book::Entry;
use pq_types::laws::law_request_is_proper;
use pq_types::{Answer, Control, Item, Notice, Part, Request};

/// Stores this item in the pen's own cell.
pub fn store_item<S: Store<Entry<P>>, P: Part>(
    board: &Board<S, P>,
    seat: &mut BoardSeat<S, P>,
    place: u16,
    item: Item<P>,
)
    requires here { seat.old.table_id ≡ board.now.table_id }
    requires pen { IsAt board.now.table_id seat.old.me place }
    requires idle { IsIdle (pen_at seat.old.me).standing }
    ensures table { seat.new.table_id ≡ seat.old.table_id }
    ensures after { Becomes seat.old.me (drafted_by (word_number P.wide) (pen_at seat.old.me) item) seat.new.me }
    ensures drafted { (request : RequestSeen) → request ≡ Request.Push item → IsDrafted (pen_at seat.new.me).standing request }
{
    let (priority, value) = item.parts();
    draft_words(board, seat, place, priority, value);
}

/// Stores the control of this request, as the post with this serial, at the pen's own place.
pub fn store_post<S: Store<Entry<P>>, P: Part>(
    board: &Board<S, P>,
    seat: &mut BoardSeat<S, P>,
    place: u16,
    serial: u64,
    request: Request<Item<P>>,
)
    requires here { seat.old.table_id ≡ board.now.table_id }
    requires pen { IsAt board.now.table_id seat.old.me place }
    requires serial { serial ≡ (pen_at seat.old.me).posts + 1 }
    requires few { serial ≤ GREATEST_NUMBER }
    requires drafted { IsDrafted (pen_at seat.old.me).standing request }
    ensures table { seat.new.table_id ≡ seat.old.table_id }
    ensures after { (now : ℕ) × Becomes seat.old.me (after_post (pen_at seat.old.me) request now) seat.new.me }
    ensures unknown { NoneAbove (pen_at seat.old.me).place (pen_at seat.old.me).posts (pen_at seat.old.me).known }
{
    law_steps_are_allowed::<S, P>();
    law_request_is_proper(&request);
    let control = Control::Posted(serial, request.kind());
    board.store::<Post>(seat, control_index(place), control.word());
}

/// Posts this request with this serial: the item of a push is stored first.
pub fn post_request<S: Store<Entry<P>>, P: Part>(
    board: &Board<S, P>,
    seat: &mut BoardSeat<S, P>,
    place: u16,
    serial: u64,
    request: Request<Item<P>>,
)
    requires here { seat.old.table_id ≡ board.now.table_id }
    requires pen { IsAt board.now.table_id seat.old.me place }
    requires serial { serial ≡ (pen_at seat.old.me).posts + 1 }
    requires few { serial ≤ GREATEST_NUMBER }
    requires idle { IsIdle (pen_at seat.old.me).standing }
    ensures table { seat.new.table_id ≡ seat.old.table_id }
    ensures after { (now : ℕ)
        × Becomes seat.old.me (asked_by (word_number P.wide) (pen_at seat.old.me) request now) seat.new.me }
    ensures unknown { NoneAbove (pen_at seat.old.me).place (pen_at seat.old.me).posts (pen_at seat.old.me).known }
{
    let asked = request;
    if let Request::Push(item) = asked {
        store_item(board, seat, place, item);
        store_post(board, seat, place, serial, request);
        return;
    }
    store_post(board, seat, place, serial, request);
}

/// Loads the control of the pen's own place: the notice of the answer, where it is one.
pub fn load_own<S: Store<Entry<P>>, P: Part>(
    board: &Board<S, P>,
    seat: &mut BoardSeat<S, P>,
    place: u16,
) -> Option<Notice>
    requires here { seat.old.table_id ≡ board.now.table_id }
    requires pen { IsAt board.now.table_id seat.old.me place }
    requires waits { Waits (pen_at seat.old.me).standing }
    ensures table { seat.new.table_id ≡ seat.old.table_id }
    ensures loads { LoadsOwn seat.old.me result seat.new.me }
    ensures memory { AllHaveRoom S.room (pen_at seat.old.me).room → result ≢ Some Notice.NoMemory }
{
    law_steps_are_allowed::<S, P>();
    notice_in_word(board.load::<Look>(seat, control_index(place)))
}

/// Loads the pen's own cell, once its control was seen as this answer with an item.
pub fn load_answered_item<S: Store<Entry<P>>, P: Part>(
    board: &Board<S, P>,
    seat: &mut BoardSeat<S, P>,
    place: u16,
    notice: Notice,
) -> Item<P>
    requires here { seat.old.table_id ≡ board.now.table_id }
    requires pen { IsAt board.now.table_id seat.old.me place }
    requires waits { Waits (pen_at seat.old.me).standing }
    requires own { (pen_at seat.old.me).own ≡ Answered notice }
    requires item { notice_has_item notice ≡ true }
    ensures table { seat.new.table_id ≡ seat.old.table_id }
    ensures takes { TakesOwn (word_number P.wide) notice seat.old.me result seat.new.me }
{
    let (priority, value) = take_words(board, seat, place, notice);
    Item::of_parts(priority, value)
}

/// Looks at the record of the pen's own place: at the control first, and then, where that is an
/// answer with an item, at the cell.
pub fn look_at_record<S: Store<Entry<P>>, P: Part>(
    board: &Board<S, P>,
    seat: &mut BoardSeat<S, P>,
    place: u16,
) -> Option<Answer<Item<P>>>
    requires here { seat.old.table_id ≡ board.now.table_id }
    requires pen { IsAt board.now.table_id seat.old.me place }
    requires waits { Waits (pen_at seat.old.me).standing }
    ensures table { seat.new.table_id ≡ seat.old.table_id }
    ensures stays { StaysSeated seat.old.me seat.new.me }
    ensures looks { LooksBy (word_number P.wide) (pen_at seat.old.me) result (pen_at seat.new.me) }
    ensures memory { AllHaveRoom S.room (pen_at seat.old.me).room → result ≢ Some Answer.NoMemory }
{
    law_steps_tell();
    let Some(notice) = load_own(board, seat, place) else {
        return None;
    };
    if !has_item(notice) {
        return Some(notice.with_item(no_item()));
    }
    let item = load_answered_item(board, seat, place, notice);
    Some(notice.with_item(item))
}
