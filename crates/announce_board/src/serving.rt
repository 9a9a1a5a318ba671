// The atomic steps of a pen that leads: it reads the mail and the item of a place, lays the item of
// an answer, and stores the answer.
ghost use Rattle.std.specs.Prelude.{◌≡◌, ◌≢◌, ℕ, ◌+◌, ◌<◌, true, length, Some, None};
ghost use Rattle.pq_types.specs.declared.control.Kind.TheVariants as kind;
ghost use Rattle.pq_types.specs.Control.{kind_has_item, answer_item};
ghost use Rattle.pq_types.specs.Mail.{IsProperAnswerOf};
ghost use Rattle.pq_types.specs.History.{left, MayAnswer};
ghost use Rattle.pq_book.specs.Book.{AllHaveRoom, limits_of};
ghost use Rattle.desk_core.specs.declared.model.Due.{Due};
ghost use Rattle.desk_core.specs.Pen.{after_answer, book_in_hand, limits_in_hand};
ghost use Rattle.desk_core.specs.Words.{word_number};
ghost use Rattle.announce_board.specs.Steps.{pen_at, Becomes};
ghost use Rattle.announce_board.specs.ItemWords.{laid_by};
ghost use Rattle.announce_board.specs.Loads.{LoadsMail, LoadsCell};
ghost use Rattle.announce_board.specs.Tokens.{StaysSeated};
ghost use Rattle.announce_board.specs.Serving.{IsServing, IsDueFor, Finds, ServesWhereBy};
ghost use Rattle.announce_board.specs.Serving.{ServesOtherThanBy, due_of, laid_and_answered_by};

use crate::item_words::{lay_words, no_item, read_words};
use crate::laws::{law_steps_are_allowed, law_steps_tell};
use crate::rule::{Board, BoardSeat, ReadMail, StoreAnswer};
use crate::words::{control_index, post_in_word};
use leftist_heap::Store;
use pq_book::{Book, Entry};
use pq_types::{Answer, Control, Item, Kind, Part, Reply, Request};
use std::alloc::Global;

/// Loads the control of a place: the serial and kind of the post, where it is one.
pub fn load_mail<S: Store<Entry<P>>, P: Part>(
    board: &Board<S, P>,
    seat: &mut BoardSeat<S, P>,
    place: u16,
) -> Option<(u64, Kind)>
    requires here { seat.old.table_id ≡ board.now.table_id }
    requires pen { IsServing board.now.table_id board.now.key.places seat.old.me place }
    ensures table { seat.new.table_id ≡ seat.old.table_id }
    ensures loads { LoadsMail place seat.old.me result seat.new.me }
{
    law_steps_are_allowed::<S, P>();
    post_in_word(board.load::<ReadMail>(seat, control_index(place)))
}

/// Loads the item of the push that is due at this place.
pub fn load_cell<S: Store<Entry<P>>, P: Part>(
    board: &Board<S, P>,
    seat: &mut BoardSeat<S, P>,
    place: u16,
) -> Item<P>
    requires here { seat.old.table_id ≡ board.now.table_id }
    requires pen { IsServing board.now.table_id board.now.key.places seat.old.me place }
    requires due { (due : Due) × ((pen_at seat.old.me).due ≡ Some due) × (due.place ≡ place) × (due.kind ≡ kind.Push) }
    ensures table { seat.new.table_id ≡ seat.old.table_id }
    ensures loads { LoadsCell (word_number P.wide) seat.old.me result seat.new.me }
{
    let (priority, value) = read_words(board, seat, place);
    Item::of_parts(priority, value)
}

/// Stores the item of an answer at the pop or least that is due at this place.
pub fn store_laid_item<S: Store<Entry<P>>, P: Part>(
    board: &Board<S, P>,
    seat: &mut BoardSeat<S, P>,
    place: u16,
    item: Item<P>,
)
    requires here { seat.old.table_id ≡ board.now.table_id }
    requires pen { IsServing board.now.table_id board.now.key.places seat.old.me place }
    requires due { (due : Due) × ((pen_at seat.old.me).due ≡ Some due) × (due.place ≡ place) × (due.kind ≢ kind.Push) }
    ensures table { seat.new.table_id ≡ seat.old.table_id }
    ensures after { (due : Due) → (pen_at seat.old.me).due ≡ Some due
        → Becomes seat.old.me (laid_by (word_number P.wide) (pen_at seat.old.me) due item) seat.new.me }
{
    let (priority, value) = item.parts();
    lay_words(board, seat, place, priority, value);
}

/// Stores the control of this answer to the request that is due at this place.
pub fn store_answer<S: Store<Entry<P>>, P: Part>(
    board: &Board<S, P>,
    seat: &mut BoardSeat<S, P>,
    place: u16,
    request: Request<Item<P>>,
    answer: Answer<Item<P>>,
)
    requires here { seat.old.table_id ≡ board.now.table_id }
    requires pen { IsServing board.now.table_id board.now.key.places seat.old.me place }
    requires proper { IsProperAnswerOf P.wide answer }
    requires due { (due : Due) × IsDueFor (pen_at seat.old.me) place request answer due }
    requires may { MayAnswer (limits_in_hand (pen_at seat.old.me)) (pen_at seat.old.me).hand request answer }
    requires memory { AllHaveRoom S.room (pen_at seat.old.me).room → answer ≢ Answer.NoMemory }
    ensures table { seat.new.table_id ≡ seat.old.table_id }
    ensures after { (due : Due) → IsDueFor (pen_at seat.old.me) place request answer due
        → Becomes seat.old.me (after_answer (pen_at seat.old.me) due request answer) seat.new.me }
{
    law_steps_are_allowed::<S, P>();
    let control = Control::Answered(answer.notice());
    board.store::<StoreAnswer>(seat, control_index(place), control.word());
}

/// Reads the request that stands posted at a place, if there is one: its serial, and the request,
/// of a push with its item.
pub fn read_request<S: Store<Entry<P>>, P: Part>(
    board: &Board<S, P>,
    seat: &mut BoardSeat<S, P>,
    place: u16,
) -> Option<(u64, Request<Item<P>>)>
    requires here { seat.old.table_id ≡ board.now.table_id }
    requires pen { IsServing board.now.table_id board.now.key.places seat.old.me place }
    ensures table { seat.new.table_id ≡ seat.old.table_id }
    ensures stays { StaysSeated seat.old.me seat.new.me }
    ensures finds { Finds (word_number P.wide) place (pen_at seat.old.me) result (pen_at seat.new.me) }
{
    law_steps_tell();
    let Some((serial, kind)) = load_mail(board, seat, place) else {
        return None;
    };
    if !is_push(kind) {
        return Some((serial, kind.with_item(no_item())));
    }
    let item = load_cell(board, seat, place);
    Some((serial, Request::Push(item)))
}

fn is_push(kind: Kind) -> bool
    ensures { result ≡ kind_has_item kind }
{
    match kind {
        Kind::Push => true,
        Kind::Pop => false,
        Kind::Least => false,
    }
}

/// Lays the item of this answer, if there is one, and stores the answer then.
pub fn give_answer<S: Store<Entry<P>>, P: Part>(
    board: &Board<S, P>,
    seat: &mut BoardSeat<S, P>,
    place: u16,
    request: Request<Item<P>>,
    answer: Answer<Item<P>>,
)
    requires here { seat.old.table_id ≡ board.now.table_id }
    requires pen { IsServing board.now.table_id board.now.key.places seat.old.me place }
    requires proper { IsProperAnswerOf P.wide answer }
    requires due { (serial : ℕ) × ((pen_at seat.old.me).due ≡ Some (due_of place serial request)) }
    requires may { MayAnswer (limits_in_hand (pen_at seat.old.me)) (pen_at seat.old.me).hand request answer }
    requires memory { AllHaveRoom S.room (pen_at seat.old.me).room → answer ≢ Answer.NoMemory }
    ensures table { seat.new.table_id ≡ seat.old.table_id }
    ensures after { (serial : ℕ) → (pen_at seat.old.me).due ≡ Some (due_of place serial request)
        → Becomes seat.old.me
        (laid_and_answered_by (word_number P.wide) (answer_item answer) (pen_at seat.old.me)
        (due_of place serial request) request answer) seat.new.me }
{
    let told = answer;
    let Some(item) = item_of(told) else {
        store_answer(board, seat, place, request, answer);
        return;
    };
    store_laid_item(board, seat, place, item);
    store_answer(board, seat, place, request, answer);
}

fn item_of<P: Part>(answer: Answer<Item<P>>) -> Option<Item<P>>
    ensures { result ≡ answer_item answer }
{
    match answer {
        Answer::Entered(_, reply) => match reply {
            Reply::Got(item) => Some(item),
            Reply::Least(item) => Some(item),
            _ => None,
        },
        _ => None,
    }
}

/// Serves a place: reads the request that stands posted there, has the Book carry it out, and
/// stores the answer. Whether there was one.
pub fn serve_place<S: Store<Entry<P>>, P: Part>(
    board: &Board<S, P>,
    seat: &mut BoardSeat<S, P>,
    place: u16,
    book: &mut Book<S, Global, P>,
) -> bool
    requires here { seat.old.table_id ≡ board.now.table_id }
    requires pen { IsServing board.now.table_id board.now.key.places seat.old.me place }
    requires book { book.old ≡ book_in_hand (pen_at seat.old.me) }
    ensures table { seat.new.table_id ≡ seat.old.table_id }
    ensures stays { StaysSeated seat.old.me seat.new.me }
    ensures serves { ServesWhereBy (word_number P.wide) result place (pen_at seat.old.me) (pen_at seat.new.me) book.new }
    ensures memory { AllHaveRoom S.room (pen_at seat.old.me).room
        → ServesOtherThanBy (word_number P.wide) Answer.NoMemory place (pen_at seat.old.me) (pen_at seat.new.me) book.new }
    ensures spare { AllHaveRoom S.room (length (left (pen_at seat.old.me).hand) + 1)
        → ServesOtherThanBy (word_number P.wide) Answer.NoMemory place (pen_at seat.old.me) (pen_at seat.new.me) book.new }
    ensures hand { book.new ≡ book_in_hand (pen_at seat.new.me) }
    ensures limits { limits_of book.new ≡ limits_of book.old }
{
    law_steps_tell();
    let Some((serial, request)) = read_request(board, seat, place) else {
        return false;
    };
    let asked = request;
    let answer = book.apply(place, serial, asked);
    give_answer(board, seat, place, request, answer);
    true
}
