// The words of an item's cell, one or two, each stored or loaded in a step of its own.
ghost use Rattle.std.specs.Prelude.{◌≡◌, ◌≢◌, ◌<◌, true, false, Some};
ghost use Rattle.pq_types.specs.Asked.{Request};
ghost use Rattle.pq_types.specs.declared.control.Kind.TheVariants as kind;
ghost use Rattle.pq_types.specs.declared.control.Control.TheVariants.{Answered};
ghost use Rattle.pq_types.specs.Item.{item, IsItemOf};
ghost use Rattle.pq_types.specs.Control.{notice_has_item};
ghost use Rattle.desk_core.specs.declared.model.Due.{Due};
ghost use Rattle.desk_core.specs.declared.model.Standing.TheVariants.{Waiting};
ghost use Rattle.desk_core.specs.Pen.{IsIdle};
ghost use Rattle.desk_core.specs.Words.{word_number, word_of};
ghost use Rattle.announce_board.specs.Steps.{pen_at, Becomes, WordDrafted, WordLaid, CellRead, WordSeen, Taken};
ghost use Rattle.announce_board.specs.Tokens.{IsAt};
ghost use Rattle.announce_board.specs.Asking.{Waits};
ghost use Rattle.announce_board.specs.Serving.{IsServing};
ghost use Rattle.announce_board.specs.ItemWords.{drafted_by, laid_by};
ghost use Rattle.announce_board.specs.Loads.{LoadsCell, TakesOwn};

use crate::laws::{law_cells_stand, law_steps_are_allowed};
use crate::rule::{Board, BoardSeat, Draft, LayItem, ReadItem, SeeItem, TakeItem};
use crate::words::item_index;
use desk_core::laws::law_words_show_the_desk;
use leftist_heap::Store;
use pq_book::Entry;
use pq_types::{Item, Notice, Part};

// The first word of an item of these parts: both, where it is narrow, else the priority.
fn first_word<P: Part>(priority: u64, value: u64) -> u64
    requires { IsItemOf P.wide (item priority value) }
    ensures { result ≡ word_of P.wide 0 (item priority value) }
{
    if P::is_wide() {
        priority
    } else {
        priority * 4_294_967_296 + value
    }
}

/// What stands for the item of a request or an answer that has none.
pub fn no_item<P: Part>() -> Item<P>
    ensures { result ≡ item 0 0 }
{
    Item::of_parts(0, 0)
}

// The parts of a narrow item of this word.
fn halves(word: u64) -> (u64, u64)
    ensures word { word_of false 0 (item result.0 result.1) ≡ word }
    ensures fits { IsItemOf false (item result.0 result.1) }
{
    (word / 4_294_967_296, word % 4_294_967_296)
}

fn draft_first<S: Store<Entry<P>>, P: Part>(
    board: &Board<S, P>,
    seat: &mut BoardSeat<S, P>,
    place: u16,
    priority: u64,
    value: u64,
)
    requires here { seat.old.table_id ≡ board.now.table_id }
    requires pen { IsAt board.now.table_id seat.old.me place }
    requires idle { IsIdle (pen_at seat.old.me).standing }
    requires fits { IsItemOf P.wide (item priority value) }
    ensures table { seat.new.table_id ≡ seat.old.table_id }
    ensures drafted { WordDrafted P.wide 0 (item priority value) seat.old.me seat.new.me }
{
    law_steps_are_allowed::<S, P>();
    board.store::<Draft<P>>(seat, item_index(place), first_word::<P>(priority, value));
}

fn draft_second<S: Store<Entry<P>>, P: Part>(
    board: &Board<S, P>,
    seat: &mut BoardSeat<S, P>,
    place: u16,
    priority: u64,
    value: u64,
)
    requires here { seat.old.table_id ≡ board.now.table_id }
    requires pen { IsAt board.now.table_id seat.old.me place }
    requires idle { IsIdle (pen_at seat.old.me).standing }
    requires fits { IsItemOf P.wide (item priority value) }
    requires wide { P.wide ≡ true }
    ensures table { seat.new.table_id ≡ seat.old.table_id }
    ensures drafted { WordDrafted P.wide 1 (item priority value) seat.old.me seat.new.me }
{
    law_steps_are_allowed::<S, P>();
    board.store::<Draft<P>>(seat, item_index(place) + 1, value);
}

/// Stores the item of these parts in the pen's own cell, a step for each word.
pub fn draft_words<S: Store<Entry<P>>, P: Part>(
    board: &Board<S, P>,
    seat: &mut BoardSeat<S, P>,
    place: u16,
    priority: u64,
    value: u64,
)
    requires here { seat.old.table_id ≡ board.now.table_id }
    requires pen { IsAt board.now.table_id seat.old.me place }
    requires idle { IsIdle (pen_at seat.old.me).standing }
    requires fits { IsItemOf P.wide (item priority value) }
    ensures table { seat.new.table_id ≡ seat.old.table_id }
    ensures after { Becomes seat.old.me (drafted_by (word_number P.wide) (pen_at seat.old.me) (item priority value)) seat.new.me }
{
    law_cells_stand();
    draft_first(board, seat, place, priority, value);
    if !P::is_wide() {
        return;
    }
    draft_second(board, seat, place, priority, value);
}

fn read_first<S: Store<Entry<P>>, P: Part>(
    board: &Board<S, P>,
    seat: &mut BoardSeat<S, P>,
    place: u16,
) -> u64
    requires here { seat.old.table_id ≡ board.now.table_id }
    requires pen { IsServing board.now.table_id board.now.key.places seat.old.me place }
    requires due { (due : Due) × ((pen_at seat.old.me).due ≡ Some due) × (due.place ≡ place) × (due.kind ≡ kind.Push) }
    ensures table { seat.new.table_id ≡ seat.old.table_id }
    ensures read { (due : Due) → (pen_at seat.old.me).due ≡ Some due → CellRead P.wide 0 due seat.old.me result seat.new.me }
{
    law_steps_are_allowed::<S, P>();
    board.load::<ReadItem<P>>(seat, item_index(place))
}

fn read_second<S: Store<Entry<P>>, P: Part>(
    board: &Board<S, P>,
    seat: &mut BoardSeat<S, P>,
    place: u16,
) -> u64
    requires here { seat.old.table_id ≡ board.now.table_id }
    requires pen { IsServing board.now.table_id board.now.key.places seat.old.me place }
    requires due { (due : Due) × ((pen_at seat.old.me).due ≡ Some due) × (due.place ≡ place) × (due.kind ≡ kind.Push) }
    requires wide { P.wide ≡ true }
    ensures table { seat.new.table_id ≡ seat.old.table_id }
    ensures read { (due : Due) → (pen_at seat.old.me).due ≡ Some due → CellRead P.wide 1 due seat.old.me result seat.new.me }
{
    law_steps_are_allowed::<S, P>();
    board.load::<ReadItem<P>>(seat, item_index(place) + 1)
}

/// Loads the parts of the item of the push that is due at this place, a step for each word.
pub fn read_words<S: Store<Entry<P>>, P: Part>(
    board: &Board<S, P>,
    seat: &mut BoardSeat<S, P>,
    place: u16,
) -> (u64, u64)
    requires here { seat.old.table_id ≡ board.now.table_id }
    requires pen { IsServing board.now.table_id board.now.key.places seat.old.me place }
    requires due { (due : Due) × ((pen_at seat.old.me).due ≡ Some due) × (due.place ≡ place) × (due.kind ≡ kind.Push) }
    ensures table { seat.new.table_id ≡ seat.old.table_id }
    ensures loads { LoadsCell (word_number P.wide) seat.old.me (item result.0 result.1) seat.new.me }
    ensures fits { IsItemOf P.wide (item result.0 result.1) }
{
    law_cells_stand();
    law_words_show_the_desk();
    let first = read_first(board, seat, place);
    if !P::is_wide() {
        return halves(first);
    }
    let second = read_second(board, seat, place);
    (first, second)
}

fn lay_first<S: Store<Entry<P>>, P: Part>(
    board: &Board<S, P>,
    seat: &mut BoardSeat<S, P>,
    place: u16,
    priority: u64,
    value: u64,
)
    requires here { seat.old.table_id ≡ board.now.table_id }
    requires pen { IsServing board.now.table_id board.now.key.places seat.old.me place }
    requires due { (due : Due) × ((pen_at seat.old.me).due ≡ Some due) × (due.place ≡ place) × (due.kind ≢ kind.Push) }
    requires fits { IsItemOf P.wide (item priority value) }
    ensures table { seat.new.table_id ≡ seat.old.table_id }
    ensures laid { (due : Due) → (pen_at seat.old.me).due ≡ Some due
        → WordLaid P.wide 0 due (item priority value) seat.old.me seat.new.me }
{
    law_steps_are_allowed::<S, P>();
    board.store::<LayItem<P>>(seat, item_index(place), first_word::<P>(priority, value));
}

fn lay_second<S: Store<Entry<P>>, P: Part>(
    board: &Board<S, P>,
    seat: &mut BoardSeat<S, P>,
    place: u16,
    priority: u64,
    value: u64,
)
    requires here { seat.old.table_id ≡ board.now.table_id }
    requires pen { IsServing board.now.table_id board.now.key.places seat.old.me place }
    requires due { (due : Due) × ((pen_at seat.old.me).due ≡ Some due) × (due.place ≡ place) × (due.kind ≢ kind.Push) }
    requires fits { IsItemOf P.wide (item priority value) }
    requires wide { P.wide ≡ true }
    ensures table { seat.new.table_id ≡ seat.old.table_id }
    ensures laid { (due : Due) → (pen_at seat.old.me).due ≡ Some due
        → WordLaid P.wide 1 due (item priority value) seat.old.me seat.new.me }
{
    law_steps_are_allowed::<S, P>();
    board.store::<LayItem<P>>(seat, item_index(place) + 1, value);
}

/// Stores the item of these parts, that of an answer, at the pop or least that is due at this place, a
/// step for each word.
pub fn lay_words<S: Store<Entry<P>>, P: Part>(
    board: &Board<S, P>,
    seat: &mut BoardSeat<S, P>,
    place: u16,
    priority: u64,
    value: u64,
)
    requires here { seat.old.table_id ≡ board.now.table_id }
    requires pen { IsServing board.now.table_id board.now.key.places seat.old.me place }
    requires due { (due : Due) × ((pen_at seat.old.me).due ≡ Some due) × (due.place ≡ place) × (due.kind ≢ kind.Push) }
    requires fits { IsItemOf P.wide (item priority value) }
    ensures table { seat.new.table_id ≡ seat.old.table_id }
    ensures after { (due : Due) → (pen_at seat.old.me).due ≡ Some due
        → Becomes seat.old.me (laid_by (word_number P.wide) (pen_at seat.old.me) due (item priority value)) seat.new.me }
{
    law_cells_stand();
    lay_first(board, seat, place, priority, value);
    if !P::is_wide() {
        return;
    }
    lay_second(board, seat, place, priority, value);
}

fn see_first<S: Store<Entry<P>>, P: Part>(
    board: &Board<S, P>,
    seat: &mut BoardSeat<S, P>,
    place: u16,
    notice: Notice,
) -> u64
    requires here { seat.old.table_id ≡ board.now.table_id }
    requires pen { IsAt board.now.table_id seat.old.me place }
    requires waits { Waits (pen_at seat.old.me).standing }
    requires own { (pen_at seat.old.me).own ≡ Answered notice }
    requires item { notice_has_item notice ≡ true }
    ensures table { seat.new.table_id ≡ seat.old.table_id }
    ensures sees { WordSeen P.wide 0 seat.old.me result seat.new.me }
{
    law_steps_are_allowed::<S, P>();
    board.load::<SeeItem<P>>(seat, item_index(place))
}

fn take_first<S: Store<Entry<P>>, P: Part>(
    board: &Board<S, P>,
    seat: &mut BoardSeat<S, P>,
    place: u16,
    notice: Notice,
) -> u64
    requires here { seat.old.table_id ≡ board.now.table_id }
    requires pen { IsAt board.now.table_id seat.old.me place }
    requires waits { Waits (pen_at seat.old.me).standing }
    requires own { (pen_at seat.old.me).own ≡ Answered notice }
    requires item { notice_has_item notice ≡ true }
    ensures table { seat.new.table_id ≡ seat.old.table_id }
    ensures takes { (request : Request) → (pen_at seat.old.me).standing ≡ Waiting request
        → Taken P.wide 0 request notice seat.old.me result seat.new.me }
{
    law_steps_are_allowed::<S, P>();
    board.load::<TakeItem<P>>(seat, item_index(place))
}

fn take_second<S: Store<Entry<P>>, P: Part>(
    board: &Board<S, P>,
    seat: &mut BoardSeat<S, P>,
    place: u16,
    notice: Notice,
) -> u64
    requires here { seat.old.table_id ≡ board.now.table_id }
    requires pen { IsAt board.now.table_id seat.old.me place }
    requires waits { Waits (pen_at seat.old.me).standing }
    requires own { (pen_at seat.old.me).own ≡ Answered notice }
    requires item { notice_has_item notice ≡ true }
    requires wide { P.wide ≡ true }
    ensures table { seat.new.table_id ≡ seat.old.table_id }
    ensures takes { (request : Request) → (pen_at seat.old.me).standing ≡ Waiting request
        → Taken P.wide 1 request notice seat.old.me result seat.new.me }
{
    law_steps_are_allowed::<S, P>();
    board.load::<TakeItem<P>>(seat, item_index(place) + 1)
}

/// Loads the parts of the item of the pen's own answer, once its control was seen as this answer with an
/// item, a step for each word: the last one makes the pen idle.
pub fn take_words<S: Store<Entry<P>>, P: Part>(
    board: &Board<S, P>,
    seat: &mut BoardSeat<S, P>,
    place: u16,
    notice: Notice,
) -> (u64, u64)
    requires here { seat.old.table_id ≡ board.now.table_id }
    requires pen { IsAt board.now.table_id seat.old.me place }
    requires waits { Waits (pen_at seat.old.me).standing }
    requires own { (pen_at seat.old.me).own ≡ Answered notice }
    requires item { notice_has_item notice ≡ true }
    ensures table { seat.new.table_id ≡ seat.old.table_id }
    ensures takes { TakesOwn (word_number P.wide) notice seat.old.me (item result.0 result.1) seat.new.me }
    ensures fits { IsItemOf P.wide (item result.0 result.1) }
{
    law_cells_stand();
    law_words_show_the_desk();
    if !P::is_wide() {
        return halves(take_first(board, seat, place, notice));
    }
    let first = see_first(board, seat, place, notice);
    let second = take_second(board, seat, place, notice);
    (first, second)
}
