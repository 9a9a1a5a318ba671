// The atomic steps of a comer on the grid's table.
ghost use Rattle.std.specs.Prelude.{◌≡◌, ◌==◌, false, length};
ghost use Rattle.split_core.specs.Places.{place};
ghost use Rattle.split_core.specs.Stored.{walker_of, cursor_of};
ghost use Rattle.split_grid.specs.Rule.{comer_in};
ghost use Rattle.split_grid.specs.Steps.{Strode, ReadsDoor};
ghost use Rattle.split_grid.specs.Tokens.{Sized, Walks, Rests, scan_at};

use crate::rule::{FirstDoor, Fits, GridKey, GridRule, NextDoor, View, WayStep};
use crate::tokens::place_behind;
use crate::words::{door_word, last_word};
use atomic_table::{Seat, Shared};
use split_core::cursor::Cursor;
use split_core::laws::{law_all_runs, law_cursors, law_places};
use split_core::model::Next;
use split_core::places::place_number;
use split_core::walker::Walker;

// The next step of a comer on its way: it writes or reads one word. What the comer is afterwards.
pub fn take_step<T: Fits>(
    board: &Shared<Option<T>, View<T::Tag>, GridKey<T::Tag>, GridRule<T>>,
    seat: &mut Seat<Option<T>, View<T::Tag>>,
    walker: Walker,
    places: u16,
) -> Walker
    requires here { seat.old.table_id ≡ board.now.table_id }
    requires sized { Sized board.now.table_id (length board.now.key.ids.items) }
    requires places { places ≡ place 0 (length board.now.key.ids.items) }
    requires walks { Walks board.now.table_id.slots seat.old.me walker }
    ensures table { seat.new.table_id ≡ seat.old.table_id }
    ensures strode { Strode T.fits seat.old.me (comer_in seat.new.me.0).read seat.new.me }
    ensures stored { result ≡ walker_of (comer_in seat.new.me.0) }
{
    law_all_runs();
    law_places();
    let here = place_number(walker.row, walker.column);
    match walker.next {
        Next::WriteLast => {
            board.store::<WayStep<T>>(seat, last_word(places, here), walker.id);
            walker.after_writing()
        }
        Next::ReadDoor => {
            let door = board.load::<WayStep<T>>(seat, door_word(here));
            walker.after_reading_door(door == 1)
        }
        Next::CloseDoor => {
            board.store::<WayStep<T>>(seat, door_word(here), 1);
            walker.after_closing()
        }
        Next::ReadLast => {
            let last = board.load::<WayStep<T>>(seat, last_word(places, here));
            walker.after_reading_last(last)
        }
        Next::Stopped => unreachable!(),
    }
}

// Loads the next door of a comer's scan.
fn load_door<T: Fits>(
    board: &Shared<Option<T>, View<T::Tag>, GridKey<T::Tag>, GridRule<T>>,
    seat: &mut Seat<Option<T>, View<T::Tag>>,
    walker: Walker,
) -> u64
    requires here { seat.old.table_id ≡ board.now.table_id }
    requires sized { Sized board.now.table_id (length board.now.key.ids.items) }
    requires rests { Rests board.now.table_id.slots seat.old.me walker }
    requires more { walker.cursor.over ≡ false }
    ensures table { seat.new.table_id ≡ seat.old.table_id }
    ensures door { ReadsDoor (scan_at walker.cursor.doors (comer_in seat.old.me.0)) seat.old.me result seat.new.me }
{
    law_all_runs();
    law_cursors();
    law_places();
    let word = door_word(place_behind(walker.cursor.doors));
    if walker.cursor.doors == 0 {
        board.load::<FirstDoor>(seat, word)
    } else {
        board.load::<NextDoor>(seat, word)
    }
}

// Reads the next door of a comer's scan: what the scan is afterwards, and whether the door was
// closed.
pub fn read_next_door<T: Fits>(
    board: &Shared<Option<T>, View<T::Tag>, GridKey<T::Tag>, GridRule<T>>,
    seat: &mut Seat<Option<T>, View<T::Tag>>,
    walker: Walker,
    comers: usize,
) -> (Cursor, bool)
    requires here { seat.old.table_id ≡ board.now.table_id }
    requires sized { Sized board.now.table_id (length board.now.key.ids.items) }
    requires comers { comers ≡ length board.now.key.ids.items }
    requires rests { Rests board.now.table_id.slots seat.old.me walker }
    requires more { walker.cursor.over ≡ false }
    ensures table { seat.new.table_id ≡ seat.old.table_id }
    ensures door { ReadsDoor (scan_at walker.cursor.doors (comer_in seat.old.me.0)) seat.old.me
        (comer_in seat.new.me.0).read seat.new.me }
    ensures stored { result.0 ≡ cursor_of (comer_in seat.new.me.0).scan }
    ensures closed { result.1 ≡ ((comer_in seat.new.me.0).read == 1) }
{
    law_places();
    let closed = load_door(board, seat, walker) == 1;
    (walker.cursor.after_door(closed, comers), closed)
}
