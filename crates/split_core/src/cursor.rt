// A scan as running code keeps it, and how it goes on.
ghost use Rattle.std.specs.Prelude.{◌≡◌, ◌+◌, ◌<◌, false, length, slice_index_or};
ghost use Rattle.split_core.specs.Places.{place};
ghost use Rattle.split_core.specs.Stored.{cursor_after, cursor_now, fresh_cursor};
ghost use Rattle.split_core.specs.declared.places.TheConstants.{MAX_COMERS, MAX_PLACES};

use crate::places::place_number;
use crate::seen::Seen;

/// A scan as running code keeps it: the row and column of the place whose door comes next, whether
/// a closed door was read on its diagonal, the number of doors read, and whether the scan has
/// ended.
#[derive(Clone, Copy)]
pub struct Cursor {
    pub row: u16,
    pub column: u16,
    pub hit: bool,
    pub doors: u32,
    pub over: bool,
}

impl Cursor {
    /// A scan before its first door.
    pub fn fresh() -> Cursor
        ensures { result ≡ fresh_cursor }
    {
        Cursor {
            row: 0,
            column: 0,
            hit: false,
            doors: 0,
            over: false,
        }
    }

    /// The scan to which the next door belongs: the one under way, or a new one where none was
    /// begun or the last is over.
    pub fn current(self) -> Cursor
        ensures { result ≡ cursor_now self }
    {
        if self.doors == 0 || self.over {
            Cursor::fresh()
        } else {
            self
        }
    }

    /// The scan, of a grid of `comers` comers, after its next door was read, closed or open.
    pub fn after_door(self, closed: bool, comers: usize) -> Cursor
        requires on_grid { self.row + self.column < MAX_COMERS }
        requires count { self.doors < MAX_PLACES }
        ensures { result ≡ cursor_after comers self closed }
    {
        let hit = self.hit || closed;
        if self.column == 0 {
            Cursor {
                row: 0,
                column: self.row + 1,
                hit: false,
                doors: self.doors + 1,
                over: !hit || self.row as usize + 1 == comers,
            }
        } else {
            Cursor {
                row: self.row + 1,
                column: self.column - 1,
                hit,
                doors: self.doors + 1,
                over: false,
            }
        }
    }

    /// Reads the next door of the scan in a grid of `comers` comers: the scan after it, and what
    /// the read shows. Doors stand by place numbers. Takes no memory.
    pub fn read_door(self, doors: &[bool], comers: usize) -> (Cursor, Seen)
        requires on_grid { self.row + self.column < MAX_COMERS }
        requires room { place self.row self.column < length doors.now }
        requires count { self.doors < MAX_PLACES }
        ensures after { result.0 ≡ cursor_after comers self (slice_index_or doors.now (place self.row self.column) false) }
        ensures shown { result.1
            ≡ Seen.Door (place self.row self.column) (slice_index_or doors.now (place self.row self.column) false) result.0.over }
    {
        let place = place_number(self.row, self.column);
        let closed = doors[place as usize];
        let after = self.after_door(closed, comers);
        let over = after.over;
        (
            after,
            Seen::Door {
                place,
                closed,
                over,
            },
        )
    }
}
