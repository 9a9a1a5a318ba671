// A comer as running code keeps it, and what its steps make of it.
ghost use Rattle.std.specs.Prelude.{◌≡◌, ◌≢◌, ◌+◌, ◌<◌, length};
ghost use Rattle.split_core.specs.Places.{place};
ghost use Rattle.split_core.specs.Comer.{comer_of};
ghost use Rattle.split_core.specs.Stored.{walker_of, walker_wrote, walker_saw_door, walker_closed};
ghost use Rattle.split_core.specs.Stored.{walker_saw_last, TakesStep, is_started};
ghost use Rattle.split_core.specs.declared.places.TheConstants.{MAX_COMERS};

use crate::cursor::Cursor;
use crate::model::Next;
use crate::places::place_number;
use crate::seen::Seen;

/// A comer as running code keeps it: its id, its next step, the row and column where it stands, and
/// its scan.
#[derive(Clone, Copy)]
pub struct Walker {
    pub id: u64,
    pub next: Next,
    pub row: u16,
    pub column: u16,
    pub cursor: Cursor,
}

impl Walker {
    /// A comer of this id before its first step.
    pub fn at_start(id: u64) -> Walker
        ensures { result ≡ walker_of (comer_of id) }
    {
        Walker {
            id,
            next: Next::WriteLast,
            row: 0,
            column: 0,
            cursor: Cursor::fresh(),
        }
    }

    /// Whether the comer has started: it has written LAST of place 0.
    pub fn has_started(self) -> bool
        ensures { result ≡ is_started self }
    {
        !matches!(self.next, Next::WriteLast) || self.row > 0 || self.column > 0
    }

    /// The comer after it has written its id into LAST.
    pub fn after_writing(self) -> Walker
        ensures { result ≡ walker_wrote self }
    {
        Walker {
            next: Next::ReadDoor,
            ..self
        }
    }

    /// The comer after it has read DOOR: a closed one turns it right.
    pub fn after_reading_door(self, closed: bool) -> Walker
        requires on_grid { self.row + self.column < MAX_COMERS }
        ensures { result ≡ walker_saw_door self closed }
    {
        let mut after = self;
        if closed {
            after.next = Next::WriteLast;
            after.column += 1;
        } else {
            after.next = Next::CloseDoor;
        }
        after
    }

    /// The comer after it has closed DOOR.
    pub fn after_closing(self) -> Walker
        ensures { result ≡ walker_closed self }
    {
        Walker {
            next: Next::ReadLast,
            ..self
        }
    }

    /// The comer after it has read this word in LAST: its own id stops it, another turns it down.
    pub fn after_reading_last(self, read: u64) -> Walker
        requires on_grid { self.row + self.column < MAX_COMERS }
        ensures { result ≡ walker_saw_last self read }
    {
        let mut after = self;
        if read == self.id {
            after.next = Next::Stopped;
        } else {
            after.next = Next::WriteLast;
            after.row += 1;
        }
        after
    }

    /// Takes the next step of a comer that has not stopped: it reads or writes one word of LAST or
    /// DOOR. What becomes of the comer, and what the step shows. Words stand by place numbers.
    /// Takes no memory.
    pub fn take_step(self, last: &mut [u64], doors: &mut [bool]) -> (Walker, Seen)
        requires on_grid { self.row + self.column < MAX_COMERS }
        requires last_room { place self.row self.column < length last.old }
        requires door_room { place self.row self.column < length doors.old }
        requires moving { self.next ≢ Next.Stopped }
        ensures { TakesStep self.next self last.old doors.old result.0 last.new doors.new result.1 }
    {
        let here = place_number(self.row, self.column);
        match self.next {
            Next::WriteLast => {
                last[here as usize] = self.id;
                (self.after_writing(), Seen::Wrote(here))
            }
            Next::ReadDoor => {
                let closed = doors[here as usize];
                let after = self.after_reading_door(closed);
                if closed {
                    (
                        after,
                        Seen::Right(here, place_number(after.row, after.column)),
                    )
                } else {
                    (after, Seen::SawOpen(here))
                }
            }
            Next::CloseDoor => {
                doors[here as usize] = true;
                (self.after_closing(), Seen::Closed(here))
            }
            Next::ReadLast => {
                let read = last[here as usize];
                let after = self.after_reading_last(read);
                if after.next.is_stopped() {
                    (after, Seen::Stopped(here))
                } else {
                    (
                        after,
                        Seen::Down(here, read, place_number(after.row, after.column)),
                    )
                }
            }
            Next::Stopped => unreachable!(),
        }
    }
}
