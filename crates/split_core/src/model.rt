// A comer of the grid as plain data: what each step changes, and what proofs know of a thread.
// Machines make no value of these types but `Next`.
ghost use Rattle.std.specs.Prelude.{◌≡◌, ◌↔◌, IsTrue};

use std::collections::LinkedList;

/// The next step of a comer at the splitter where it stands, or that it has stopped there.
#[derive(Clone, Copy)]
pub enum Next {
    /// Writes its id into LAST.
    WriteLast,
    /// Reads DOOR: closed turns it right.
    ReadDoor,
    /// Closes DOOR.
    CloseDoor,
    /// Reads LAST: its own id stops it, another turns it down.
    ReadLast,
    /// It has stopped.
    Stopped,
}

impl Next {
    /// Whether the comer has stopped.
    pub fn is_stopped(self) -> bool
        ensures { IsTrue result ↔ (self ≡ Next.Stopped) }
    {
        matches!(self, Next::Stopped)
    }
}

/// How a comer leaves a splitter at which it does not stop: to the next column or to the next row.
pub enum Turn {
    Right,
    Down,
}

/// A scan of the doors: the row and column of the place whose door comes next, the places found
/// closed in the order in which they were read, the number of doors read, and whether it has ended.
pub struct Scan {
    pub row: u64,
    pub column: u64,
    pub found: LinkedList<u64>,
    pub doors: u64,
    pub over: bool,
}

/// A comer: its id, its next step, the turns that it has taken, the newest first, its scan, each
/// place that any scan of it has found closed, the last word read, and the number of its steps.
pub struct Comer {
    pub id: u64,
    pub next: Next,
    pub turns: LinkedList<Turn>,
    pub scan: Scan,
    pub seen: LinkedList<u64>,
    pub read: u64,
    pub steps: u64,
}
