// What the calls for C answer.

/// Done.
pub const OK: u32 = 0;

/// A number of an opening is out of its range.
pub const OUT_OF_RANGE: u32 = 5;

/// Memory was refused.
pub const NO_MEMORY: u32 = 6;

/// Another member leads.
pub const LOCK_HELD: u32 = 8;

/// The member has posted as often as it may.
pub const POSTS_SPENT: u32 = 11;

/// Done, and the whole answer is told.
pub const TOLD: u32 = 14;

/// Done, and one waits under the number that was given.
pub const ENTERED: u32 = 15;

/// So it does, and comes back by itself when the first item is due.
pub const WATCHES: u32 = 16;

/// Members share the queue still.
pub const MEMBERS_LEFT: u32 = 40;

/// No comer is left to join.
pub const ALL_JOINED: u32 = 41;

/// The handle is empty or holds something else, or isn't empty where it has to be.
pub const NO_HANDLE: u32 = 42;

/// The member's last request is not answered yet.
pub const WAITS: u32 = 43;

/// The member has no request out.
pub const IDLE: u32 = 44;

/// There is no such store, request, number or way to wait.
pub const UNKNOWN: u32 = 45;

/// The journal has no such line.
pub const NO_LINE: u32 = 46;

/// No item is left.
pub const NO_ITEM: u32 = 47;

/// The first of the lines that were asked for is no longer in memory.
pub const FORGOTTEN: u32 = 49;

/// A text is no line that may come next in a journal.
pub const NOT_LAWFUL: u32 = 54;
