// How much of a journal is kept.
ghost use Rattle.std.specs.Prelude.{◌≡◌, ◌<◌, ◌≤◌};
ghost use Rattle.pq_book.specs.declared.limit.TheConstants.{LONGEST_PAGE};
ghost use Rattle.pq_book.specs.Pages.{page_of, room_keeping, IsLongPage};

use pq_types::{GREATEST_NUMBER, MOST_LINES};

/// How many lines of a long journal are kept, where its opening names no other number.
pub const LONG_PAGE: usize = 65_536;

/// How many lines of a long journal are kept at least.
pub const SHORTEST_PAGE: usize = 16;

/// How many lines of a long journal are kept at most.
pub const LONGEST_PAGE: usize = 16_777_216;

/// How many lines of a journal with this room are kept: all of one with room for 1,048,576 at most;
/// else the last 65,536, and one more for each line that its room falls short of 2^56, up to
/// 16,777,216; of one that falls shorter still the last 65,535, and one fewer for each line, down to 16.
#[tactic(auto, unfolding(crate::specs::Pages::long_page))]
pub fn page_of(room: u64) -> usize
    ensures page { result ≡ page_of room }
    ensures some { 0 < room → 0 < result }
    ensures most { result ≤ LONGEST_PAGE }
{
    if room <= MOST_LINES {
        return room as usize;
    }
    let short = GREATEST_NUMBER.saturating_sub(room);
    if short <= (LONGEST_PAGE - LONG_PAGE) as u64 {
        LONG_PAGE + short as usize
    } else if short <= (LONGEST_PAGE - SHORTEST_PAGE) as u64 {
        LONGEST_PAGE - short as usize
    } else {
        LONG_PAGE
    }
}

/// The room of a long journal of which so many lines are kept.
#[tactic(auto, unfolding(crate::specs::Pages::long_page, crate::specs::Pages::shortage))]
pub fn room_keeping(kept: usize) -> u64
    requires { IsLongPage kept }
    ensures room { result ≡ room_keeping kept }
    ensures page { page_of result ≡ kept }
{
    let short = if LONG_PAGE <= kept {
        kept - LONG_PAGE
    } else {
        LONGEST_PAGE - kept
    };
    GREATEST_NUMBER - short as u64
}
