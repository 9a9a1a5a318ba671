// How long the journal of a queue is, and the terms of one with such a journal.
ghost use Rattle.std.specs.Prelude.{◌≡◌, ◌≤◌, IfSome, IfNone, OnSome};
ghost use Rattle.pq_types.specs.declared.journal.TheConstants.{GREATEST_NUMBER};
ghost use Rattle.pq_book.specs.Book.{IsRoom};
ghost use Rattle.pq_book.specs.Pages.{IsLongPage, page_of, room_keeping};
ghost use Rattle.flat_queue.specs.Lengths.{room_of, kept_of, terms_with, IsLength};

use announce_board::Terms;
use pq_book::limit::{LONGEST_PAGE, SHORTEST_PAGE, room_keeping};
use pq_types::MOST_LINES;

/// How many lines the journal of a queue may have, and what memory keeps of it.
#[derive(Clone, Copy, Debug, PartialEq, Eq)]
pub enum Length {
    /// So many, 1 to 1,048,576, which memory has all.
    Lines(u32),
    /// 2^56, or just below: memory has the last so many, 16 to 16,777,216, and forgets the others.
    Keeping(u32),
    /// The same, but each request is refused that might have memory forget a line before it is archived.
    Archived(u32),
}

// For how many lines a journal of this length has room, where there may be one.
pub(crate) fn room_of(length: Length) -> Option<u64>
    ensures room { IfSome result (λ room. room ≡ room_of length) }
    ensures few { IfSome result (λ room. room ≤ GREATEST_NUMBER) }
    ensures kept { OnSome result (page_of (room_of length) ≡ kept_of length) }
    ensures in_range { OnSome result (IsLength length) }
    ensures out_of_range { IfNone result (¬ (IsLength length)) }
{
    match length {
        Length::Lines(lines) => short_room(lines),
        Length::Keeping(kept) => long_room(kept),
        Length::Archived(kept) => long_room(kept),
    }
}

// The room of a journal that is kept whole.
fn short_room(lines: u32) -> Option<u64>
    ensures room { IfSome result (λ room. room ≡ lines) }
    ensures in_range { OnSome result (IsRoom lines) }
    ensures out_of_range { IfNone result (¬ (IsRoom lines)) }
{
    if lines == 0 || u64::from(lines) > MOST_LINES {
        return None;
    }
    Some(u64::from(lines))
}

// The room of a long journal of which so many lines are kept.
#[tactic(auto, unfolding(pq_book::specs::Pages::shortage))]
fn long_room(kept: u32) -> Option<u64>
    ensures room { IfSome result (λ room. room ≡ room_keeping kept) }
    ensures few { IfSome result (λ room. room ≤ GREATEST_NUMBER) }
    ensures page { OnSome result (page_of (room_keeping kept) ≡ kept) }
    ensures in_range { OnSome result (IsLongPage kept) }
    ensures out_of_range { IfNone result (¬ (IsLongPage kept)) }
{
    let kept = kept as usize;
    if kept < SHORTEST_PAGE || kept > LONGEST_PAGE {
        return None;
    }
    Some(room_keeping(kept))
}

// The terms of a queue whose journal has this length and this room; with this bound, if it has one.
pub(crate) fn terms_with(length: Length, room: u64, bound: Option<u64>) -> Terms
    requires room { room ≡ room_of length }
    requires few { room ≤ GREATEST_NUMBER }
    ensures { result ≡ terms_with length bound }
{
    let allowed = match length {
        Length::Archived(kept) => u64::from(kept),
        _ => room,
    };
    match bound {
        Some(bound) => Terms { bound, allowed },
        None => Terms {
            bound: room + 1,
            allowed,
        },
    }
}
