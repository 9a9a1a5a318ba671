// How an item rises and sinks in an array heap that keeps the places of all tickets.
ghost use Rattle.std.specs.Prelude.{◌≡◌, ◌+◌, ◌-◌, ◌*◌, ◌^◌, ◌<◌, ◌≤◌, ◌≢◌, length};
ghost use Rattle.std.specs.List.{swap};
ghost use Rattle.std.specs.List.Sorted.{IsPermutation};
ghost use Rattle.core.specs.Mem.Slots.{slots_items, slots_len, SamePlaces, IsFull, Refills};
ghost use Rattle.std_alloc.specs.Vec.Detached.{HasHole, seen};
ghost use Rattle.leftist_heap.specs.Order.{by_rank};
ghost use Rattle.leftist_heap.specs.Sifting.{IsHeapBy, IsRising, IsSinking};
ghost use Rattle.leftist_heap.specs.Depth.{depth_at};
ghost use Rattle.leftist_heap.specs.Places.{IsPlaced, IsPlacedBut};

use crate::places::Places;
use crate::sifting::{BELOW, is_lower, lowest_from, lowest_of_eight, move_hole};
use crate::steps::Steps;
use crate::ticket_store::HasTicket;
use core::slots::{Slots, with_slots};
use std::sync::ledger::Ledger;

// Moves the item of another place into the hole, and marks the place for its ticket.
#[inline(always)]
fn move_marked<T: HasTicket, P: Places>(
    row: &mut Slots<T>,
    places: &mut P,
    hole: usize,
    item: &T,
    other: usize,
)
    requires hole { HasHole row.old hole × (other < slots_len row.old) × (other ≢ hole) }
    requires small { slots_len row.old < 2 ^ 32 }
    ensures hole { HasHole row.new other × SamePlaces row.old row.new }
    ensures items { seen row.new other item.now ≡ swap (seen row.old hole item.now) hole other }
    ensures placed { IsPlacedBut T.ticket_of (P.table places.old) (seen row.old hole item.now) hole
        → IsPlacedBut T.ticket_of (P.table places.new) (seen row.new other item.now) other }
{
    places.mark(row.get(other).ticket(), hole);
    move_hole(row, hole, item, other);
}

// Moves the hole up until its item may stand after the one above it, and returns its place.
fn rise_from<T: HasTicket, P: Places, L: Ledger>(
    row: &mut Slots<T>,
    places: &mut P,
    mut hole: usize,
    item: &T,
    steps: &mut Steps<L>,
) -> usize
    requires hole { HasHole row.old hole }
    requires small { slots_len row.old < 2 ^ 32 }
    requires rising { IsRising (by_rank T.rank_of) (seen row.old hole item.now) hole }
    ensures hole { HasHole row.new result × SamePlaces row.old row.new }
    ensures permutation { IsPermutation (seen row.old hole item.now) (seen row.new result item.now) }
    ensures heap { IsHeapBy (by_rank T.rank_of) (seen row.new result item.now) }
    ensures placed { IsPlacedBut T.ticket_of (P.table places.old) (seen row.old hole item.now) hole
        → IsPlacedBut T.ticket_of (P.table places.new) (seen row.new result item.now) result }
    ensures counted { steps.new ≤ steps.old + depth_at hole }
{
    while 0 < hole {
        let above = (hole + 6) / BELOW;
        if !is_lower(item, row.get(above), steps) {
            return hole;
        }
        move_marked(row, places, hole, item, above);
        hole = above;
    }
    hole
}

// Moves the hole from any place but the first down to one with none below it, by way of the lowest item below it each time, and returns
// its place.
fn sink_from<T: HasTicket, P: Places, L: Ledger>(
    row: &mut Slots<T>,
    places: &mut P,
    mut hole: usize,
    item: &T,
    steps: &mut Steps<L>,
) -> usize
    requires hole { HasHole row.old hole × (0 < hole) }
    requires small { slots_len row.old < 2 ^ 32 }
    requires sinking { IsSinking (by_rank T.rank_of) (seen row.old hole item.now) hole }
    ensures hole { HasHole row.new result × SamePlaces row.old row.new }
    ensures permutation { IsPermutation (seen row.old hole item.now) (seen row.new result item.now) }
    ensures rising { IsRising (by_rank T.rank_of) (seen row.new result item.now) result }
    ensures placed { IsPlacedBut T.ticket_of (P.table places.old) (seen row.old hole item.now) hole
        → IsPlacedBut T.ticket_of (P.table places.new) (seen row.new result item.now) result }
    ensures counted { steps.new + 7 * depth_at hole ≤ steps.old + 7 * depth_at result }
{
    let len = row.len();
    // The places up to this one have eight below them, and only the next one may have fewer.
    let last_full = (len - 2) / BELOW;
    while hole <= last_full {
        let low = lowest_of_eight(row, BELOW * (hole - 1) + 2, steps);
        move_marked(row, places, hole, item, low);
        hole = low;
    }
    let last_group = BELOW * last_full + 2;
    if last_full + 1 < hole || last_group == len {
        return hole;
    }
    let low = lowest_from(row, last_group, steps);
    move_marked(row, places, hole, item, low);
    low
}

// The same from any place. Where the first place is the hole, only the second is below it.
fn sink_to_end<T: HasTicket, P: Places, L: Ledger>(
    row: &mut Slots<T>,
    places: &mut P,
    hole: usize,
    item: &T,
    steps: &mut Steps<L>,
) -> usize
    requires hole { HasHole row.old hole }
    requires small { slots_len row.old < 2 ^ 32 }
    requires sinking { IsSinking (by_rank T.rank_of) (seen row.old hole item.now) hole }
    ensures hole { HasHole row.new result × SamePlaces row.old row.new }
    ensures permutation { IsPermutation (seen row.old hole item.now) (seen row.new result item.now) }
    ensures rising { IsRising (by_rank T.rank_of) (seen row.new result item.now) result }
    ensures placed { IsPlacedBut T.ticket_of (P.table places.old) (seen row.old hole item.now) hole
        → IsPlacedBut T.ticket_of (P.table places.new) (seen row.new result item.now) result }
    ensures counted { steps.new ≤ steps.old + 7 * depth_at result }
{
    if row.len() == 1 {
        return hole;
    }
    if hole == 0 {
        move_marked(row, places, 0, item, 1);
        return sink_from(row, places, 1, item, steps);
    }
    sink_from(row, places, hole, item, steps)
}

// The row after its item at this place rose.
fn risen<T: HasTicket, P: Places, L: Ledger>(
    mut row: Slots<T>,
    mut places: P,
    from: (usize, Steps<L>),
) -> (Slots<T>, P, Steps<L>)
    requires full { IsFull row }
    requires within { from.0 < slots_len row }
    requires small { slots_len row < 2 ^ 32 }
    requires rising { IsRising (by_rank T.rank_of) (slots_items row) from.0 }
    ensures refills { Refills row result.0 }
    ensures permutation { IsPermutation (slots_items row) (slots_items result.0) }
    ensures heap { IsHeapBy (by_rank T.rank_of) (slots_items result.0) }
    ensures placed { IsPlacedBut T.ticket_of (P.table places) (slots_items row) from.0 → IsPlaced T.ticket_of (P.table result.1) (slots_items result.0) }
    ensures counted { result.2 ≤ from.1 + depth_at from.0 }
{
    let (at, mut steps) = from;
    let item = row.take(at);
    let hole = rise_from(&mut row, &mut places, at, &item, &mut steps);
    places.mark(item.ticket(), hole);
    row.put(hole, item);
    (row, places, steps)
}

// The row after its item at this place sank or rose. It came from the end, so most of the time it sinks there: it does so without a look
// at it, and then rises.
fn settled<T: HasTicket, P: Places, L: Ledger>(
    mut row: Slots<T>,
    mut places: P,
    from: (usize, Steps<L>),
) -> (Slots<T>, P, Steps<L>)
    requires full { IsFull row }
    requires within { from.0 < slots_len row }
    requires small { slots_len row < 2 ^ 32 }
    requires sinking { IsSinking (by_rank T.rank_of) (slots_items row) from.0 }
    ensures refills { Refills row result.0 }
    ensures permutation { IsPermutation (slots_items row) (slots_items result.0) }
    ensures heap { IsHeapBy (by_rank T.rank_of) (slots_items result.0) }
    ensures placed { IsPlacedBut T.ticket_of (P.table places) (slots_items row) from.0 → IsPlaced T.ticket_of (P.table result.1) (slots_items result.0) }
    ensures counted { result.2 ≤ from.1 + 8 * depth_at (slots_len row - 1) }
{
    let (at, mut steps) = from;
    let item = row.take(at);
    let end = sink_to_end(&mut row, &mut places, at, &item, &mut steps);
    let hole = rise_from(&mut row, &mut places, end, &item, &mut steps);
    places.mark(item.ticket(), hole);
    row.put(hole, item);
    (row, places, steps)
}

// Moves the item at this place up until it stands below one that may stand before it.
pub fn rise<T: HasTicket, P: Places, L: Ledger>(
    items: &mut [T],
    places: &mut P,
    at: usize,
    steps: Steps<L>,
) -> Steps<L>
    requires within { at < length items.old }
    requires small { length items.old < 2 ^ 32 }
    requires rising { IsRising (by_rank T.rank_of) items.old at }
    ensures permutation { IsPermutation items.old items.new }
    ensures heap { IsHeapBy (by_rank T.rank_of) items.new }
    ensures placed { IsPlacedBut T.ticket_of (P.table places.old) items.old at → IsPlaced T.ticket_of (P.table places.new) items.new }
    ensures counted { result ≤ steps + depth_at at }
{
    unsafe { with_slots(items, places, (at, steps), risen) }
}

// Moves the item at this place down or up until it stands between items where it may.
pub fn settle<T: HasTicket, P: Places, L: Ledger>(
    items: &mut [T],
    places: &mut P,
    at: usize,
    steps: Steps<L>,
) -> Steps<L>
    requires within { at < length items.old }
    requires small { length items.old < 2 ^ 32 }
    requires sinking { IsSinking (by_rank T.rank_of) items.old at }
    ensures permutation { IsPermutation items.old items.new }
    ensures heap { IsHeapBy (by_rank T.rank_of) items.new }
    ensures placed { IsPlacedBut T.ticket_of (P.table places.old) items.old at → IsPlaced T.ticket_of (P.table places.new) items.new }
    ensures counted { result ≤ steps + 8 * depth_at (length items.old - 1) }
{
    unsafe { with_slots(items, places, (at, steps), settled) }
}
