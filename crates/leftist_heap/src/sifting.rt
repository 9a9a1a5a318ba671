// How the lowest of the items below a place is found in an array heap whose places have eight below them.
ghost use Rattle.std.specs.Prelude.{◌≡◌, ◌+◌, ◌<◌, ◌≤◌, ◌≢◌, false, slice_index_or, IsTrue};
ghost use Rattle.std.specs.List.{swap};
ghost use Rattle.core.specs.Mem.Slots.Ownership.{Filled};
ghost use Rattle.core.specs.Mem.Slots.{slots_items, slots_filled, slots_len, SamePlaces};
ghost use Rattle.std_alloc.specs.Vec.Detached.{HasHole, seen};
ghost use Rattle.leftist_heap.specs.Order.{by_rank};
ghost use Rattle.leftist_heap.specs.Sifting.{Compares, IsLowerSpot, IsLowest};

use crate::exact::Exact;
use crate::steps::Steps;
use core::slots::Slots;
use std::sync::ledger::Ledger;

// How many places are below each. Those from `8 i - 6` to `8 i + 1` are below place i, and below the first is the second alone. Each step
// down waits for the memory that decides the next, and with eight below there are a third of the steps that there are with two. Eight
// items of 24 bytes fill three lines of the cache, where the array begins 16 bytes into a line, as a large array of the C library does.
pub(crate) const BELOW: usize = 8;

// An item of a row, its rank, and how many places it lies from the beginning of a run.
#[derive(Clone, Copy)]
struct Spot<'a, T> {
    step: usize,
    item: &'a T,
    rank: u128,
}

// The item that lies so many places from here. A step that is written as a number becomes part of the machine's own addresses.
#[inline(always)]
fn spot_at<T: Exact>(row: &Slots<T>, from: usize, step: usize) -> Spot<'_, T>
    requires within { from + step < slots_len row.now }
    requires filled { IsTrue (slice_index_or (slots_filled row.now) (from + step) false) }
    ensures step { result.step ≡ step }
    ensures item { result.item.now ≡ slice_index_or (slots_items row.now) (from + step) result.item.now }
    ensures rank { result.rank ≡ T.rank_of result.item.now }
{
    let item = row.get(from + step);
    Spot {
        step,
        item,
        rank: item.rank(),
    }
}

// Whether the rank of the first item is lower than that of the second.
#[inline(always)]
pub(crate) fn is_lower<T: Exact, L: Ledger>(first: &T, second: &T, steps: &mut Steps<L>) -> bool
    ensures answer { Compares (by_rank T.rank_of) first.now second.now result }
    ensures counted { steps.new ≡ steps.old + 1 }
{
    steps.tick();
    first.rank() < second.rank()
}

// The spot of the lower of two items, and the first of two of one rank.
#[inline(always)]
fn lower_of<'a, T: Exact, L: Ledger>(
    first: Spot<'a, T>,
    second: Spot<'a, T>,
    steps: &mut Steps<L>,
) -> Spot<'a, T>
    requires first { first.rank ≡ T.rank_of first.item.now }
    requires second { second.rank ≡ T.rank_of second.item.now }
    ensures lower { IsLowerSpot (by_rank T.rank_of) first.entry.step first.entry.item.now second.entry.step second.entry.item.now
        result.step result.item.now }
    ensures rank { result.rank ≡ T.rank_of result.item.now }
    ensures counted { steps.new ≡ steps.old + 1 }
{
    steps.tick();
    if second.rank < first.rank {
        second
    } else {
        first
    }
}

// The place of the lowest of eight items from here on. It is never inlined: by itself it selects without a branch, but in its caller's loop
// the compiler would make a branch of each `lower_of`. A processor guesses half of such branches wrong, and a pop takes twice as long.
#[inline(never)]
pub(crate) fn lowest_of_eight<T: Exact, L: Ledger>(
    row: &Slots<T>,
    from: usize,
    steps: &mut Steps<L>,
) -> usize
    requires within { from + 8 ≤ slots_len row.now }
    requires filled { Filled (slots_filled row.now) from (from + 8) }
    ensures lowest { IsLowest (by_rank T.rank_of) (slots_items row.now) from (from + 8) result }
    ensures counted { steps.new ≡ steps.old + 7 }
{
    let low = spot_at(row, from, 0);
    let low = lower_of(low, spot_at(row, from, 1), steps);
    let low = lower_of(low, spot_at(row, from, 2), steps);
    let low = lower_of(low, spot_at(row, from, 3), steps);
    let low = lower_of(low, spot_at(row, from, 4), steps);
    let low = lower_of(low, spot_at(row, from, 5), steps);
    let low = lower_of(low, spot_at(row, from, 6), steps);
    let low = lower_of(low, spot_at(row, from, 7), steps);
    from + low.step
}

// The place of the lowest of all items from here on.
pub(crate) fn lowest_from<T: Exact, L: Ledger>(
    row: &Slots<T>,
    from: usize,
    steps: &mut Steps<L>,
) -> usize
    requires within { from < slots_len row.now }
    requires filled { Filled (slots_filled row.now) from (slots_len row.now) }
    ensures lowest { IsLowest (by_rank T.rank_of) (slots_items row.now) from (slots_len row.now) result }
    ensures counted { steps.new + from + 1 ≡ steps.old + slots_len row.now }
{
    let mut low = spot_at(row, 0, from);
    for at in from + 1..row.len() {
        low = lower_of(low, spot_at(row, 0, at), steps);
    }
    low.step
}

// Moves the item of another place into the hole, which is at that place from then on. Contracts see in the hole the item that was taken
// out of it.
#[inline(always)]
pub(crate) fn move_hole<T>(row: &mut Slots<T>, hole: usize, item: &T, other: usize)
    requires { HasHole row.old hole × (other < slots_len row.old) × (other ≢ hole) }
    ensures hole { HasHole row.new other × SamePlaces row.old row.new }
    ensures items { seen row.new other item.now ≡ swap (seen row.old hole item.now) hole other }
{
    row.shift(other, hole);
}
