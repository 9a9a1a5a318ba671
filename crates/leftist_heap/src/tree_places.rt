// A table of places in levels, which takes memory for the tickets that are open.
ghost use Rattle.std.specs.Prelude.{◌≡◌, ℕ, ◌+◌, ◌/◌, ◌%◌, ◌<◌, ◌≤◌, true, map, length, slice_index_or, IsTrue};
ghost use Rattle.leftist_heap.specs.Places.{Table, KeepsNone, StillKeeps, StillKeepsBut, IsMarked, leaf_table, branch_table};

use crate::places::Places;
use std::alloc::Allocator;

// How many tickets a leaf has.
const TICKETS: usize = 64;

// The most levels side by side.
const MOST_LEVELS: usize = 1 << 24;

/// A part of such a table.
pub trait Level<A: Allocator>: Places {
    /// One in which no ticket is open. Takes no memory.
    fn bare(alloc: A) -> Self
        ensures { KeepsNone (Self.table result) };

    /// Whether it has no memory of its own, so that no ticket is open.
    fn is_bare(&self) -> bool
        ensures { IsTrue result → KeepsNone (Self.table self.now) };

    /// Gives all its memory back, where no ticket is open.
    fn tidy(&mut self)
        ensures { StillKeeps (Self.table self.old) (Self.table self.new) };
}

/// The places of the tickets below 64.
#[derive(Drop)]
pub struct Leaf<A: Allocator> {
    // One more than the place of each open ticket, and 0 for each other one. There are none where no ticket is open.
    cells: Vec<u32, A>,
    // How many are open. Whatever it says, the cells are looked through before they are let go.
    open: u32,
}

// Whether there are cells for all tickets.
fn has_cells<A: Allocator>(cells: &mut Vec<u32, A>) -> bool
    ensures cells { IsTrue result → 64 ≤ length cells.new.items }
    ensures same { (k : ℕ) → slice_index_or cells.new.items k 0 ≡ slice_index_or cells.old.items k 0 }
{
    cells.len() >= TICKETS || cells.resize(TICKETS, 0).is_ok()
}

// Whether no ticket is open.
fn are_closed(cells: &[u32]) -> bool
    ensures { IsTrue result → (k : ℕ) → slice_index_or cells.now k 0 ≡ 0 }
{
    for at in 0..cells.len() {
        if cells[at] != 0 {
            return false;
        }
    }
    true
}

impl<A: Allocator> Places for Leaf<A> {
    ghost table = { λ l. leaf_table l.cells.items };

    fn open(&mut self, ticket: u64) -> bool {
        if ticket >= TICKETS as u64 || !has_cells(&mut self.cells) {
            return false;
        }
        if self.cells[ticket as usize] == 0 {
            self.cells[ticket as usize] = 1;
            self.open = self.open.saturating_add(1);
        }
        true
    }

    fn place_of(&self, ticket: u64) -> usize {
        if ticket < self.cells.len() as u64 {
            (self.cells[ticket as usize] as usize).saturating_sub(1)
        } else {
            0
        }
    }

    fn mark(&mut self, ticket: u64, place: usize) {
        if ticket < self.cells.len() as u64 && self.cells[ticket as usize] != 0 {
            self.cells[ticket as usize] = place as u32 + 1;
        }
    }

    fn close(&mut self, ticket: u64) {
        if ticket >= self.cells.len() as u64 || self.cells[ticket as usize] == 0 {
            return;
        }
        self.cells[ticket as usize] = 0;
        self.open = self.open.saturating_sub(1);
    }
}

impl<A: Allocator> Level<A> for Leaf<A> {
    fn bare(alloc: A) -> Self {
        Leaf {
            cells: Vec::new(alloc),
            open: 0,
        }
    }

    fn is_bare(&self) -> bool {
        self.cells.is_empty()
    }

    fn tidy(&mut self) {
        if self.open == 0 && are_closed(&self.cells) {
            self.cells.clear();
            self.cells.shrink_to_fit();
        }
    }
}

/// Levels side by side, each of `SPAN` tickets. There are as many as reach to the highest ticket
/// that was opened since none was open.
#[derive(Drop)]
pub struct Branch<L: Level<A>, A: Allocator + Clone, const SPAN: u64> {
    levels: Vec<L, A>,
    // How many aren't bare. Whatever it says, the levels are looked through before they are let go.
    filled: u32,
}

// The place of the level that has this ticket, and the ticket's number there.
#[inline(always)]
fn split<const SPAN: u64>(ticket: u64) -> (usize, u64)
    ensures place { result.0 ≡ ticket / SPAN }
    ensures rest { result.1 ≡ ticket % SPAN }
{
    if SPAN == 0 {
        return (0, ticket);
    }
    ((ticket / SPAN) as usize, ticket % SPAN)
}

// Whether there is a level at this place, after bare ones were put behind the others, where memory for them was granted.
fn reaches<L: Level<A>, A: Allocator + Clone>(levels: &mut Vec<L, A>, place: usize) -> bool
    ensures levels { IsTrue result → place < length levels.new.items }
    ensures same { (span : ℕ) → StillKeeps (branch_table span (map L.table levels.old.items)) (branch_table span (map L.table levels.new.items)) }
{
    if place < levels.len() {
        return true;
    }
    if place >= MOST_LEVELS || levels.reserve(place + 1 - levels.len()).is_err() {
        return false;
    }
    while levels.len() <= place {
        let Ok(alloc) = levels.allocator().clone() else {
            return false;
        };
        if levels.push(L::bare(alloc)).is_err() {
            return false;
        }
    }
    true
}

// Whether no ticket is open.
fn are_bare<L: Level<A>, A: Allocator>(levels: &[L]) -> bool
    ensures { IsTrue result → (span : ℕ) → KeepsNone (branch_table span (map L.table levels.now)) }
{
    for at in 0..levels.len() {
        if !levels[at].is_bare() {
            return false;
        }
    }
    true
}

// Gives the memory of the level at this place back, where no ticket is open there, and returns whether it did.
fn is_tidied<L: Level<A>, A: Allocator>(levels: &mut Vec<L, A>, place: usize) -> bool
    requires { place < length levels.old.items }
    ensures still { (span : ℕ) → StillKeeps (branch_table span (map L.table levels.old.items)) (branch_table span (map L.table levels.new.items)) }
    ensures count { length levels.new.items ≡ length levels.old.items }
{
    if levels[place].is_bare() {
        return false;
    }
    levels[place].tidy();
    levels[place].is_bare()
}

// The same as `reaches`. Where levels are put behind, the last one may have no open ticket, and is tidied.
fn grows<L: Level<A>, A: Allocator + Clone>(
    levels: &mut Vec<L, A>,
    filled: &mut u32,
    place: usize,
) -> bool
    ensures levels { IsTrue result → place < length levels.new.items }
    ensures same { (span : ℕ) → StillKeeps (branch_table span (map L.table levels.old.items)) (branch_table span (map L.table levels.new.items)) }
{
    let count = levels.len();
    if place < count {
        return true;
    }
    if count == 0 {
        return reaches(levels, place);
    }
    let is_emptied = is_tidied(levels, count - 1);
    *filled = filled.saturating_sub(is_emptied as u32);
    reaches(levels, place)
}

// Gives the memory of all levels back, where no ticket is open.
fn let_go<L: Level<A>, A: Allocator>(levels: &mut Vec<L, A>)
    ensures { (span : ℕ) → StillKeeps (branch_table span (map L.table levels.old.items)) (branch_table span (map L.table levels.new.items)) }
{
    if are_bare(levels) {
        levels.clear();
        levels.shrink_to_fit();
    }
}

impl<L: Level<A>, A: Allocator + Clone, const SPAN: u64> Places for Branch<L, A, SPAN> {
    ghost table = { λ b. branch_table SPAN (map L.table b.levels.items) };

    fn open(&mut self, ticket: u64) -> bool {
        let (place, rest) = split::<SPAN>(ticket);
        if !grows(&mut self.levels, &mut self.filled, place) {
            return false;
        }
        let was_bare = self.levels[place].is_bare();
        let is_kept = self.levels[place].open(rest);
        let is_filled = was_bare & !self.levels[place].is_bare();
        self.filled = self.filled.saturating_add(is_filled as u32);
        is_kept
    }

    fn place_of(&self, ticket: u64) -> usize {
        let (place, rest) = split::<SPAN>(ticket);
        if place < self.levels.len() {
            self.levels[place].place_of(rest)
        } else {
            0
        }
    }

    fn mark(&mut self, ticket: u64, place: usize) {
        let (level, rest) = split::<SPAN>(ticket);
        if level < self.levels.len() {
            self.levels[level].mark(rest, place);
        }
    }

    // The last level may be emptied by each pop and filled by the next push: it keeps its memory.
    fn close(&mut self, ticket: u64) {
        let (place, rest) = split::<SPAN>(ticket);
        if place >= self.levels.len() || self.levels[place].is_bare() {
            return;
        }
        self.levels[place].close(rest);
        if place + 1 == self.levels.len() {
            return;
        }
        let is_emptied = is_tidied(&mut self.levels, place);
        self.filled = self.filled.saturating_sub(is_emptied as u32);
    }
}

impl<L: Level<A>, A: Allocator + Clone, const SPAN: u64> Level<A> for Branch<L, A, SPAN> {
    fn bare(alloc: A) -> Self {
        Branch {
            levels: Vec::new(alloc),
            filled: 0,
        }
    }

    fn is_bare(&self) -> bool {
        self.levels.is_empty()
    }

    fn tidy(&mut self) {
        let count = self.levels.len();
        if count == 0 {
            return;
        }
        let is_emptied = is_tidied(&mut self.levels, count - 1);
        self.filled = self.filled.saturating_sub(is_emptied as u32);
        if self.filled == 0 {
            let_go(&mut self.levels);
        }
    }
}

/// The places of tickets that rise without end, as journal lines do. Memory is taken for open
/// tickets, in leaves of 64: some 1,100 bytes for each where one ticket in a thousand is open, and
/// up to 34,000 for one that is open alone. Beside that, 32 bytes are taken for each 16,777,216
/// tickets and never given back. Places of tickets from 2^48 on aren't kept.
pub type TreePlaces<A> = Above<Leaves<A>, A>;

/// Leaves side by side.
pub type Leaves<A> = Branch<Leaf<A>, A, 64>;

/// What stands above leaves in such a table.
pub type Above<L, A> = Branch<Branch<L, A, 32_768>, A, 16_777_216>;
