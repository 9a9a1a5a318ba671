// A table of places in levels that is seen from outside without its levels.
ghost use Rattle.std.specs.Prelude.{map};
ghost use Rattle.leftist_heap.specs.GlobalPlaces.{twig_table, global_table};
ghost use Rattle.leftist_heap.specs.Places.{KeepsNone};

use crate::places::Places;
use crate::tree_places::{Above, Leaves, Level};
use std::alloc::Global;

// Leaves whose type names no level. What is proved of a call over a type takes three times as long with each level that the type names.
#[derive(Drop)]
pub(crate) struct Twig {
    leaves: Leaves<Global>,
}

impl Places for Twig {
    ghost table = { twig_table };

    #[inline(always)]
    fn open(&mut self, ticket: u64) -> bool {
        self.leaves.open(ticket)
    }

    #[inline(always)]
    fn place_of(&self, ticket: u64) -> usize {
        self.leaves.place_of(ticket)
    }

    #[inline(always)]
    fn mark(&mut self, ticket: u64, place: usize) {
        self.leaves.mark(ticket, place);
    }

    #[inline(always)]
    fn close(&mut self, ticket: u64) {
        self.leaves.close(ticket);
    }
}

impl Level<Global> for Twig {
    #[inline(always)]
    fn bare(alloc: Global) -> Self {
        Twig {
            leaves: Leaves::bare(alloc),
        }
    }

    #[inline(always)]
    fn is_bare(&self) -> bool {
        self.leaves.is_bare()
    }

    #[inline(always)]
    fn tidy(&mut self) {
        self.leaves.tidy();
    }
}

/// The places of tickets that rise without end, as `TreePlaces`, in memory of the global allocator. Its type names no level, so
/// that what is proved over it is proved without them.
#[derive(Drop)]
pub struct GlobalPlaces {
    levels: Above<Twig, Global>,
}

impl GlobalPlaces {
    /// One in which no ticket is open. Takes no memory.
    pub fn bare(alloc: Global) -> Self
        ensures { KeepsNone (global_table result) }
    {
        GlobalPlaces {
            levels: Above::bare(alloc),
        }
    }
}

impl Places for GlobalPlaces {
    ghost table = { global_table };

    #[inline(always)]
    fn open(&mut self, ticket: u64) -> bool {
        self.levels.open(ticket)
    }

    #[inline(always)]
    fn place_of(&self, ticket: u64) -> usize {
        self.levels.place_of(ticket)
    }

    #[inline(always)]
    fn mark(&mut self, ticket: u64, place: usize) {
        self.levels.mark(ticket, place);
    }

    #[inline(always)]
    fn close(&mut self, ticket: u64) {
        self.levels.close(ticket);
    }
}
