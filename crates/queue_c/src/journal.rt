// Lines of a journal, and the items that were left in its queue.
ghost use Rattle.std.specs.Prelude.{◌≡◌, [], Some, None, length, map, slice_get};
ghost use Rattle.std.specs.Option.{MatchOption};
ghost use Rattle.leftist_heap.specs.Store.{first_of, rest_of};
ghost use Rattle.pq_types.specs.Entry.{item_of};

use crate::contents::Heap;
use any_heap::AnyHeap;
use leftist_heap::Store;
use pq_types::{Item, Line};
use std::alloc::Global;
use std::marker::Model;

/// Lines of a journal, how many came before them, and the items that were left in its queue: of a
/// closed queue its last lines, or lines that were copied out of an open one, with no items.
#[derive(Drop)]
pub struct Journal {
    before: u64,
    lines: Vec<Line<u64>>,
    store: Heap,
}

impl Model for Journal {
    ghost use Rattle.std.specs.Prelude.{map};
    ghost use Rattle.pq_types.specs.Entry.{item_of};
    ghost use Rattle.queue_c.specs.Values.{Told};

    ghost Value = { Told };

    ghost view = { λ j. record { before = j.before; lines = j.lines.items; items = map item_of j.store.items } };
}

impl Journal {
    /// What is left of a queue that was closed: its store, and the lines in memory behind so many.
    pub fn of(store: Heap, before: u64, lines: Vec<Line<u64>>) -> Journal
        ensures before { result.before ≡ before }
        ensures lines { result.lines ≡ lines.items }
        ensures items { result.items ≡ map item_of store.items }
    {
        Journal {
            before,
            lines,
            store,
        }
    }

    /// Lines that were copied out of a journal, behind so many.
    pub fn copied(alloc: Global, before: u64, lines: Vec<Line<u64>>) -> Journal
        ensures before { result.before ≡ before }
        ensures lines { result.lines ≡ lines.items }
        ensures items { result.items ≡ [] }
    {
        Journal::of(AnyHeap::new(alloc, false), before, lines)
    }

    /// How many lines came before these.
    pub fn before(&self) -> u64
        ensures { result ≡ self.now.before }
    {
        self.before
    }

    /// How many lines it has.
    pub fn count(&self) -> usize
        ensures { result ≡ length self.now.lines }
    {
        self.lines.len()
    }

    /// The line of this index, from 0.
    pub fn line(&self, index: usize) -> Option<&Line<u64>>
        ensures { MatchOption result (slice_get self.now.lines index ≡ None) (λ l. slice_get self.now.lines index ≡ Some l.now) }
    {
        self.lines.get(index)
    }

    /// Takes the first item out of those that are left.
    #[tactic(auto, using(crate::proofs::Firsts::first_of_map, crate::proofs::Firsts::none_of_map, crate::proofs::Firsts::rest_of_map))]
    pub fn take(&mut self) -> Option<Item<u64>>
        ensures first { result ≡ first_of self.old.items }
        ensures rest { self.new ≡ record self.old { items = rest_of self.old.items } }
    {
        let entry = Store::pop(&mut self.store)?;
        Some(entry.item())
    }
}
