// The leftist heap (Crane 1972; Knuth, volume 3; Okasaki 1998).
ghost use Rattle.std.specs.Prelude.{◌≡◌, ◌+◌, ◌<◌, ◌≤◌, ◌^◌, ◌↔◌, length, OnOk, OnErr, IfErr, IfNone, IsTrue};
ghost use Rattle.std.specs.Option.{MatchOption};
ghost use Rattle.leftist_heap.specs.Order.{IsAscendingBy, with_item_by};
ghost use Rattle.leftist_heap.specs.Store.{first_of, rest_of};
ghost use Rattle.leftist_heap.specs.Order.{not_above_by, with_items_by};
ghost use Rattle.leftist_heap.specs.Tree.{empty_heap};

use crate::exact::Exact;
use crate::node::{Node, absorb_heap, boxed, discard, merge_into, rank, take_root};
use crate::steps::Steps;
use crate::store::{MOST_ITEMS, Store};
use std::alloc::Allocator;
use std::marker::{Brand, Model};
use std::mem;
use std::sync::ledger::{Blank, Ledger};

/// A priority queue of boxed nodes, of which the lowest item comes out first. It holds at most
/// 4,294,967,295 items.
///
/// The type keeps that no node's item is above an item of its children, that every left rank is no
/// less than the right rank, and that every rank that a node keeps is true. Contracts see a heap as
/// the ascending list of its items, its rank, and the sum of the ranks of its root's two children.
///
/// A push, a pop and an absorb walk down right children alone, of which a heap of n items has
/// log2(n + 1) or fewer, and count their comparisons of items in the `steps` that they are lent.
/// Only a push takes memory, for one box.
pub struct Leftist<T: Exact, A: Allocator + Clone> {
    root: Option<Box<Node<T, A>, A>>,
    len: u32,
    alloc: A,
}

impl<T: Exact, A: Allocator + Clone> Model for Leftist<T, A> {
    ghost use Rattle.std.specs.Prelude.{◌≡◌, ◌≤◌, length};
    ghost use Rattle.leftist_heap.specs.Order.{not_above_by};
    ghost use Rattle.leftist_heap.specs.declared.store.TheConstants.{MOST_ITEMS};
    ghost use Rattle.leftist_heap.specs.Tree.{Heap, heap_of, items_of, IsLawful};

    ghost Value = { Heap T };

    ghost use Rattle.leftist_heap.specs.Node.{tree_of};

    ghost view = { λ h. heap_of (not_above_by T.cmp) (tree_of h.root) };

    ghost invariant = { λ h. IsLawful (not_above_by T.cmp) (tree_of h.root) × (h.len ≡ length (items_of (tree_of h.root)))
        × (h.len ≤ MOST_ITEMS) };
}

impl<T: Exact, A: Allocator + Clone> Leftist<T, A> {
    /// A heap with no items. Takes no memory.
    pub fn new(alloc: A) -> Self
        ensures { result ≡ empty_heap }
    {
        Leftist {
            root: None,
            len: 0,
            alloc,
        }
    }

    /// How many items there are. Takes no memory.
    pub fn len(&self) -> usize
        ensures len { result ≡ length self.now.items }
        ensures limit { result ≤ MOST_ITEMS }
        ensures ascending { IsAscendingBy (not_above_by T.cmp) self.now.items }
    {
        self.len as usize
    }

    /// Whether there is no item. Takes no memory.
    pub fn is_empty(&self) -> bool
        ensures { IsTrue result ↔ (length self.now.items ≡ 0) }
    {
        self.len() == 0
    }

    /// The rank of the root: the number of nodes on the way down the right children, and 0 where
    /// there is no item. Takes no memory.
    pub fn rank(&self) -> u32
        ensures rank { result ≡ self.now.rank }
        ensures log { 2 ^ result ≤ length self.now.items + 1 }
        ensures limit { result ≤ 32 }
    {
        rank(&self.root)
    }

    /// The lowest item, where there is one. Takes no memory.
    pub fn least(&self) -> Option<&T>
        ensures { MatchOption result (first_of self.now.items ≡ None) (λ x. first_of self.now.items ≡ Some x.now) }
    {
        match &self.root {
            None => None,
            Some(node) => Some(&node.item),
        }
    }

    /// Puts an item in, by at most 1 + rank comparisons. Where memory for its box is refused, or
    /// the clone of the allocator for it, the item comes back and the heap is as it was.
    pub fn push<L: Ledger>(&mut self, item: T, steps: &mut Steps<L>) -> Result<(), T>
        requires { length self.old.items < MOST_ITEMS }
        ensures ok { OnOk result (self.new.items ≡ with_item_by (not_above_by T.cmp) item self.old.items) }
        ensures err { OnErr result (self.new ≡ self.old) }
        ensures handed_back { IfErr result (λ back. back ≡ item) }
        ensures counted { steps.new ≤ steps.old + (1 + self.old.rank) }
    {
        let node = boxed(&self.alloc, item)?;
        merge_into(&mut self.root, node, steps);
        self.len += 1;
        Ok(())
    }

    /// Takes the lowest item out, where there is one, by at most as many comparisons as the ranks
    /// of the root's two children add up to, and so by 64 or fewer. Takes no memory.
    pub fn pop<L: Ledger>(&mut self, steps: &mut Steps<L>) -> Option<T>
        ensures item { result ≡ first_of self.old.items }
        ensures rest { self.new.items ≡ rest_of self.old.items }
        ensures none { IfNone result (self.new ≡ empty_heap) }
        ensures counted { steps.new ≤ steps.old + self.old.ranks_below }
        ensures few { steps.new ≤ steps.old + 64 }
    {
        let item = take_root(&mut self.root, steps)?;
        self.len -= 1;
        Some(item)
    }

    /// Takes all items of another heap over, by at most as many comparisons as the two ranks add up
    /// to. Takes no memory.
    pub fn absorb<L: Ledger>(&mut self, mut other: Leftist<T, A>, steps: &mut Steps<L>)
        requires { length self.old.items + length other.items ≤ MOST_ITEMS }
        ensures items { self.new.items ≡ with_items_by (not_above_by T.cmp) other.items self.old.items }
        ensures counted { steps.new ≤ steps.old + (self.old.rank + other.rank) }
    {
        let len = mem::replace(&mut other.len, 0);
        absorb_heap(&mut self.root, other.root.take(), steps);
        self.len += len;
    }

    /// Pops until the heap is empty. Takes no memory.
    pub fn clear(&mut self)
        ensures { self.new ≡ empty_heap }
    {
        pop_all::<T, A, Brand>(self, Blank::new(1));
    }
}

// A push that counts for itself.
fn push_counting<T: Exact, A: Allocator + Clone, L: Ledger>(
    heap: &mut Leftist<T, A>,
    item: T,
    blank: Blank,
) -> Result<(), T>
    requires name { blank.name ≡ L.name }
    requires parts { blank.parts ≡ L.parts }
    requires shared { 0 < L.parts }
    requires room { length heap.old.items < MOST_ITEMS }
    ensures ok { OnOk result (heap.new.items ≡ with_item_by (not_above_by T.cmp) item heap.old.items) }
    ensures err { OnErr result (heap.new ≡ heap.old) }
    ensures handed_back { IfErr result (λ back. back ≡ item) }
{
    heap.push(item, &mut Steps::<L>::new(blank))
}

// A pop that counts for itself.
fn pop_counting<T: Exact, A: Allocator + Clone, L: Ledger>(
    heap: &mut Leftist<T, A>,
    blank: Blank,
) -> Option<T>
    requires name { blank.name ≡ L.name }
    requires parts { blank.parts ≡ L.parts }
    requires shared { 0 < L.parts }
    ensures item { result ≡ first_of heap.old.items }
    ensures rest { heap.new.items ≡ rest_of heap.old.items }
{
    heap.pop(&mut Steps::<L>::new(blank))
}

// Pops until the heap is empty, so that a long left spine is walked by no recursion.
fn pop_all<T: Exact, A: Allocator + Clone, L: Ledger>(heap: &mut Leftist<T, A>, blank: Blank)
    requires name { blank.name ≡ L.name }
    requires parts { blank.parts ≡ L.parts }
    requires shared { 0 < L.parts }
    ensures { heap.new ≡ empty_heap }
{
    let mut steps = Steps::<L>::new(blank);
    while let Some(item) = heap.pop(&mut steps) {
        drop(item);
    }
}

// A node has no drop, so each item is popped and each box freed by itself.
impl<T: Exact, A: Allocator + Clone> Drop for Leftist<T, A> {
    fn drop(mut self) {
        self.clear();
        let Leftist {
            root,
            len: _,
            alloc: _,
        } = self;
        discard(root);
    }
}

// The calls of the store count their comparisons for themselves.
impl<T: Exact, A: Allocator + Clone> Store<T> for Leftist<T, A> {
    ghost content = { λ h. h.items };

    fn push(&mut self, item: T) -> Result<(), T> {
        push_counting::<T, A, Brand>(self, item, Blank::new(1))
    }

    fn pop(&mut self) -> Option<T> {
        pop_counting::<T, A, Brand>(self, Blank::new(1))
    }

    fn least(&self) -> Option<&T> {
        self.least()
    }

    fn len(&self) -> usize {
        self.len()
    }

    fn is_empty(&self) -> bool {
        self.is_empty()
    }
}
