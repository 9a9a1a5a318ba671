// Worked rows of the leftist heap: two heaps that become one, and a heap whose region is full.
ghost use Rattle.std.specs.Prelude.{◌≡◌, ◌<◌};

use super::{gives_all, takes_all};
use leftist_heap::{Leftist, MOST_ITEMS, Steps, Store};
use linked_list_allocator::LocalHeap;
use std::alloc::{AllocError, Allocator, Global};
use std::marker::Brand;
use std::sync::ledger::{Blank, Ledger};

// Whether a heap of these items that absorbs a heap of those gives all of them in order, and then none.
fn absorbs_to<L: Ledger>(
    alloc: Global,
    items: &[u32],
    others: &[u32],
    all: &[u32],
    blank: Blank,
) -> bool
    requires name { blank.name ≡ L.name }
    requires parts { blank.parts ≡ L.parts }
    requires shared { 0 < L.parts }
{
    let mut steps = Steps::<L>::new(blank);
    let mut heap = Leftist::new(alloc);
    let mut other = Leftist::new(alloc);
    if !takes_all(&mut heap, items) || !takes_all(&mut other, others) {
        return false;
    }
    if heap.len() + other.len() > MOST_ITEMS as usize {
        return false;
    }
    heap.absorb(other, &mut steps);
    gives_all(&mut heap, all)
}

#[test]
fn heap_absorbs_a_heap_with_an_equal_item(rt: HostRuntime) {
    let is_so = absorbs_to::<Brand>(rt.alloc(), &[5, 1], &[5, 2], &[1, 2, 5, 5], Blank::new(1));
    assert!(rt; is_so);
}

#[test]
fn heap_absorbs_an_empty_heap(rt: HostRuntime) {
    let keeps = absorbs_to::<Brand>(rt.alloc(), &[5, 1], &[], &[1, 5], Blank::new(1));
    let takes = absorbs_to::<Brand>(rt.alloc(), &[], &[5, 2], &[2, 5], Blank::new(1));
    assert!(rt; keeps && takes);
}

// Pushes 0, 1, 2 and so on until one is refused and comes back: how many went in. The heap then has as
// many items, of which 0 is the least; and it gives them all in order, and then none.
fn filled<A: Allocator + Clone>(heap: &mut Leftist<u32, A>) -> Option<u32> {
    for item in 0..=256 {
        if heap.len() >= MOST_ITEMS as usize {
            return None;
        }
        if let Err(back) = Store::push(heap, item) {
            let is_full = back == item && heap.len() == item as usize;
            return (is_full && Store::least(heap) == Some(&0) && empties(heap, item)).then_some(
                item,
            );
        }
    }
    None
}

// Whether the heap gives 0, 1, 2 and so on, so many, and then none.
fn empties<A: Allocator + Clone>(heap: &mut Leftist<u32, A>, count: u32) -> bool {
    for item in 0..count {
        if Store::pop(heap) != Some(item) {
            return false;
        }
    }
    Store::pop(heap).is_none()
}

// How many items a heap over a region of 4,096 bytes takes, the first time and the second.
fn fills(alloc: Global) -> Result<(Option<u32>, Option<u32>), AllocError> {
    let region = LocalHeap::new(alloc, 4_096)?;
    let mut heap = Leftist::new(&region);
    let first = filled(&mut heap);
    Ok((first, filled(&mut heap)))
}

#[test]
fn heap_in_a_full_region_hands_the_item_back_and_fills_again(rt: HostRuntime) {
    let (first, second) = fills(rt.alloc()).expect(&rt, "there is memory");
    assert!(rt; first.is_some_and(|count| count >= 1 && count <= 256) && second == first);
}
