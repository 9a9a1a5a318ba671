// The leftist heap's ranks, from the literature, a heap on one left spine, and a push whose box is refused.
use super::{gives_all, takes_all};
use leftist_heap::{Leftist, MOST_ITEMS, Store};
use std::alloc::{Allocator, Global};
use test_aids::{Forked, Refusing};

// Whether a heap has this rank once these seven items are pushed, and gives them in order.
fn has_rank(alloc: Global, pushed: &[u32], rank: u32) -> bool {
    let mut heap = Leftist::new(alloc);
    let is_so = takes_all(&mut heap, pushed) && heap.rank() == rank;
    gives_all(&mut heap, &[1, 2, 3, 4, 5, 6, 7]) && is_so && heap.rank() == 0
}

#[test]
fn rising_pushes_fill_every_place_and_falling_ones_a_left_spine(rt: HostRuntime) {
    // 7 is the least number of items of rank 3.
    assert!(rt; has_rank(rt.alloc(), &[1, 2, 3, 4, 5, 6, 7], 3));
    assert!(rt; has_rank(rt.alloc(), &[7, 6, 5, 4, 3, 2, 1], 1));
}

// A heap whose nodes are all on one left spine.
fn long_left_spine(alloc: Global) -> Result<Leftist<u32, Global>, u32> {
    let mut heap = Leftist::new(alloc);
    for item in (0..65_536).rev() {
        if heap.len() < MOST_ITEMS as usize {
            Store::push(&mut heap, item)?;
        }
    }
    Ok(heap)
}

// Whether such a heap is as long, and empty once it is cleared.
fn is_cleared(mut heap: Leftist<u32, Global>) -> bool {
    let is_long = heap.len() == 65_536 && heap.rank() == 1 && heap.least() == Some(&0);
    heap.clear();
    is_long && heap.len() == 0 && heap.rank() == 0
}

#[test]
fn long_left_spine_is_cleared_and_dropped(rt: HostRuntime) {
    let heap = long_left_spine(rt.alloc()).expect(&rt, "there is memory");
    assert!(rt; is_cleared(heap));
    drop(long_left_spine(rt.alloc()).expect(&rt, "there is memory"));
}

// Whether the third push on this heap is refused, which leaves length, rank and least item, and
// succeeds when it is made again.
fn bears_a_refused_node<A: Allocator + Clone>(heap: &mut Leftist<u32, A>) -> bool {
    if !takes_all(heap, &[3, 2]) || heap.len() >= MOST_ITEMS as usize {
        return false;
    }
    Store::push(heap, 1) == Err(1)
        && heap.len() == 2
        && heap.rank() == 1
        && heap.least() == Some(&2)
        && takes_all(heap, &[1])
        && gives_all(heap, &[1, 2, 3])
}

#[test]
fn refused_box_or_clone_of_the_allocator_hands_the_item_back(rt: HostRuntime) {
    // A push clones the handle and then asks for the box: requests 5 and 6 are those of the third.
    for number in 5..=6 {
        let refusing = Refusing::nth(rt.alloc(), number);
        let is_borne = bears_a_refused_node(&mut Leftist::new(Forked::new(&refusing)));
        assert!(rt; is_borne, "request {number}");
    }
}
