// Which calls take memory: none but a push; and what a push leaves where its memory is refused.
ghost use Rattle.std.specs.Prelude.{◌≡◌, ◌<◌};

use super::{KINDS, gives_all, takes_all};
use leftist_heap::{AnyStore, Leftist, MOST_ITEMS, Steps, Store, StoreKind};
use std::alloc::{Allocator, Global};
use std::marker::Brand;
use std::sync::ledger::{Blank, Ledger};
use test_aids::Refusing;

// The numbers from 0 to 15.
const SIXTEEN: [u32; 16] = [5, 3, 8, 1, 9, 0, 7, 2, 6, 4, 15, 10, 14, 11, 13, 12];

const IN_ORDER: [u32; 16] = [0, 1, 2, 3, 4, 5, 6, 7, 8, 9, 10, 11, 12, 13, 14, 15];

// Pushes the item. Where that is refused, the item comes back, the store is as it was, and the same
// push succeeds when it is made again.
fn takes_at_last<S: Store<u32>>(store: &mut S, item: u32) -> bool {
    let len = store.len();
    let least = store.least().copied();
    if len >= MOST_ITEMS as usize {
        return false;
    }
    let Err(back) = store.push(item) else {
        return true;
    };
    back == item
        && store.len() == len
        && store.least().copied() == least
        && store.push(item).is_ok()
}

// Pushes sixteen items, whatever is refused: whether they went in.
fn takes_sixteen<S: Store<u32>>(store: &mut S) -> bool {
    for &item in &SIXTEEN {
        if !takes_at_last(store, item) {
            return false;
        }
    }
    true
}

// Pushes sixteen items into a new store, whatever is refused, and pops them: whether they come in
// order, and nothing but the pushes asked for memory.
fn bears_refusals<A: Allocator, S: Store<u32>>(refusing: &Refusing<A>, mut store: S) -> bool {
    let before = refusing.requests();
    let has_all = takes_sixteen(&mut store);
    let requests = refusing.requests();
    let in_order = gives_all(&mut store, &IN_ORDER);
    drop(store);
    before == 0 && has_all && in_order && refusing.requests() == requests
}

// Whether a store takes these numbers, which rise, and gives them all back with no request for memory.
fn gives_without_memory<A: Allocator, S: Store<u32>>(
    refusing: &Refusing<A>,
    mut store: S,
    rising: &[u32],
) -> bool {
    let has_all = takes_all(&mut store, rising);
    let requests = refusing.requests();
    gives_all(&mut store, rising) && has_all && refusing.requests() == requests
}

// From each number of items up to 128, so from vectors with some room left and from all that are full.
#[test]
fn pops_ask_for_no_memory(rt: HostRuntime) {
    let mut rising = Vec::new(rt.alloc());
    for number in 0..128 {
        rising.push(number).expect(&rt, "there is memory");
        for &kind in &KINDS {
            let refusing = Refusing::nothing(rt.alloc());
            let store = AnyStore::new(&refusing, kind);
            let is_so = gives_without_memory(&refusing, store, rising.as_slice());
            assert!(rt; is_so, "{kind:?}");
        }
    }
}

// Refuses each request of such a run over a store of this kind in turn, until the run meets no refusal:
// how many requests were refused; nothing where the store doesn't bear one.
fn refusals_borne(alloc: Global, kind: StoreKind) -> Option<u64> {
    for number in 1..=17 {
        let refusing = Refusing::nth(alloc, number);
        if !bears_refusals(&refusing, AnyStore::new(&refusing, kind)) {
            return None;
        }
        if !refusing.has_refused() {
            return Some(number - 1);
        }
    }
    None
}

// A box for each item; an array grows less often.
#[test]
fn each_request_of_a_push_is_refused_in_turn(rt: HostRuntime) {
    const BORNE: [(StoreKind, u64, u64); 3] = [
        (StoreKind::Leftist, 16, 16),
        (StoreKind::Array, 2, 15),
        (StoreKind::Sorted, 2, 15),
    ];
    for &(kind, least, most) in &BORNE {
        let borne = refusals_borne(rt.alloc(), kind).unwrap_or(0);
        assert!(rt; least <= borne && borne <= most, "{kind:?}");
    }
}

// The least item of a heap of one item that absorbs another of one, and is then cleared.
fn least_absorbed<L: Ledger, A: Allocator + Clone>(
    mut heap: Leftist<u64, A>,
    other: Leftist<u64, A>,
    steps: &mut Steps<L>,
) -> Option<u64> {
    if heap.len() != 1 || other.len() != 1 {
        return None;
    }
    heap.absorb(other, steps);
    let least = heap.pop(steps);
    heap.clear();
    least
}

// A heap of one item.
fn heap_of<L: Ledger, A: Allocator + Clone>(
    alloc: A,
    item: u64,
    steps: &mut Steps<L>,
) -> Leftist<u64, A> {
    let mut heap = Leftist::new(alloc);
    let _ = heap.push(item, steps);
    heap
}

// The calls that take a count, once each: how many requests two pushes made, and all calls.
fn absorbs_and_clears<L: Ledger, A: Allocator>(
    refusing: &Refusing<A>,
    blank: Blank,
) -> Option<(u64, u64)>
    requires name { blank.name ≡ L.name }
    requires parts { blank.parts ≡ L.parts }
    requires shared { 0 < L.parts }
{
    let mut steps = Steps::<L>::new(blank);
    let heap = heap_of(refusing, 3, &mut steps);
    let other = heap_of(refusing, 1, &mut steps);
    let pushed = refusing.requests();
    let least = least_absorbed(heap, other, &mut steps);
    (least == Some(1)).then_some((pushed, refusing.requests()))
}

#[test]
fn pop_absorb_and_clear_ask_for_no_memory(rt: HostRuntime) {
    let refusing = Refusing::<Global>::nothing(rt.alloc());
    let requests = absorbs_and_clears::<Brand, _>(&refusing, Blank::new(1));
    assert!(rt; requests == Some((2, 2)));
}
