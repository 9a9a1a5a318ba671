// Regions that are really full.
use super::KINDS;
use leftist_heap::{AnyStore, MOST_ITEMS, Store, StoreKind};
use linked_list_allocator::LocalHeap;
use std::alloc::{AllocError, Global};

// Whether 0, 1 and so on come out, so many, and no more.
fn gives_below<S: Store<u32>>(store: &mut S, count: u32) -> bool {
    for wanted in 0..count {
        if store.pop() != Some(wanted) {
            return false;
        }
    }
    store.is_empty()
}

// Pushes 0, 1 and so on until one is refused and comes back, and pops all that went in: how many
// they were.
fn room_of<S: Store<u32>>(store: &mut S) -> Option<u32> {
    for item in 0..1000 {
        if store.len() >= MOST_ITEMS as usize {
            return None;
        }
        if let Err(back) = store.push(item) {
            return (back == item && gives_below(store, item)).then_some(item);
        }
    }
    None
}

// Whether a store of this kind is refused once its region of so many bytes is full, and again once as
// many items have gone out and in.
fn fills_twice(alloc: Global, kind: StoreKind, bytes: usize) -> Result<bool, AllocError> {
    let region = LocalHeap::new(alloc, bytes)?;
    let mut store = AnyStore::new(&region, kind);
    let first = room_of(&mut store);
    Ok(room_of(&mut store) == first && first.is_some())
}

#[test]
fn full_region_refuses_a_push(rt: HostRuntime) {
    for &kind in &KINDS {
        // In each region another growth of an array is the one that is refused.
        for &bytes in &[16, 64, 256, 1024] {
            let is_so = fills_twice(rt.alloc(), kind, bytes) == Ok(true);
            assert!(rt; is_so, "{kind:?} in {bytes} bytes");
        }
    }
}
