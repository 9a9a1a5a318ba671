// Stores, Books, machines and texts: room, drops, and which calls ask for memory.
mod drops;
mod lasting;
mod many_items;
mod memory;
mod moves;
mod openings;
mod regions;
mod removals;
mod rooms;
mod shuts;
mod splitters;
mod texts;
mod wide;

use leftist_heap::{MOST_ITEMS, Store, StoreKind};

/// The kinds of stores.
pub const KINDS: [StoreKind; 3] = [StoreKind::Leftist, StoreKind::Array, StoreKind::Sorted];

// Pushes these items, and says whether each went in.
fn takes_all<S: Store<u32>>(store: &mut S, items: &[u32]) -> bool {
    for item in items {
        if store.len() >= MOST_ITEMS as usize || store.push(*item).is_err() {
            return false;
        }
    }
    true
}

// Pops until the store is empty, and says whether these items came out.
fn gives_all<S: Store<u32>>(store: &mut S, items: &[u32]) -> bool {
    for item in items {
        if store.least() != Some(item) || store.pop() != Some(*item) {
            return false;
        }
    }
    store.pop().is_none() && store.is_empty()
}

/// The ids from 1 to N.
pub fn numbered<const N: usize>() -> [u64; N] {
    let mut ids = [0; N];
    let mut last = 0u64;
    for id in &mut ids {
        last = last.saturating_add(1);
        *id = last;
    }
    ids
}
