// Stores of more items than any other test has, where no clause says that memory was refused.
use super::{KINDS, takes_all};
use leftist_heap::AnyStore;

// Each goes in before all that are there, and into a sorted vector behind them.
#[test]
fn each_store_takes_a_million_items_and_more(rt: HostRuntime) {
    let falling: Vec<u32> = (0..1_000_100)
        .rev()
        .collect(rt.alloc())
        .expect(&rt, "there is memory");
    for &kind in &KINDS {
        let mut store = AnyStore::new(rt.alloc(), kind);
        assert!(rt; takes_all(&mut store, falling.as_slice()), "{kind:?}");
    }
}
