// The store of a load is of the kind that was asked for: the Book that it leaves tells which.
use leftist_heap::{AnyStore, StoreKind};
use pq_book::{Book, Entry};
use program_words::Plan;
use queue_load::load_report;
use std::alloc::Global;
use std::sync::Wait;
use std::thread::Threads;

// The kind of the store that a load of one push leaves.
fn kind_left<R: Threads + Wait + Sync>(
    rt: &R,
    alloc: Global,
    kind: StoreKind,
) -> Option<StoreKind> {
    let plan = Plan::new(1, 1, 0).ok()?;
    let (_, book) = load_report(rt, alloc, plan, kind).ok()?;
    book.map(kind_of)
}

// The kind of the store of this Book.
fn kind_of(book: Book<AnyStore<Entry, Global>, Global>) -> StoreKind {
    let (store, _, _) = book.into_parts();
    let kind = store.kind();
    drop(store);
    kind
}

#[test]
fn a_load_leaves_a_store_of_the_kind_that_was_asked_for(rt: HostRuntime) {
    for kind in [StoreKind::Leftist, StoreKind::Array, StoreKind::Sorted] {
        assert!(rt; kind_left(&rt, rt.alloc(), kind) == Some(kind), "{kind:?}");
    }
}
