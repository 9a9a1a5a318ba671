// A desk whose opening is refused memory drops its store.
ghost use Rattle.std.specs.Prelude.{◌≡◌, []};

use announce_board::{Desk, DeskError};
use leftist_heap::{SortedVec, Store};
use pq_book::Entry;
use std::alloc::Global;
use std::cell::Cell;
use test_aids::WatchedStore;

// A store whose drop is counted.
fn watched(alloc: Global, drops: &Cell<u32>) -> WatchedStore<'_, SortedVec<Entry, Global>>
    ensures { result.inner ≡ [] }
{
    WatchedStore::new(SortedVec::new(alloc), drops)
}

// Whether a desk over this store is made, with six pens and the store, and closes; or is refused and drops the
// store.
fn is_made<S: Store<Entry>>(alloc: Global, drops: &Cell<u32>, store: S) -> Option<bool>
    requires { S.content store ≡ [] }
{
    match Desk::with_store(alloc, store, 6, 4) {
        Ok((desk, pens)) => {
            let is_whole = pens.len() == 6 && drops.get() == 0;
            (desk.close().is_ok() && is_whole).then_some(true)
        }
        Err(error) => (error == DeskError::NoMemory && drops.get() == 1).then_some(false),
    }
}

// For runs in which a request for memory is refused, each in turn: the opening answers so, and
// drops its store.
#[test]
fn the_opening_of_a_desk_without_memory_is_refused(rt: HostRuntime) {
    let drops = Cell::new(0);
    let made = is_made(rt.alloc(), &drops, watched(rt.alloc(), &drops));
    assert!(rt; made.is_some());
    if made == Some(false) {
        println!(rt; "the opening was refused").expect(&rt, "it is written");
    }
}
