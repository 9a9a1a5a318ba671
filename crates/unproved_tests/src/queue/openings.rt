// A queue that is not opened.
use flat_queue::{Queue, QueueError};
use leftist_heap::SortedVec;
use split_core::ids::IdError;
use std::alloc::Global;
use std::cell::Cell;
use test_aids::WatchedStore;

// Why a queue of these over a store whose drops are counted is not opened.
fn refusal(alloc: Global, drops: &Cell<u32>, ids: &[u64], lines: u32) -> Option<QueueError> {
    let store = WatchedStore::new(SortedVec::new(alloc), drops);
    Queue::with_store(alloc, ids, store, lines).err()
}

#[test]
fn a_queue_that_is_not_opened_drops_its_store(rt: HostRuntime) {
    const REFUSED: [(&[u64], u32, QueueError, u32); 2] = [
        (&[], 4, QueueError::Comers(IdError::NoComers), 1),
        (&[7], 0, QueueError::LinesOutOfRange, 2),
    ];
    let drops = Cell::new(0);
    for (ids, lines, error, count) in REFUSED {
        let refused = refusal(rt.alloc(), &drops, ids, lines);
        assert!(rt; refused == Some(error) && drops.get() == count);
    }
}
