// How the queue of a load is opened, for items of each width.
ghost use Rattle.std.specs.Prelude.{◌≡◌, [], IfOk};
ghost use Rattle.flat_queue.specs.Opening.{Opens};
ghost use Rattle.queue_load.specs.Lines.{room_for};

use flat_queue::{Newcomer, Queue, QueueError};
use leftist_heap::Store;
use pq_book::Entry;
use pq_types::{MOST_LINES, Part};
use std::alloc::Global;

/// The type of an item's parts, with the opening of a load's queue of such items.
pub trait Width: Part + Send {
    /// A queue over this empty store for the comers of these ids, and a newcomer for each: a short one with
    /// room for so many lines exactly, where there are no more than it may have, else a lasting one. It refuses what
    /// `Queue::with_store` and `Queue::lasting` refuse.
    fn open<S: Store<Entry<Self>>>(
        alloc: Global,
        ids: &[u64],
        store: S,
        lines: u64,
    ) -> Result<(Queue<S, Self>, Vec<Newcomer>), QueueError>
        requires store { S.content store ≡ [] }
        ensures { IfOk result (λ made. Opens ids.now (room_for lines) made.0 made.1.items) };
}

impl Width for u32 {
    fn open<S: Store<Entry<u32>>>(
        alloc: Global,
        ids: &[u64],
        store: S,
        lines: u64,
    ) -> Result<(Queue<S, u32>, Vec<Newcomer>), QueueError> {
        if lines <= MOST_LINES {
            return Queue::with_store(alloc, ids, store, lines as u32);
        }
        Queue::lasting(alloc, ids, store)
    }
}

impl Width for u64 {
    fn open<S: Store<Entry<u64>>>(
        alloc: Global,
        ids: &[u64],
        store: S,
        lines: u64,
    ) -> Result<(Queue<S, u64>, Vec<Newcomer>), QueueError> {
        if lines <= MOST_LINES {
            return Queue::wide_with_store(alloc, ids, store, lines as u32);
        }
        Queue::wide_lasting(alloc, ids, store)
    }
}
