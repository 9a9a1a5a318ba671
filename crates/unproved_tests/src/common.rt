// What tests share: waiting for another thread, a queue over a leftist heap, and a shared handle of one newcomer.
use flat_queue::{Handle, Newcomer, Queue};
use leftist_heap::{Leftist, Store};
use pq_book::Entry;
use pq_types::Item;
use queue_pool::{Pool, SharedHandle};
use std::alloc::Global;
use std::process::Abort;
use std::sync::Arc;
use std::sync::atomic::{AtomicBool, Ordering};
use std::thread;

/// A leftist heap of narrow items.
pub type Heap = Leftist<Entry, Global>;

/// How often one yields who waits for another thread.
pub const PATIENCE: u32 = 100_000_000;

/// Lets other threads run until this is so.
pub fn wait_for(told: &AtomicBool) {
    for _ in 0..PATIENCE {
        if told.load(Ordering::SeqCst) {
            return;
        }
        thread::yield_now();
    }
}

/// The item of this priority and this value.
pub fn item(priority: u32, value: u32) -> Item {
    Item { priority, value }
}

/// A lasting queue for the comers of these ids.
pub fn opened<R: Abort>(rt: &R, alloc: Global, ids: &[u64]) -> (Queue<Heap>, Vec<Newcomer>) {
    let Ok(opened) = Queue::lasting(alloc, ids, Leftist::new(alloc)) else {
        panic!(rt; "there is such a queue")
    };
    opened
}

/// The last of these newcomers, as a handle.
pub fn entered<'q, R: Abort>(
    rt: &R,
    queue: &'q Queue<Heap>,
    newcomers: &mut Vec<Newcomer>,
) -> Handle<'q, Heap> {
    queue.enter(newcomers.pop().expect(rt, "there is one"))
}

/// A shared handle of the first of these newcomers, which comes out of a pool.
pub fn shared<S: Store<Entry>, R: Abort>(
    rt: &R,
    alloc: Global,
    queue: &Arc<Queue<S>, Global>,
    newcomers: Vec<Newcomer>,
) -> SharedHandle<S> {
    let Ok(queue) = Arc::try_clone(queue) else {
        panic!(rt; "it has few owners")
    };
    let Ok(mut pool) = Pool::of(alloc, queue, newcomers) else {
        panic!(rt; "there is memory")
    };
    let Ok(handle) = pool.take() else {
        panic!(rt; "it is in the pool")
    };
    drop(pool);
    handle
}
