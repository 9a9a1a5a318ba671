// Memory that is refused: a push has no line, and all goes on behind it; and a queue is not opened.
use crate::tests::schedule::{Row, Schedule, Step, plays_over};
use crate::tests::{Wanted, closed};
use flat_queue::{CallError, Newcomer, Queue, QueueError};
use leftist_heap::{AnyStore, SortedVec, Store, StoreKind};
use pq_book::Entry;
use pq_types::{Item, Reply, Request};
use std::alloc::Global;
use std::cell::Cell;
use std::process::Abort;
use std::sync::Wait;
use std::test::Fail;
use test_aids::{Refusing, WatchedStore};

const FIVE: Item = Item {
    priority: 5,
    value: 1,
};

const PUSH: Request = Request::Push(FIVE);

const REFUSED_ONCE: [Row; 4] = [
    (0, Step::Joins(0)),
    (0, Step::Calls(PUSH, Err(CallError::NoMemory))),
    (0, Step::Calls(Request::Pop, Ok((1, Reply::Empty)))),
    (0, Step::Calls(PUSH, Ok((2, Reply::Pushed)))),
];

// The push that was refused memory has the serial 1, and no line.
const LINES: [Wanted; 2] = [
    (0, 2, Request::Pop, Reply::Empty),
    (0, 3, PUSH, Reply::Pushed),
];

// The member of a queue over a store of this kind is refused memory once, for its first push.
fn refused_once<R: Abort + Wait>(rt: &R, alloc: Global, kind: StoreKind) -> Result<(), QueueError> {
    let refusing = Refusing::nth(alloc, 1);
    let store = AnyStore::new(&refusing, kind);
    plays_over(
        rt,
        alloc,
        store,
        Schedule {
            ids: &[7],
            room: 4,
            rows: &REFUSED_ONCE,
            wanted: &LINES,
        },
    )
}

#[test]
fn a_push_without_memory_has_no_line(rt: HostRuntime) -> Result<(), Fail> {
    for kind in [StoreKind::Sorted, StoreKind::Leftist, StoreKind::Array] {
        refused_once(&rt, rt.alloc(), kind)?;
    }
    Ok(())
}

// Whether it was opened, with its store still there, or had no memory, with its store gone.
fn is_made<R: Abort, S: Store<Entry>>(
    rt: &R,
    drops: &Cell<u32>,
    made: Result<(Queue<S>, Vec<Newcomer>), QueueError>,
) -> Option<bool> {
    match made {
        Ok((queue, newcomers)) => {
            let is_whole = newcomers.len() == 3 && drops.get() == 0;
            drop(newcomers);
            drop(closed(rt, queue, 0));
            is_whole.then_some(true)
        }
        Err(error) => (error == QueueError::NoMemory && drops.get() == 1).then_some(false),
    }
}

// For runs in which a request for memory is refused, each in turn: the opening answers so, and
// drops its store.
#[test]
fn the_opening_of_a_queue_without_memory_is_refused(rt: HostRuntime) -> Result<(), Fail> {
    let drops = Cell::new(0);
    let store = WatchedStore::new(SortedVec::new(rt.alloc()), &drops);
    let made = is_made(
        &rt,
        &drops,
        Queue::with_store(rt.alloc(), &[1, 2, 3], store, 4),
    );
    assert!(rt; made.is_some());
    if made == Some(false) {
        println!(rt; "the opening was refused")?;
    }
    Ok(())
}
