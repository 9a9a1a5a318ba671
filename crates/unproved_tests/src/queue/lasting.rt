// A queue that runs for years, and the archive of its journal.
use flat_queue::{Handle, Queue};
use leftist_heap::{Leftist, Store};
use pq_book::Entry;
use pq_types::{Done, Item, Line, Operation, Reply};
use std::process::Abort;
use std::sync::Wait;
use std::test::Fail;

const ITEM: Item = Item {
    priority: 3,
    value: 4,
};

const LINES: [Line; 2] = [
    Line {
        place: 0,
        serial: 1,
        operation: Operation {
            done: Done::Push(ITEM),
        },
        reply: Reply::Pushed,
    },
    Line {
        place: 0,
        serial: 2,
        operation: Operation { done: Done::Pop },
        reply: Reply::Got(ITEM),
    },
];

// Each call of the member is archived behind those before it.
fn archives<R: Abort + Wait, S: Store<Entry>>(
    rt: &R,
    mut handle: Handle<'_, S>,
    archive: &mut Vec<Line>,
) {
    assert!(rt; handle.push(rt, ITEM) == Ok(1));
    assert!(rt; handle.archive(0, archive) == Some(Ok(1)));
    assert!(rt; handle.pop(rt) == Ok((2, Some(ITEM))));
    assert!(rt; handle.archive(1, archive) == Some(Ok(2)));
    assert!(rt; archive.as_slice() == &LINES[..]);
    drop(handle);
}

// The member archives its calls, and the queue is closed then.
#[test]
fn a_lasting_queue_is_archived_line_by_line(rt: HostRuntime) -> Result<(), Fail> {
    let (queue, mut newcomers) = Queue::lasting(rt.alloc(), &[5], Leftist::new(rt.alloc()))?;
    let newcomer = newcomers.pop().expect(&rt, "one may come");
    archives(&rt, queue.enter(newcomer), &mut Vec::new(rt.alloc()));
    let book = queue.close().expect(&rt, "the lock is free");
    assert!(rt; book.len() == 2);
    drop(book);
    Ok(())
}
