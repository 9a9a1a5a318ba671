// The running queue: its refusals, its worked schedules, and its members in threads.
ghost use Rattle.std.specs.Prelude.{◌≡◌, IfOk};
ghost use Rattle.std.specs.List.{All};

mod batches;
mod calls;
mod leads;
mod memory;
mod own_requests;
mod refusals;
mod schedule;
mod worked_schedules;

use flat_queue::{Newcomer, Queue, QueueError};
use leftist_heap::{Leftist, Store};
use pq_book::{Book, Entry};
use pq_types::{Item, Operation, Reply, Request};
use std::alloc::Global;
use std::process::Abort;

type Heap = Leftist<Entry, Global>;

// A queue of these ids, with room for so many lines.
fn opened(
    alloc: Global,
    ids: &[u64],
    lines: u32,
) -> Result<(Queue<Heap>, Vec<Newcomer>), QueueError>
    ensures { IfOk result (λ r. All (λ n. n.queue ≡ r.0) r.1.items) }
{
    Queue::new(alloc, ids, lines)
}

// A line as it is to stand in the journal: its place and serial, the request, and the reply.
type Wanted = (u16, u64, Request, Reply);

// The journal has exactly these lines.
fn stands<R: Abort, S: Store<Entry>>(rt: &R, book: Book<S, Global>, wanted: &[Wanted]) {
    let lines = book.lines().older;
    assert!(rt; lines.len() == wanted.len());
    for at in 0..lines.len() {
        let line = lines[at];
        let (place, serial, request, reply) = wanted[at];
        let operation = Operation::asked(request);
        assert!(rt;
            (line.place, line.serial, line.operation, line.reply)
                == (place, serial, operation, reply)
        );
    }
    drop(book);
}

// The queue is closed, and its journal has so many lines.
fn closed<R: Abort, S: Store<Entry>>(rt: &R, queue: Queue<S>, lines: u64) -> Book<S, Global> {
    let book = queue.close().expect(rt, "the lock is free");
    assert!(rt; book.len() == lines);
    book
}

// A push of this item.
fn push(priority: u32, value: u32) -> Request {
    Request::Push(Item { priority, value })
}
