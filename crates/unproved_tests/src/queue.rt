// The running queue: its calls by one member or two, and what others find while one leads.
mod beside;
mod calls;
mod closing;
mod gates;
mod lasting;
mod leads;
mod limits;
mod openings;
mod rooms;
mod threads;

use flat_queue::{Newcomer, Queue, QueueError};
use leftist_heap::{Leftist, Store};
use pq_book::{Book, Entry};
use pq_types::{Item, Operation, Reply, Request};
use std::alloc::Global;
use std::collections::VecDeque;
use std::process::Abort;

type Heap = Leftist<Entry, Global>;

// A queue of these ids, with room for so many lines.
fn opened(
    alloc: Global,
    ids: &[u64],
    lines: u32,
) -> Result<(Queue<Heap>, VecDeque<Newcomer>), QueueError> {
    let (queue, newcomers) = Queue::new(alloc, ids, lines)?;
    Ok((queue, VecDeque::from_vec(newcomers)))
}

// The next of these newcomers.
fn next<R: Abort>(rt: &R, newcomers: &mut VecDeque<Newcomer>) -> Newcomer {
    newcomers.pop_front().expect(rt, "somebody has not come")
}

// A line as it is to stand in the journal: its place and serial, the request, and the reply.
type Wanted = (u16, u64, Request, Reply);

// The journal has exactly these lines.
fn stands<R: Abort, S: Store<Entry>>(rt: &R, book: Book<S, Global>, wanted: &[Wanted]) {
    let lines = book.lines().older;
    assert!(rt; lines.len() == wanted.len());
    for at in 0..lines.len() {
        let line = lines[at];
        let (place, serial, request, reply) = wanted[at];
        let operation = Operation::asked(request);
        assert!(rt;
            (line.place, line.serial, line.operation, line.reply)
                == (place, serial, operation, reply)
        );
    }
    drop(book);
}

// A push of this item.
fn push(priority: u32, value: u32) -> Request {
    Request::Push(Item { priority, value })
}
