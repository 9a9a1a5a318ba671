// Members in threads, which post or enter at once, beside comers that halt on their way: each line and reply that a thread was
// told stands in the closed journal, at that line, with its place.
use crate::queue::{Heap, push};
use flat_queue::{Arrival, CallError, Handle, Newcomer, Queue};
use leftist_heap::Store;
use pq_book::{Book, Entry};
use pq_types::{Item, Line, Operation, Reply, Request};
use std::alloc::{AllocError, Global};
use std::process::Abort;
use std::sync::Wait;
use std::test::Fail;
use std::thread;
use std::thread::Threads;

const IDS: [u64; 8] = [31, 7, 13, 5, 2, 99, 41, u64::MAX];

const PUSHES: u32 = 100;

// How the comers of a queue come: whether they enter where they may, and how many of them call; those of ids above 30, where
// not all do, halt on their way. And whether the others make batches.
#[derive(Clone, Copy)]
struct Manner {
    may_try: bool,
    callers: usize,
    in_batches: bool,
}

// The number of a line, and the line.
type Told = (u64, Line);

// Makes this request by a call; but where it is to try, it enters at once if it finds the lock free.
fn tries_or_calls<R: Abort + Wait, S: Store<Entry>>(
    rt: &R,
    handle: &mut Handle<'_, S>,
    request: Request,
    is_to_try: bool,
) -> Result<(u64, Reply), CallError> {
    if is_to_try {
        let asked = request;
        if let Some(told) = handle.try_call(asked) {
            return told;
        }
    }
    handle.call(rt, request)
}

// Makes the request of this number, the pops behind the pushes, by a call; but where it may try, and the
// number is even, it enters at once if it finds the lock free.
fn calls<R: Abort + Wait, S: Store<Entry>>(
    rt: &R,
    handle: &mut Handle<'_, S>,
    number: u32,
    may_try: bool,
) -> Told {
    let request = if number > PUSHES {
        Request::Pop
    } else {
        push(number % 7, number)
    };
    let asked = request;
    let told = tries_or_calls(rt, handle, asked, may_try && number % 2 == 0);
    let (at, reply) = told.expect(rt, "the journal has room");
    let line = Line {
        place: handle.place(),
        serial: u64::from(number),
        operation: Operation::asked(request),
        reply,
    };
    (at, line)
}

// The newcomer takes so many steps of its way down the grid, or fewer where it has stopped before, and never goes on.
fn halts<S: Store<Entry>>(queue: &Queue<S>, newcomer: Newcomer, steps: u32) {
    let mut going = newcomer;
    for _ in 0..steps {
        match queue.join_step(going) {
            Arrival::Going(newcomer) => going = newcomer,
            Arrival::Here(member) => {
                drop(member);
                return;
            }
        }
    }
    drop(going);
}

// Keeps the line of a request of its own, of this serial.
fn keeps<R: Abort>(rt: &R, all: &mut Vec<Told>, number: u64, line: Line) {
    all.push((number, line)).ok().expect(rt, "there is memory");
}

// Pushes these items by one batch, and keeps their lines.
fn pushes_all<R: Abort + Wait, S: Store<Entry>>(
    rt: &R,
    handle: &mut Handle<'_, S>,
    items: &[Item],
    all: &mut Vec<Told>,
) {
    let (place, serial) = (handle.place(), handle.posts() + 1);
    let batch = handle.push_all(rt, items);
    assert!(rt; batch.done == items.len() && batch.refused.is_none());
    for (at, item) in items.iter().enumerate() {
        let line = Line {
            place,
            serial: serial + at as u64,
            operation: Operation::asked(Request::Push(*item)),
            reply: Reply::Pushed,
        };
        keeps(rt, all, batch.first + at as u64, line);
    }
}

// Takes as many items out as there is room, by one batch, and keeps their lines.
fn pops_all<R: Abort + Wait, S: Store<Entry>>(
    rt: &R,
    handle: &mut Handle<'_, S>,
    slots: &mut [Item],
    all: &mut Vec<Told>,
) {
    let (place, serial) = (handle.place(), handle.posts() + 1);
    let batch = handle.pop_all_up_to(rt, u32::MAX, slots);
    assert!(rt; batch.done == slots.len() && batch.refused.is_none());
    for (at, item) in slots.iter().enumerate() {
        let line = Line {
            place,
            serial: serial + at as u64,
            operation: Operation::asked(Request::Pop),
            reply: Reply::Got(*item),
        };
        keeps(rt, all, batch.first + at as u64, line);
    }
}

// Pushes its items in batches of up to 7, and then takes as many out so. Who pops has pushed as many before, so none finds too few.
fn makes_batches<R: Abort + Wait, S: Store<Entry>>(
    rt: &R,
    handle: &mut Handle<'_, S>,
    all: &mut Vec<Told>,
) {
    let mut items = [Item {
        priority: 0,
        value: 0,
    }; PUSHES as usize];
    for (value, item) in items.iter_mut().enumerate() {
        item.priority = value as u32 % 7;
        item.value = value as u32;
    }
    let mut size = 0;
    let mut done = 0;
    while done < items.len() {
        size = (size % 7 + 1).min(items.len() - done);
        pushes_all(rt, handle, &items[done..done + size], all);
        done += size;
    }
    while done > 0 {
        size = (size % 7 + 1).min(done);
        pops_all(rt, handle, &mut items[..size], all);
        done -= size;
    }
}

// Joins, makes all its calls, and keeps what it is told; or halts after up to 8 steps of its way, and is told nothing.
fn joins_and_calls<R: Abort + Wait, S: Store<Entry>>(
    rt: &R,
    alloc: Global,
    queue: &Queue<S>,
    newcomer: Newcomer,
    manner: Manner,
) -> Vec<Told> {
    let id = newcomer.id();
    if manner.callers < IDS.len() && id > 30 {
        halts(queue, newcomer, (id % 9) as u32);
        return Vec::new(alloc);
    }
    let mut handle = queue.enter(newcomer);
    let mut all = Vec::new(alloc);
    if manner.in_batches && id <= 30 {
        makes_batches(rt, &mut handle, &mut all);
        return all;
    }
    for number in 1..=2 * PUSHES {
        let told = calls(rt, &mut handle, number, manner.may_try);
        all.push(told).ok().expect(rt, "there is memory");
    }
    drop(handle);
    all
}

fn in_threads<R: Abort + Threads + Wait + Sync>(
    rt: &R,
    alloc: Global,
    queue: &Queue<Heap>,
    newcomers: Vec<Newcomer>,
    manner: Manner,
) -> Result<Vec<Vec<Told>>, AllocError> {
    thread::map_vec(
        rt,
        newcomers,
        &|newcomer: Newcomer| { joins_and_calls(rt, alloc, queue, newcomer, manner) },
    )
}

// The lines that these threads were told stand in the journal, and no other.
fn have_lines<R: Abort, S: Store<Entry>>(
    rt: &R,
    book: Book<S, Global>,
    callers: usize,
    given: &[Vec<Told>],
) {
    let lines = book.lines().older;
    assert!(rt; lines.len() == callers.wrapping_mul(2 * PUSHES as usize));
    for told in given {
        for (number, line) in told.as_slice() {
            let at = (*number as usize).wrapping_sub(1);
            assert!(rt; lines.get(at) == Some(line));
        }
    }
    drop(book);
}

// The members of a queue in threads are told the lines that stand in its journal.
fn tells_lines<R: Abort + Threads + Wait + Sync>(
    rt: &R,
    alloc: Global,
    queue: Queue<Heap>,
    newcomers: Vec<Newcomer>,
    manner: Manner,
) {
    let given = in_threads(rt, alloc, &queue, newcomers, manner);
    let given = given.ok().expect(rt, "there is memory");
    let book = queue.close().expect(rt, "the lock is free");
    have_lines(rt, book, manner.callers, given.as_slice());
    drop(given);
}

const CALLS: [(bool, usize, bool); 5] = [
    (false, 8, false),
    (true, 8, false),
    (true, 4, false),
    (false, 8, true),
    (true, 8, true),
];

// Eight threads that push and pop by calls, eight that enter where they find the lock free, and four that do beside four that
// halt; and of eight of the one or the other sort four that make batches.
#[test]
fn all_that_enter_and_post_in_threads_stand_in_the_journal(rt: HostRuntime) -> Result<(), Fail> {
    for (may_try, callers, in_batches) in CALLS {
        let (queue, newcomers) = Queue::new(rt.alloc(), &IDS, 16 * PUSHES)?;
        tells_lines(
            &rt,
            rt.alloc(),
            queue,
            newcomers,
            Manner {
                may_try,
                callers,
                in_batches,
            },
        );
    }
    Ok(())
}
