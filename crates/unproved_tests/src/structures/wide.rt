// A Book, queues and a pool of items whose parts have 64 bits.
use flat_queue::{Called, Handle, Looked, Newcomer, Queue, UpTo, Wanted};
use leftist_heap::{Leftist, SortedVec};
use pq_book::{Book, BookError, Entry};
use pq_types::{Answer, Item, Line, Operation, Reply, Request};
use queue_pool::{Pool, StillOpen};
use std::alloc::Global;
use std::mem::size_of;
use std::process::Abort;
use std::sync::{Arc, Wait};
use std::test::Fail;

type Heap = Leftist<Entry<u64>, Global>;

type WideBook = Book<Heap, Global, u64>;

type WideHandle<'q> = Handle<'q, Heap, u64>;

const ZERO: Item<u64> = Item {
    priority: 0,
    value: u64::MAX,
};

const GREATEST: Item<u64> = Item {
    priority: u64::MAX,
    value: 0,
};

// Their priorities differ in the lower halves alone, or in the upper halves alone.
const ONE: Item<u64> = Item {
    priority: 1,
    value: 2,
};

const ONE_AGAIN: Item<u64> = Item {
    priority: 1,
    value: 5,
};

const UPPER_ONE: Item<u64> = Item {
    priority: 4_294_967_296,
    value: 1,
};

const BOTH_ONE: Item<u64> = Item {
    priority: 4_294_967_297,
    value: 4,
};

const UPPER_TWO: Item<u64> = Item {
    priority: 8_589_934_592,
    value: 3,
};

const PUSHED: [Item<u64>; 7] = [
    UPPER_ONE, ZERO, GREATEST, ONE, UPPER_TWO, BOTH_ONE, ONE_AGAIN,
];

const POPPED: [Item<u64>; 7] = [
    ZERO, ONE, ONE_AGAIN, UPPER_ONE, BOTH_ONE, UPPER_TWO, GREATEST,
];

// The reply that the next request has from such a Book.
fn reply(
    book: &mut WideBook,
    serial: u64,
    request: Request<Item<u64>>,
) -> Option<Reply<Item<u64>>> {
    match book.apply(0, serial, request) {
        Answer::Entered(line, reply) if line == serial => Some(reply),
        _ => None,
    }
}

#[test]
fn a_wide_book_gives_wide_items_in_their_order(rt: HostRuntime) {
    let store = Leftist::new(rt.alloc());
    let book: Result<WideBook, BookError> = Book::new(rt.alloc(), store, 14);
    assert!(rt; book.is_ok());
    let Ok(mut book) = book else {
        return;
    };
    let mut serial = 0;
    for pushed in &PUSHED {
        serial += 1;
        assert!(rt; reply(&mut book, serial, Request::Push(*pushed)) == Some(Reply::Pushed));
    }
    assert!(rt; book.first() == Some(ZERO));
    for popped in &POPPED {
        serial += 1;
        assert!(rt; reply(&mut book, serial, Request::Pop) == Some(Reply::Got(*popped)));
    }
    assert!(rt; book.apply(0, 15, Request::Pop) == Answer::BookFull);
    assert!(rt; book.lines().older.len() == 14 && book.last_serial(0) == Some(14));
}

#[test]
fn entries_and_lines_have_their_sizes(rt: HostRuntime) {
    assert!(rt; size_of::<Entry>() == 16 && size_of::<Entry<u64>>() == 24);
    assert!(rt; size_of::<Line<u64>>() == 64);
}

// The members of the first two newcomers.
fn both<'q, R: Abort>(
    rt: &R,
    queue: &'q Queue<Heap, u64>,
    newcomers: Vec<Newcomer>,
) -> (WideHandle<'q>, WideHandle<'q>) {
    let mut newcomers = newcomers;
    let (Some(second), Some(first)) = (newcomers.pop(), newcomers.pop()) else {
        panic!(rt; "there are two newcomers")
    };
    (queue.enter(first), queue.enter(second))
}

// Pushes of two members by turns, and pops of the first.
fn all_pass<R: Abort + Wait>(rt: &R, members: (WideHandle<'_>, WideHandle<'_>)) {
    let (mut first, mut second) = members;
    let mut line = 0;
    for pushed in &PUSHED {
        line += 1;
        let member = if line % 2 == 0 {
            &mut first
        } else {
            &mut second
        };
        assert!(rt; member.push(rt, *pushed) == Ok(line));
    }
    for popped in &POPPED {
        line += 1;
        assert!(rt; second.least(rt) == Ok((line, Some(*popped))));
        line += 1;
        assert!(rt; first.pop(rt) == Ok((line, Some(*popped))));
    }
    assert!(rt; second.pop(rt) == Ok((22, None)));
    drop(first);
    drop(second);
}

#[test]
fn a_wide_queue_gives_wide_items_in_their_order(rt: HostRuntime) -> Result<(), Fail> {
    let (queue, newcomers) = Queue::wide(rt.alloc(), &[4, 5], 22)?;
    all_pass(&rt, both(&rt, &queue, newcomers));
    let book = queue.close().expect(&rt, "the lock is free");
    assert!(rt; book.len() == 22);
    drop(book);
    Ok(())
}

// What the first member posts, and the second serves, by a round of its own.
fn served<'q, R: Abort>(
    rt: &R,
    members: (WideHandle<'q>, WideHandle<'q>),
    request: Request<Item<u64>>,
    wanted: (u64, Reply<Item<u64>>),
) -> (WideHandle<'q>, WideHandle<'q>) {
    let (first, mut second) = members;
    let pending = first.post(request);
    assert!(rt; matches!(second.try_trail_round(), Some(round) if round.served == 1));
    let Called::Answered(first, line, reply) = pending.look() else {
        panic!(rt; "the request is answered")
    };
    assert!(rt; (line, reply) == wanted);
    (first, second)
}

// A post has both words of its item, and so has an answer.
#[test]
fn wide_posts_are_served_by_another(rt: HostRuntime) -> Result<(), Fail> {
    let (queue, newcomers) = Queue::wide(rt.alloc(), &[4, 5], 8)?;
    let asked = [
        (Request::Push(GREATEST), Reply::Pushed),
        (Request::Push(ZERO), Reply::Pushed),
        (Request::Push(BOTH_ONE), Reply::Pushed),
        (Request::Least, Reply::Least(ZERO)),
        (Request::Pop, Reply::Got(ZERO)),
        (Request::Pop, Reply::Got(BOTH_ONE)),
        (Request::Pop, Reply::Got(GREATEST)),
        (Request::Pop, Reply::Empty),
    ];
    let mut members = both(&rt, &queue, newcomers);
    let mut line = 0;
    for (request, reply) in asked {
        line += 1;
        members = served(&rt, members, request, (line, reply));
    }
    drop(members);
    drop(queue);
    Ok(())
}

// Bounds that differ in the upper halves alone, and in the lower ones.
fn takes_up_to<R: Abort + Wait>(rt: &R, mut handle: WideHandle<'_>) {
    for pushed in [BOTH_ONE, UPPER_ONE, GREATEST] {
        assert!(rt; handle.push(rt, pushed).is_ok());
    }
    assert!(rt; handle.pop_up_to(rt, 4_294_967_295) == Ok((4, UpTo::Later(UPPER_ONE))));
    assert!(rt; handle.pop_up_to(rt, 4_294_967_296) == Ok((5, UpTo::Got(UPPER_ONE))));
    assert!(rt; handle.pop_up_to(rt, 1) == Ok((6, UpTo::Later(BOTH_ONE))));
    assert!(rt; handle.take(rt) == Ok((7, BOTH_ONE)));
    assert!(rt; handle.pop_up_to(rt, u64::MAX - 1) == Ok((8, UpTo::Later(GREATEST))));
    assert!(rt; handle.pop_up_to(rt, u64::MAX) == Ok((9, UpTo::Got(GREATEST))));
    assert!(rt; handle.pop_up_to(rt, u64::MAX) == Ok((10, UpTo::Empty)));
    drop(handle);
}

#[test]
fn wide_items_are_taken_up_to_a_bound_of_64_bits(rt: HostRuntime) -> Result<(), Fail> {
    let (queue, mut newcomers) = Queue::wide(rt.alloc(), &[4], 10)?;
    takes_up_to(
        &rt,
        queue.enter(newcomers.pop().expect(&rt, "one may come")),
    );
    drop(queue);
    Ok(())
}

// Over another store: the lines of a lasting queue, archived and closed.
#[test]
fn a_lasting_wide_queue_keeps_wide_lines(rt: HostRuntime) -> Result<(), Fail> {
    let store = SortedVec::new(rt.alloc());
    let (queue, mut newcomers) = Queue::wide_lasting(rt.alloc(), &[4], store)?;
    let mut handle = queue.enter(newcomers.pop().expect(&rt, "one may come"));
    assert!(&rt; handle.push(&rt, GREATEST) == Ok(1));
    assert!(&rt; handle.pop(&rt) == Ok((2, Some(GREATEST))));
    let mut archive = Vec::new(rt.alloc());
    assert!(&rt; handle.archive(0, &mut archive) == Some(Ok(2)));
    drop(handle);
    let line = |serial, request, reply| Line {
        serial,
        operation: Operation::asked(request),
        reply,
        place: 0,
    };
    let wanted = [
        line(1, Request::Push(GREATEST), Reply::Pushed),
        line(2, Request::Pop, Reply::Got(GREATEST)),
    ];
    assert!(&rt; archive.as_slice() == &wanted[..]);
    let book = queue.close().expect(&rt, "the lock is free");
    assert!(&rt; book.lines().older == &wanted[..]);
    drop(book);
    drop(archive);
    Ok(())
}

// The pool of a wide queue of one member.
fn pool_of_one<R: Abort>(rt: &R, alloc: Global) -> Pool<Heap, u64> {
    let Ok((queue, newcomers)) = Queue::wide(alloc, &[4], 8) else {
        panic!(rt; "there is such a queue")
    };
    let Ok(queue) = Arc::new(alloc, queue) else {
        panic!(rt; "there is memory")
    };
    let Ok(pool) = Pool::of(alloc, queue, newcomers) else {
        panic!(rt; "there is memory")
    };
    pool
}

// At once, by a post that comes back unanswered, and up to a bound.
#[test]
fn a_pool_hands_out_a_member_of_a_wide_queue(rt: HostRuntime) -> Result<(), Fail> {
    let mut pool = pool_of_one(&rt, rt.alloc());
    let Ok(mut member) = pool.take() else {
        panic!(&rt; "it is in the pool")
    };
    let pushed = Answer::Entered(1, Reply::Pushed);
    assert!(&rt; member.try_call(Request::Push(GREATEST)) == Ok(pushed));
    assert!(&rt; member.post(Request::Push(UPPER_ONE)).is_ok());
    pool.give_back(member);
    let Ok(mut member) = pool.take() else {
        panic!(&rt; "it comes out by a round of its own")
    };
    assert!(&rt;
        member.try_take_first(Wanted::UpTo(4_294_967_295)) == Ok(Looked::Stays(UPPER_ONE))
    );
    assert!(&rt;
        member.try_take_first(Wanted::UpTo(4_294_967_296)) == Ok(Looked::Taken(3, UPPER_ONE))
    );
    pool.give_back(member);
    match pool.close() {
        Ok(book) => {
            assert!(&rt; book.len() == 3);
            drop(book);
        }
        Err(StillOpen::Missing(pool)) => {
            drop(pool);
            panic!(&rt; "it is back")
        }
        Err(StillOpen::Shared(pool)) => {
            drop(pool);
            panic!(&rt; "nobody shares it")
        }
    }
    Ok(())
}
