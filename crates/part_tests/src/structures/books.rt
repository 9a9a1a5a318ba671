// Worked runs of a Book on each store, one of them full.
ghost use Rattle.std.specs.Prelude.{◌≡◌, []};

use super::KINDS;
use leftist_heap::{AnyStore, Store};
use pq_book::{Book, Entry};
use pq_types::{Answer, Item, Reply, Request};
use std::alloc::{Allocator, Global};
use test_aids::Refusing;

type Lent<'a> = &'a Refusing<Global>;

// A request under a serial, and its answer.
type Asked = (u64, Request, Answer);

// Whether these requests of place 0, whose serials rise, have these answers.
fn answers<S: Store<Entry>, A: Allocator>(book: &mut Book<S, A>, asked: &[Asked]) -> bool {
    for &(serial, request, wanted) in asked {
        let Some(last) = book.last_serial(0) else {
            return false;
        };
        if last >= serial || book.apply(0, serial, request) != wanted {
            return false;
        }
    }
    true
}

const FIVE: Item = Item {
    priority: 5,
    value: 1,
};

const LATE_FIVE: Item = Item {
    priority: 5,
    value: 0,
};

// A push, and what a Book without a line behind it answers.
const FIRST: [Asked; 1] = [(1, Request::Push(FIVE), Answer::Entered(1, Reply::Pushed))];

const FULL: [Asked; 3] = [
    (2, Request::Pop, Answer::BookFull),
    (2, Request::Push(LATE_FIVE), Answer::BookFull),
    (2, Request::Least, Answer::BookFull),
];

// What a Book with a line is asked that is no push.
const NO_PUSHES: [Asked; 4] = [
    (2, Request::Least, Answer::Entered(2, Reply::Least(FIVE))),
    (3, Request::Pop, Answer::Entered(3, Reply::Got(FIVE))),
    (4, Request::Pop, Answer::Entered(4, Reply::Empty)),
    (5, Request::Least, Answer::Entered(5, Reply::Empty)),
];

// A run of a Book with room for so many lines: what it is asked behind a first push, the last serial of its
// place then, and with how many items and lines it goes.
#[derive(Drop)]
struct Run<'a> {
    room: u32,
    then: &'a [Asked],
    last: u64,
    items: usize,
    lines: usize,
}

// Whether a Book answers as the run says, and makes no request for memory behind its first push, nor as it is
// taken apart.
fn plays<S: Store<Entry>, A: Allocator>(
    refusing: Lent,
    mut book: Book<S, A>,
    run: &Run<'_>,
) -> bool {
    let has_first = answers(&mut book, &FIRST);
    let requests = refusing.requests();
    let has_then = answers(&mut book, run.then) && book.last_serial(0) == Some(run.last);
    let (store, _, kept) = book.into_parts();
    let has_gone = store.len() == run.items && kept.len() == run.lines;
    drop(store);
    drop(kept);
    has_first && has_then && has_gone && refusing.requests() == requests
}

// Whether a new Book over this store does.
fn played_over<S: Store<Entry>, A: Allocator>(
    refusing: Lent,
    journal: A,
    store: S,
    run: &Run<'_>,
) -> bool
    requires { S.content store ≡ [] }
{
    match Book::new(journal, store, run.room) {
        Ok(book) => plays(refusing, book, run),
        Err(_) => false,
    }
}

// Whether one over a store of each kind does; its journal makes the one request of its opening, and no more.
fn played(alloc: Global, run: &Run<'_>) -> bool {
    for &kind in &KINDS {
        let journal = Refusing::nothing(alloc);
        let items = Refusing::nothing(alloc);
        let has_played = played_over(&items, &journal, AnyStore::new(&items, kind), run);
        if !has_played || journal.requests() != 1 {
            return false;
        }
    }
    true
}

#[test]
fn a_full_book_answers_so_and_asks_for_no_memory(rt: HostRuntime) {
    let full = FULL;
    let run = Run {
        room: 1,
        then: &full,
        last: 1,
        items: 1,
        lines: 1,
    };
    assert!(rt; played(rt.alloc(), &run));
}

#[test]
fn pops_and_leasts_ask_for_no_memory(rt: HostRuntime) {
    // Far more room than lines: whoever gives what is free back asks for a smaller block.
    let no_pushes = NO_PUSHES;
    let run = Run {
        room: 100,
        then: &no_pushes,
        last: 5,
        items: 0,
        lines: 5,
    };
    assert!(rt; played(rt.alloc(), &run));
}
