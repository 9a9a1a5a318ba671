// A Book that is not opened drops its store, and one that goes gives its memory back.
ghost use Rattle.std.specs.Prelude.{◌≡◌, []};

use leftist_heap::{SortedVec, Store};
use linked_list_allocator::LocalHeap;
use pq_book::{Book, BookError, Entry};
use pq_types::{Answer, Item, Reply, Request};
use std::alloc::Allocator;
use std::cell::Cell;
use test_aids::{Refusing, WatchedStore};

// Why a Book over this store is refused.
fn refusal<S: Store<Entry>, A: Allocator>(journal: A, store: S, lines: u32) -> Option<BookError>
    requires { S.content store ≡ [] }
{
    Book::new(journal, store, lines).err()
}

#[test]
fn a_refused_opening_drops_its_store(rt: HostRuntime) {
    const REFUSED: [(u32, BookError, u32); 3] = [
        (0, BookError::LinesOutOfRange, 1),
        (1_048_577, BookError::LinesOutOfRange, 2),
        (10, BookError::NoMemory, 3),
    ];
    let refusing = Refusing::nth(rt.alloc(), 1);
    let drops = Cell::new(0);
    for &(lines, error, count) in &REFUSED {
        let store = WatchedStore::new(SortedVec::new(rt.alloc()), &drops);
        let refused = refusal(&refusing, store, lines);
        assert!(rt;
            refused == Some(error) && drops.get() == count,
            "{lines} lines"
        );
    }
}

const PUSH: Request = Request::Push(Item {
    priority: 5,
    value: 1,
});

// How many bytes of the region are in use while a Book over this store with one item is in it.
fn used_over<S: Store<Entry>>(region: &LocalHeap, store: S) -> usize
    requires { S.content store ≡ [] }
{
    match Book::new(region, store, 8) {
        Ok(mut book) => {
            let is_new = book.last_serial(0) == Some(0);
            if is_new && book.apply(0, 1, PUSH) == Answer::Entered(1, Reply::Pushed) {
                region.used()
            } else {
                0
            }
        }
        Err(_) => 0,
    }
}

#[test]
fn a_book_that_goes_gives_its_memory_back(rt: HostRuntime) {
    let region = LocalHeap::new(rt.alloc(), 4_096).expect(&rt, "there is memory");
    let before = region.used();
    let within = used_over(&region, SortedVec::new(&region));
    assert!(rt; before.saturating_add(320) < within && region.used() == before);
}
