// A store that has room for all lines asks for no memory any more.
use crate::queue::{Wanted, stands};
use flat_queue::{CallError, Handle, Queue};
use leftist_heap::{ReservedHeap, Store};
use pq_book::Entry;
use pq_types::{Item, Reply, Request};
use std::process::Abort;
use std::sync::Wait;
use std::test::Fail;
use test_aids::Refusing;

const PUSH: Request = Request::Push(Item {
    priority: 5,
    value: 1,
});

const PUSHED: [Wanted; 9] = [
    (0, 1, PUSH, Reply::Pushed),
    (0, 2, PUSH, Reply::Pushed),
    (0, 3, PUSH, Reply::Pushed),
    (0, 4, PUSH, Reply::Pushed),
    (0, 5, PUSH, Reply::Pushed),
    (0, 6, PUSH, Reply::Pushed),
    (0, 7, PUSH, Reply::Pushed),
    (0, 8, PUSH, Reply::Pushed),
    (0, 9, PUSH, Reply::Pushed),
];

// Pushes until the journal is full.
fn fills<R: Abort + Wait, S: Store<Entry>>(rt: &R, mut handle: Handle<'_, S>) {
    assert!(rt; handle.place() == 0);
    for line in 1..=9u64 {
        assert!(rt; handle.call(rt, PUSH) == Ok((line, Reply::Pushed)));
    }
    assert!(rt; handle.call(rt, PUSH) == Err(CallError::BookFull));
    drop(handle);
}

#[test]
fn each_push_within_the_room_of_the_store_is_entered(rt: HostRuntime) -> Result<(), Fail> {
    let refusing = Refusing::onwards(rt.alloc(), 2);
    let store = ReservedHeap::<Entry, _, 9>::new(&refusing)?;
    let (queue, mut newcomers) = Queue::with_store(rt.alloc(), &[7], store, 9)?;
    let newcomer = newcomers.pop().expect(&rt, "one may come");
    fills(&rt, queue.enter(newcomer));
    let book = queue.close().expect(&rt, "the lock is free");
    stands(&rt, book, &PUSHED);
    assert!(rt; refusing.requests() == 1);
    Ok(())
}
