// A Book that a leader keeps for good.
use crate::queue::{next, opened};
use announce_board::LockHeld;
use flat_queue::Handle;
use leftist_heap::Store;
use pq_book::Entry;
use pq_types::Request;
use std::process::Abort;
use std::test::Fail;

// It leads and keeps the Book for good, which has no line.
fn keeps<R: Abort, S: Store<Entry>>(rt: &R, mut handle: Handle<'_, S>) {
    let lead = handle.lead().expect(rt, "the lock is free");
    drop(handle);
    let book = lead.into_book();
    assert!(rt; book.len() == 0);
    drop(book);
}

// It finds the lock held whatever it tries, and uses no serial.
fn finds_lock_held<R: Abort, S: Store<Entry>>(rt: &R, mut handle: Handle<'_, S>) {
    assert!(rt; handle.try_round().is_none());
    assert!(rt; handle.try_call(Request::Pop).is_none());
    assert!(rt; handle.posts() == 0);
    drop(handle);
}

// The first keeps the Book for good, and then the second finds the lock held. The Book is nobody else's, and the queue
// can't be closed for it.
#[test]
fn a_book_that_is_kept_is_not_in_the_closed_queue(rt: HostRuntime) -> Result<(), Fail> {
    let (queue, mut newcomers) = opened(rt.alloc(), &[1, 2, 3], 4)?;
    keeps(&rt, queue.enter(next(&rt, &mut newcomers)));
    finds_lock_held(&rt, queue.enter(next(&rt, &mut newcomers)));
    assert!(rt; queue.close().err() == Some(LockHeld));
    Ok(())
}
