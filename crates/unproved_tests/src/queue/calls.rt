// Calls of one member or two: each line and reply, and what is left where they end.
use crate::queue::{Heap, Wanted, next, opened, push, stands};
use flat_queue::{CallError, Handle, Newcomer, Queue, UpTo};
use leftist_heap::Store;
use pq_book::Entry;
use pq_types::{GREATEST_SERIAL, Item, Reply, Request};
use std::process::Abort;
use std::sync::Wait;
use std::test::Fail;

const FIVE: Item = Item {
    priority: 5,
    value: 1,
};

const CALL_LINES: [Wanted; 6] = [
    (0, 1, Request::Push(FIVE), Reply::Pushed),
    (0, 2, Request::Least, Reply::Least(FIVE)),
    (0, 3, Request::Pop, Reply::Got(FIVE)),
    (0, 4, Request::Pop, Reply::Empty),
    (0, 5, Request::Least, Reply::Empty),
    (0, 6, Request::Pop, Reply::Empty),
];

// Makes each call, and no more.
fn calls<R: Abort + Wait, S: Store<Entry>>(rt: &R, mut handle: Handle<'_, S>) {
    assert!(rt; handle.push(rt, FIVE) == Ok(1));
    assert!(rt; handle.least(rt) == Ok((2, Some(FIVE))));
    assert!(rt; handle.pop(rt) == Ok((3, Some(FIVE))));
    assert!(rt; handle.pop(rt) == Ok((4, None)));
    assert!(rt; handle.least(rt) == Ok((5, None)));
    assert!(rt; handle.call(rt, Request::Pop) == Ok((6, Reply::Empty)));
    assert!(rt; handle.place() == 0);
    drop(handle);
}

// The second newcomer makes each call. They stand in the journal of the queue, which is closed by the first,
// who has only just joined.
#[test]
fn each_call_tells_its_line_and_its_reply(rt: HostRuntime) -> Result<(), Fail> {
    let (queue, mut newcomers) = opened(rt.alloc(), &[7, 8], 6)?;
    let first = next(&rt, &mut newcomers);
    calls(&rt, queue.enter(next(&rt, &mut newcomers)));
    let member = queue.join(first);
    assert!(rt; member.is_idle());
    let member = queue.seat(member).into_member();
    let book = queue.close_with(member).expect(&rt, "the lock is free");
    stands(&rt, book, &CALL_LINES);
    Ok(())
}

const UP_TO_LINES: [Wanted; 5] = [
    (0, 1, Request::Push(FIVE), Reply::Pushed),
    (0, 2, Request::Least, Reply::Least(FIVE)),
    (0, 3, Request::Pop, Reply::Got(FIVE)),
    (0, 4, Request::Pop, Reply::Empty),
    (1, 1, Request::Push(FIVE), Reply::Pushed),
];

// A bound below the item, at it, and on the empty queue; then none of the calls has a line.
fn pops_up_to<R: Abort + Wait, S: Store<Entry>>(
    rt: &R,
    first: &mut Handle<'_, S>,
    second: &mut Handle<'_, S>,
) {
    assert!(rt; first.push(rt, FIVE) == Ok(1));
    assert!(rt; first.pop_up_to(rt, 4) == Ok((2, UpTo::Later(FIVE))));
    assert!(rt; first.pop_up_to(rt, 5) == Ok((3, UpTo::Got(FIVE))));
    assert!(rt; first.pop_up_to(rt, u32::MAX) == Ok((4, UpTo::Empty)));
    assert!(rt; second.push(rt, FIVE) == Ok(5));
    assert!(rt; second.pop_up_to(rt, 4) == Err(CallError::BookFull));
}

#[test]
fn a_pop_up_to_a_bound_takes_out_what_is_due(rt: HostRuntime) -> Result<(), Fail> {
    let (queue, mut newcomers) = opened(rt.alloc(), &[7, 8], 5)?;
    let mut first = queue.enter(next(&rt, &mut newcomers));
    let mut second = queue.enter(next(&rt, &mut newcomers));
    pops_up_to(&rt, &mut first, &mut second);
    drop(first);
    drop(second);
    let book = queue.close().expect(&rt, "the lock is free");
    stands(&rt, book, &UP_TO_LINES);
    Ok(())
}

// The newcomer joins, posts, and outlives the queue.
fn outlives<R: Abort>(rt: &R, queue: Queue<Heap>, newcomer: Newcomer) {
    assert!(rt; newcomer.id() == 7);
    let mut member = queue.join(newcomer);
    assert!(rt; member.is_idle());
    assert!(rt; member.posts() < GREATEST_SERIAL);
    queue.post(&mut member, push(1, 0));
    drop(queue);
    assert!(rt; member.id() == 7 && member.place() == 0);
    assert!(rt; member.posts() == 1 && !member.is_idle());
    drop(member);
}

#[test]
fn members_outlive_a_queue_that_is_dropped(rt: HostRuntime) -> Result<(), Fail> {
    let (queue, mut newcomers) = opened(rt.alloc(), &[7], 4)?;
    outlives(&rt, queue, next(&rt, &mut newcomers));
    Ok(())
}
