// A count of the items under the lock, and a peek at the first one.
use crate::common::{Heap, item, opened, shared};
use flat_queue::{Counts, Newcomer, Peeked, Queue};
use pq_types::{Answer, Item, Reply, Request};
use queue_pool::{SharedHandle, Undone};
use std::process::Abort;
use std::sync::Arc;
use std::test::Fail;

fn pushed(number: u64) -> Answer {
    Answer::Entered(number, Reply::Pushed)
}

fn counted(items: u64, peak: u64) -> Counts {
    Counts { items, peak }
}

// It counts what was posted before, also where the journal is full, and makes no request.
#[test]
fn a_count_has_each_item_that_is_there(rt: HostRuntime) -> Result<(), Fail> {
    let Ok((queue, mut newcomers)) = Queue::new(rt.alloc(), &[1, 2], 3) else {
        panic!(&rt; "there is such a queue")
    };
    let mut member = queue.join(newcomers.pop().expect(&rt, "there is one"));
    let mut other = queue.join(newcomers.pop().expect(&rt, "there is one"));
    assert!(&rt; queue.count_items(&mut member) == Some(counted(0, 0)));
    assert!(&rt; queue.push(&rt, &mut member, item(5, 1)) == Ok(1));
    queue.post(&mut other, Request::Push(item(5, 1)));
    assert!(&rt; queue.count_items(&mut member) == Some(counted(2, 2)));
    assert!(&rt; queue.look(&mut other) == Some(pushed(2)));
    assert!(&rt; queue.carry_out(&mut other, Request::Pop).is_some());
    assert!(&rt; queue.count_items(&mut member) == Some(counted(1, 2)) && member.posts() == 1);
    let lead = queue.lead(&mut other).expect(&rt, "the lock is free");
    assert!(&rt; queue.count_items(&mut member).is_none());
    queue.release(&mut other, lead);
    Ok(())
}

fn seen(first: Option<Item>, entries: u64) -> Peeked {
    Peeked { first, entries }
}

// It finds what was posted before, also where the journal is full and the queue shut, and makes no request.
#[test]
fn a_peek_finds_the_first_item(rt: HostRuntime) -> Result<(), Fail> {
    let Ok((queue, mut newcomers)) = Queue::new(rt.alloc(), &[1, 2], 3) else {
        panic!(&rt; "there is such a queue")
    };
    let mut member = queue.join(newcomers.pop().expect(&rt, "there is one"));
    let mut other = queue.join(newcomers.pop().expect(&rt, "there is one"));
    assert!(&rt; queue.peek(&mut member) == Some(seen(None, 0)));
    assert!(&rt; queue.push(&rt, &mut member, item(5, 1)) == Ok(1));
    queue.post(&mut other, Request::Push(item(4, 2)));
    assert!(&rt; queue.peek(&mut member) == Some(seen(Some(item(4, 2)), 2)));
    assert!(&rt; queue.look(&mut other) == Some(pushed(2)));
    assert!(&rt; queue.carry_out_shut(&mut other).is_some());
    assert!(&rt; queue.peek(&mut member) == Some(seen(Some(item(4, 2)), 3)) && member.posts() == 1);
    let lead = queue.lead(&mut other).expect(&rt, "the lock is free");
    assert!(&rt; queue.peek(&mut member).is_none());
    queue.release(&mut other, lead);
    Ok(())
}

// What a member's counts and peeks come to, beside another that leads, and at its own request.
fn tries<R: Abort>(rt: &R, queue: &Queue<Heap>, handle: &mut SharedHandle<Heap>, other: Newcomer) {
    assert!(rt; handle.post(Request::Push(item(5, 1))).is_ok());
    assert!(rt;
        handle.try_count() == Err(Undone::Waits) && handle.try_peek() == Err(Undone::Waits)
    );
    assert!(rt; handle.try_trail_round().is_some() && handle.look() == Ok(pushed(1)));
    assert!(rt; handle.try_count() == Ok(counted(1, 1)));
    assert!(rt; handle.try_peek() == Ok(seen(Some(item(5, 1)), 1)));
    let mut leader = queue.enter(other);
    let lead = leader.lead().expect(rt, "the lock is free");
    assert!(rt; handle.try_count() == Err(Undone::LockHeld));
    assert!(rt; handle.try_peek() == Err(Undone::LockHeld));
    leader.release(lead);
    drop(leader);
}

#[test]
fn a_shared_handle_counts(rt: HostRuntime) -> Result<(), Fail> {
    let (queue, mut newcomers) = opened(&rt, rt.alloc(), &[1, 2]);
    let Ok(queue) = Arc::new(rt.alloc(), queue) else {
        panic!(&rt; "there is memory")
    };
    let other = newcomers.pop().expect(&rt, "there is a second");
    let mut handle = shared(&rt, rt.alloc(), &queue, newcomers);
    tries(&rt, &queue, &mut handle, other);
    drop(handle);
    drop(queue);
    Ok(())
}
