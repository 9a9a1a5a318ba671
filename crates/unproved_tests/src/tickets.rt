// Removals and moves by ticket: by a member, by a shared handle, beside a lead that is kept, and where the journal is full.
use crate::common::{item, shared};
use flat_queue::{CallError, Newcomer, Queue};
use leftist_heap::{GlobalPlaces, TicketHeap};
use pq_book::Entry;
use pq_types::{Answer, Item, Reply, Request};
use queue_pool::{SharedHandle, Undone};
use std::alloc::Global;
use std::process::Abort;
use std::sync::Arc;
use std::test::Fail;

type Heap = TicketHeap<Entry, GlobalPlaces, Global>;

// A queue with tickets, whose journal has room for so many lines, and its two newcomers.
fn opened<R: Abort>(rt: &R, alloc: Global, lines: u32) -> (Queue<Heap>, Vec<Newcomer>) {
    let store = TicketHeap::new(alloc, GlobalPlaces::bare(alloc));
    let Ok(opened) = Queue::with_store(alloc, &[1, 2], store, lines) else {
        panic!(rt; "there is such a queue")
    };
    opened
}

// An item moves behind all of its new priority, its new ticket alone finds it, and what is removed or popped is gone.
#[test]
fn an_item_is_moved_and_removed_by_its_newest_ticket(rt: HostRuntime) -> Result<(), Fail> {
    let (queue, mut newcomers) = opened(&rt, rt.alloc(), 11);
    let mut member = queue.join(newcomers.pop().expect(&rt, "there is one"));
    assert!(&rt; queue.push(&rt, &mut member, item(5, 1)) == Ok(1));
    assert!(&rt; queue.push(&rt, &mut member, item(7, 2)) == Ok(2));
    assert!(&rt; queue.push(&rt, &mut member, item(9, 3)) == Ok(3));
    assert!(&rt; queue.reschedule(&rt, &mut member, 1, 7) == Ok((4, Some(item(5, 1)))));
    assert!(&rt; queue.reschedule(&rt, &mut member, 1, 0) == Ok((5, None)));
    assert!(&rt; queue.pop(&rt, &mut member) == Ok((6, Some(item(7, 2)))));
    assert!(&rt; queue.remove(&rt, &mut member, 2) == Ok((7, None)));
    assert!(&rt; queue.remove(&rt, &mut member, 3) == Ok((8, Some(item(9, 3)))));
    assert!(&rt; queue.remove(&rt, &mut member, 1) == Ok((9, None)));
    assert!(&rt; queue.pop(&rt, &mut member) == Ok((10, Some(item(7, 1)))));
    assert!(&rt; queue.remove(&rt, &mut member, 4) == Ok((11, None)));
    assert!(&rt; queue.remove(&rt, &mut member, 4) == Err(CallError::BookFull));
    assert!(&rt; queue.reschedule(&rt, &mut member, 4, 1) == Err(CallError::BookFull));
    Ok(())
}

fn got(number: u64, found: Item) -> Result<Answer, Undone> {
    Ok(Answer::Entered(number, Reply::Got(found)))
}

// What a handle's uses of tickets come to, beside another that leads, in a queue that is shut, and at its own request.
fn tries<R: Abort>(rt: &R, queue: &Queue<Heap>, handle: &mut SharedHandle<Heap>, other: Newcomer) {
    assert!(rt;
        handle.try_call(Request::Push(item(5, 1))) == Ok(Answer::Entered(1, Reply::Pushed))
    );
    let mut leader = queue.enter(other);
    let lead = leader.lead().expect(rt, "the lock is free");
    assert!(rt; handle.try_reschedule(1, 3) == Err(Undone::LockHeld));
    assert!(rt; handle.try_remove(1) == Err(Undone::LockHeld));
    leader.release(lead);
    drop(leader);
    assert!(rt; handle.try_shut() == Ok(Answer::Entered(2, Reply::Empty)));
    assert!(rt; handle.try_reschedule(1, 3) == got(3, item(5, 1)));
    assert!(rt; handle.try_remove(3) == got(4, item(3, 1)));
    assert!(rt; handle.try_remove(3) == Ok(Answer::Entered(5, Reply::Empty)));
    assert!(rt; handle.post(Request::Pop).is_ok());
    assert!(rt; handle.try_remove(2) == Err(Undone::Waits));
    assert!(rt; handle.try_reschedule(2, 3) == Err(Undone::Waits));
}

#[test]
fn a_shared_handle_moves_and_removes_in_a_queue_that_is_shut(rt: HostRuntime) -> Result<(), Fail> {
    let (queue, mut newcomers) = opened(&rt, rt.alloc(), 9);
    let Ok(queue) = Arc::new(rt.alloc(), queue) else {
        panic!(&rt; "there is memory")
    };
    let other = newcomers.pop().expect(&rt, "there is a second");
    let mut handle = shared(&rt, rt.alloc(), &queue, newcomers);
    tries(&rt, &queue, &mut handle, other);
    drop(handle);
    drop(queue);
    Ok(())
}
