// Members in the list of those who wait: who is woken by a push, a pop, a leave and a shut, and what each finds as it comes back.
use crate::common::{Heap, item, opened, shared};
use flat_queue::{Entry, Length, Looked, Newcomer, Patience, PushedOr, Queue, RoomWait, Wanted};
use leftist_heap::Leftist;
use pq_types::{Answer, Item, Refusal, Reply, Request};
use queue_pool::{Pool, SharedHandle, Undone};
use std::alloc::Global;
use std::process::Abort;
use std::sync::Arc;
use std::test::Fail;

// The pool of this queue, and two of its members.
fn two_of<R: Abort>(
    rt: &R,
    alloc: Global,
    queue: Queue<Heap>,
    newcomers: Vec<Newcomer>,
) -> (Pool<Heap>, SharedHandle<Heap>, SharedHandle<Heap>) {
    let Ok(queue) = Arc::new(alloc, queue) else {
        panic!(rt; "there is memory")
    };
    let Ok(mut pool) = Pool::of(alloc, queue, newcomers) else {
        panic!(rt; "there is memory")
    };
    let (Ok(first), Ok(second)) = (pool.take(), pool.take()) else {
        panic!(rt; "both are in the pool")
    };
    (pool, first, second)
}

fn two<R: Abort>(rt: &R, alloc: Global) -> (Pool<Heap>, SharedHandle<Heap>, SharedHandle<Heap>) {
    let (queue, newcomers) = opened(rt, alloc, &[1, 2]);
    two_of(rt, alloc, queue, newcomers)
}

// The same of a queue that has one item at most.
fn two_bounded<R: Abort>(
    rt: &R,
    alloc: Global,
) -> (Pool<Heap>, SharedHandle<Heap>, SharedHandle<Heap>) {
    let heap = Leftist::new(alloc);
    let Ok((queue, newcomers)) = Queue::limited(alloc, &[1, 2], heap, Length::Lines(20), Some(1))
    else {
        panic!(rt; "there is such a queue")
    };
    two_of(rt, alloc, queue, newcomers)
}

// It waits for any item under this number, or takes one: what it looked at, and whether it waits.
fn waits<R: Abort>(rt: &R, handle: &mut SharedHandle<Heap>, number: u8) -> (Looked, Entry) {
    let Ok(told) = handle.take_or_wait(number, Wanted::Anything, Patience::Any) else {
        panic!(rt; "the lock is free")
    };
    told
}

// Its push has this line.
fn pushes<R: Abort>(rt: &R, handle: &mut SharedHandle<Heap>, pushed: Item, line: u64) {
    let told = handle.try_call(Request::Push(pushed));
    assert!(rt; told == Ok(Answer::Entered(line, Reply::Pushed)));
}

// The one that waits is woken by a push, and takes the item: the wake is handed out once.
#[test]
fn a_push_wakes_one_of_the_list(rt: HostRuntime) -> Result<(), Fail> {
    let (pool, mut taker, mut pusher) = two(&rt, rt.alloc());
    assert!(&rt; waits(&rt, &mut taker, 5) == (Looked::Nothing, Entry::Waits));
    assert!(&rt; waits(&rt, &mut taker, 9) == (Looked::Nothing, Entry::Waits));
    assert!(&rt; !taker.owes_wakes() && !pusher.owes_wakes());
    pushes(&rt, &mut pusher, item(3, 1), 1);
    assert!(&rt; pusher.owes_wakes() && !taker.owes_wakes());
    assert!(&rt; pusher.take_wakes() == 1 << 5);
    assert!(&rt; !pusher.owes_wakes() && pusher.take_wakes() == 0);
    assert!(&rt; waits(&rt, &mut taker, 5) == (Looked::Taken(2, item(3, 1)), Entry::Out));
    assert!(&rt; taker.take_wakes() == 0);
    pushes(&rt, &mut pusher, item(4, 1), 3);
    assert!(&rt; pusher.take_wakes() == 1 << 9);
    drop(taker);
    drop(pusher);
    drop(pool);
    Ok(())
}

// A push into a full queue waits for room, and is woken by a pop; each other push is carried out.
#[test]
fn a_pop_wakes_a_push_that_waits_for_room(rt: HostRuntime) -> Result<(), Fail> {
    let (pool, mut taker, mut pusher) = two_bounded(&rt, rt.alloc());
    let pushed = |line| Ok(PushedOr::Answered(Answer::Entered(line, Reply::Pushed)));
    assert!(&rt; pusher.push_or_wait(63, item(5, 1), RoomWait::Sleeps) == pushed(1));
    assert!(&rt; pusher.push_or_wait(63, item(5, 2), RoomWait::Sleeps) == Ok(PushedOr::Waits));
    assert!(&rt; pusher.push_or_wait(0, item(5, 3), RoomWait::Listens) == Ok(PushedOr::Waits));
    assert!(&rt; pusher.take_wakes() == 0);
    let popped = Answer::Entered(2, Reply::Got(item(5, 1)));
    assert!(&rt; taker.try_call(Request::Pop) == Ok(popped));
    assert!(&rt; taker.take_wakes() == 1 << 63);
    assert!(&rt; pusher.push_or_wait(63, item(5, 2), RoomWait::Sleeps) == pushed(3));
    assert!(&rt; pusher.take_wakes() == 0);
    drop(taker);
    drop(pusher);
    drop(pool);
    Ok(())
}

// Those of a mask leave the list; where one of them was woken, another is in its place.
#[test]
fn those_of_a_mask_leave_the_list(rt: HostRuntime) -> Result<(), Fail> {
    let (pool, mut taker, mut pusher) = two(&rt, rt.alloc());
    for number in [1, 2, 3] {
        assert!(&rt; waits(&rt, &mut taker, number) == (Looked::Nothing, Entry::Waits));
    }
    pushes(&rt, &mut pusher, item(3, 1), 1);
    assert!(&rt; pusher.take_wakes() == 1 << 1);
    assert!(&rt; taker.leave(1 << 1 | 1 << 60) && taker.take_wakes() == 1 << 2);
    assert!(&rt; pusher.leave(1 << 2 | 1 << 3) && pusher.take_wakes() == 0);
    pushes(&rt, &mut pusher, item(2, 1), 2);
    assert!(&rt; pusher.take_wakes() == 0);
    drop(taker);
    drop(pusher);
    drop(pool);
    Ok(())
}

// A shut wakes all at an empty queue, and each finds it over; a push is refused then, and waits for no room.
#[test]
fn a_shut_wakes_all_of_the_list(rt: HostRuntime) -> Result<(), Fail> {
    let (pool, mut taker, mut pusher) = two_bounded(&rt, rt.alloc());
    for number in [0, 17, 63] {
        assert!(&rt; waits(&rt, &mut taker, number) == (Looked::Nothing, Entry::Waits));
    }
    assert!(&rt; pusher.try_shut() == Ok(Answer::Entered(1, Reply::Empty)));
    assert!(&rt; pusher.take_wakes() == 1 | 1 << 17 | 1 << 63);
    assert!(&rt; waits(&rt, &mut taker, 17) == (Looked::Over, Entry::Out));
    let refused = PushedOr::Answered(Answer::Refused(Refusal::Shut.padded()));
    assert!(&rt; taker.push_or_wait(0, item(1, 1), RoomWait::Sleeps) == Ok(refused));
    assert!(&rt; pusher.take_wakes() == 0 && taker.take_wakes() == 0);
    drop(taker);
    drop(pusher);
    drop(pool);
    Ok(())
}

// Of those who wait for what is due one watches for the first item; an alarm rings for itself. One without patience waits for
// nothing.
#[test]
fn one_of_those_for_what_is_due_watches(rt: HostRuntime) -> Result<(), Fail> {
    let (pool, mut taker, mut pusher) = two(&rt, rt.alloc());
    pushes(&rt, &mut pusher, item(9, 1), 1);
    let stays = Looked::Stays(item(9, 1));
    let wanted = Wanted::UpTo(3);
    let mut asks = |number, patience| taker.take_or_wait(number, wanted, patience);
    assert!(&rt; asks(1, Patience::Due) == Ok((stays, Entry::Watches)));
    assert!(&rt; asks(2, Patience::Due) == Ok((stays, Entry::Waits)));
    assert!(&rt; asks(3, Patience::Alarm) == Ok((stays, Entry::Watches)));
    assert!(&rt; asks(4, Patience::UpTo(3)) == Ok((stays, Entry::Waits)));
    assert!(&rt; asks(5, Patience::Leaves) == Ok((stays, Entry::Out)));
    drop(taker);
    drop(pusher);
    drop(pool);
    Ok(())
}

// Beside a post that is not answered nothing is done, nor where another leads.
#[test]
fn a_member_with_a_post_does_not_wait(rt: HostRuntime) -> Result<(), Fail> {
    let (pool, mut taker, mut pusher) = two(&rt, rt.alloc());
    assert!(&rt; taker.post(Request::Pop).is_ok());
    let told = taker.take_or_wait(1, Wanted::Anything, Patience::Any);
    assert!(&rt; told == Err(Undone::Waits));
    let told = taker.push_or_wait(1, item(1, 1), RoomWait::Sleeps);
    assert!(&rt; told == Err(Undone::Waits));
    assert!(&rt; pusher.try_trail_round().is_some());
    assert!(&rt; taker.look() == Ok(Answer::Entered(1, Reply::Empty)));
    assert!(&rt; waits(&rt, &mut taker, 1) == (Looked::Nothing, Entry::Waits));
    drop(taker);
    drop(pusher);
    drop(pool);
    Ok(())
}

// What the calls come to beside a lead, which keeps them out.
fn tries_beside_a_lead<R: Abort>(
    rt: &R,
    queue: &Queue<Heap>,
    handle: &mut SharedHandle<Heap>,
    other: Newcomer,
) {
    assert!(rt; waits(rt, handle, 1) == (Looked::Nothing, Entry::Waits));
    let mut leader = queue.enter(other);
    let lead = leader.lead().expect(rt, "the lock is free");
    let told = handle.take_or_wait(1, Wanted::Anything, Patience::Leaves);
    assert!(rt; told == Err(Undone::LockHeld) && !handle.leave(1 << 1));
    let told = handle.push_or_wait(1, item(1, 1), RoomWait::Sleeps);
    assert!(rt; told == Err(Undone::LockHeld));
    leader.release(lead);
    assert!(rt; leader.try_call(Request::Push(item(1, 1))).is_some());
    drop(leader);
    assert!(rt; handle.leave(0) && handle.take_wakes() == 0);
    assert!(rt; waits(rt, handle, 1) == (Looked::Taken(2, item(1, 1)), Entry::Out));
}

// A call that found the lock held has done nothing: whoever waited is in the list, and is woken.
#[test]
fn a_lead_keeps_those_who_wait_out(rt: HostRuntime) -> Result<(), Fail> {
    let (queue, mut newcomers) = opened(&rt, rt.alloc(), &[1, 2]);
    let Ok(queue) = Arc::new(rt.alloc(), queue) else {
        panic!(&rt; "there is memory")
    };
    let other = newcomers.pop().expect(&rt, "there is a second");
    let mut handle = shared(&rt, rt.alloc(), &queue, newcomers);
    tries_beside_a_lead(&rt, &queue, &mut handle, other);
    drop(handle);
    drop(queue);
    Ok(())
}
