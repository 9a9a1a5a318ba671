// Pops of what is due: by a shared handle, and beside a lead that is kept, where they wait and post nothing.
use crate::common::{Heap, shared, wait_for};
use flat_queue::{Looked, Newcomer, Queue, UpTo, Wanted};
use pq_types::{Answer, Item, Reply, Request};
use queue_pool::{SharedHandle, Undone};
use std::alloc::Global;
use std::process::Abort;
use std::sync::atomic::{AtomicBool, Ordering};
use std::sync::{Arc, Wait};
use std::test::Fail;
use std::thread;
use std::thread::Threads;

const FIVE: Item = Item {
    priority: 5,
    value: 1,
};

// How often one yields who lets another thread try in vain.
const WHILE: u32 = 1_000;

// What two threads tell each other: that one leads, that the other has begun its pop, and that the lead is about to end.
#[derive(Drop)]
struct Told {
    leads: AtomicBool,
    pops: AtomicBool,
    ends: AtomicBool,
}

// The first pushes, and keeps the lead for a while; the second pops up to a bound meanwhile: whether all went well.
fn leads_or_pops<R: Abort + Wait>(
    rt: &R,
    queue: &Queue<Heap>,
    newcomer: Newcomer,
    told: &Told,
) -> bool {
    let is_first = newcomer.id() == 1;
    let mut handle = queue.enter(newcomer);
    if !is_first {
        wait_for(&told.leads);
        told.pops.store(true, Ordering::SeqCst);
        let got = handle.pop_up_to(rt, 5);
        return got == Ok((2, UpTo::Got(FIVE))) && told.ends.load(Ordering::SeqCst);
    }
    assert!(rt; handle.push(rt, FIVE) == Ok(1));
    let lead = handle.lead().expect(rt, "the lock is free");
    told.leads.store(true, Ordering::SeqCst);
    wait_for(&told.pops);
    for _ in 0..WHILE {
        thread::yield_now();
    }
    let posted = queue.hint().is_set();
    told.ends.store(true, Ordering::SeqCst);
    handle.release(lead);
    !posted
}

fn pops_beside_a_lead<R: Abort + Threads + Wait + Sync>(rt: &R, alloc: Global) {
    let told = Told {
        leads: AtomicBool::new(false),
        pops: AtomicBool::new(false),
        ends: AtomicBool::new(false),
    };
    let Ok((queue, newcomers)) = Queue::new(alloc, &[1, 2], 2) else {
        panic!(rt; "there is such a queue")
    };
    let went = thread::map_vec(
        rt,
        newcomers,
        &|newcomer: Newcomer| leads_or_pops(rt, &queue, newcomer, &told),
    );
    let Ok(went) = went else {
        panic!(rt; "there is memory")
    };
    assert!(rt; went[0] && went[1]);
    drop(went);
    drop(queue);
}

#[test]
fn a_pop_up_to_a_bound_waits_for_the_lock_and_posts_nothing(rt: HostRuntime) -> Result<(), Fail> {
    pops_beside_a_lead(&rt, rt.alloc());
    Ok(())
}

// What the tries of two members come to that share a queue with room for three lines: none while another leads.
fn tries<R: Abort>(rt: &R, queue: &Queue<Heap>, handle: &mut SharedHandle<Heap>, other: Newcomer) {
    let up_to_five = Wanted::UpTo(5);
    assert!(rt; handle.try_call(Request::Push(FIVE)) == Ok(Answer::Entered(1, Reply::Pushed)));
    let mut leader = queue.enter(other);
    let lead = leader.lead().expect(rt, "the lock is free");
    assert!(rt; handle.try_take_first(up_to_five) == Err(Undone::LockHeld));
    leader.release(lead);
    drop(leader);
    assert!(rt; handle.try_take_first(Wanted::UpTo(4)) == Ok(Looked::Stays(FIVE)));
    assert!(rt; handle.try_take_first(up_to_five) == Ok(Looked::Taken(2, FIVE)));
    assert!(rt; handle.try_take_first(up_to_five) == Ok(Looked::Nothing));
    assert!(rt; handle.try_call(Request::Pop) == Ok(Answer::Entered(3, Reply::Empty)));
    assert!(rt; handle.try_take_first(up_to_five) == Ok(Looked::BookFull));
    assert!(rt; handle.post(Request::Pop).is_ok());
    assert!(rt; handle.try_take_first(up_to_five) == Err(Undone::Waits));
}

#[test]
fn a_shared_handle_takes_the_first_item_up_to_a_bound(rt: HostRuntime) -> Result<(), Fail> {
    let Ok((queue, mut newcomers)) = Queue::new(rt.alloc(), &[1, 2], 3) else {
        panic!(rt; "there is such a queue")
    };
    let Ok(queue) = Arc::new(rt.alloc(), queue) else {
        panic!(rt; "there is memory")
    };
    let other = newcomers.pop().expect(&rt, "there is a second");
    let mut handle = shared(&rt, rt.alloc(), &queue, newcomers);
    tries(&rt, &queue, &mut handle, other);
    drop(handle);
    drop(queue);
    Ok(())
}
