// Batches of pushes and pops: their sizes, memory that is refused, shared handles, the end of a queue, and whom they wake.
use crate::common::{Heap, entered, item, opened, shared};
use flat_queue::{Batch, CallError, Handle, Looked, MOST_BATCH, Member, Newcomer, Popped, Queue};
use leftist_heap::{AnyStore, Store, StoreKind};
use pq_book::Entry;
use pq_types::{Answer, Item, Refusal, Reply, Request};
use queue_pool::{SharedHandle, Undone};
use std::alloc::Global;
use std::process::Abort;
use std::sync::{Arc, Wait};
use std::test::Fail;
use test_aids::Refusing;

// What a batch comes to that nothing refuses.
fn whole(done: usize, first: u64) -> Batch {
    Batch {
        done,
        first,
        refused: None,
    }
}

// Of a batch no push was entered, as the queue is shut; a line would have this number.
fn shut_out(first: u64) -> Batch {
    Batch {
        done: 0,
        first,
        refused: Some(CallError::Refused(Refusal::Shut)),
    }
}

// So many items of one priority, which have the values from 0 on.
fn items_of<R: Abort>(rt: &R, alloc: Global, number: usize) -> Vec<Item> {
    let mut items = Vec::new(alloc);
    for value in 0..number {
        items
            .push(item(7, value as u32))
            .ok()
            .expect(rt, "there is memory");
    }
    items
}

// Pushes these items in batches, and takes them out in batches up to their own priority: how many batches of each kind that took.
fn goes_through<R: Abort + Wait>(rt: &R, handle: &mut Handle<'_, Heap>, items: &mut [Item]) -> u32 {
    let mut done = 0;
    let mut batches = 0;
    while done < items.len() {
        let batch = handle.push_all(rt, &items[done..]);
        assert!(rt; batch == whole((items.len() - done).min(MOST_BATCH), done as u64 + 1));
        done += batch.done;
        batches += 1;
    }
    let mut out = 0;
    while out < done {
        let batch = handle.pop_all_up_to(rt, 7, &mut items[out..]);
        assert!(rt; batch == whole((done - out).min(MOST_BATCH), (done + out) as u64 + 1));
        out += batch.done;
    }
    batches
}

#[test]
fn a_batch_carries_out_so_many_at_most(rt: HostRuntime) -> Result<(), Fail> {
    for size in [0, 1, 2, MOST_BATCH - 1, MOST_BATCH, MOST_BATCH + 1] {
        let (queue, mut newcomers) = opened(&rt, rt.alloc(), &[1]);
        let mut handle = entered(&rt, &queue, &mut newcomers);
        let mut items = items_of(&rt, rt.alloc(), size);
        let batches = goes_through(&rt, &mut handle, items.as_mut_slice());
        assert!(&rt; batches as usize == size.div_ceil(MOST_BATCH));
        for (value, item) in items.iter().enumerate() {
            assert!(&rt; item.value as usize == value);
        }
        let lines = handle.posts();
        assert!(&rt; lines as usize == 2 * size && handle.settle() == Some(lines));
    }
    Ok(())
}

// Of four items of two priorities: none is taken out beyond the bound, nor beyond the room; and one that is due and fits is.
#[test]
fn a_batch_of_pops_ends_at_its_bound_or_its_room(rt: HostRuntime) -> Result<(), Fail> {
    for room in 0..6 {
        for (bound, due) in [(4, 0), (5, 2), (8, 2), (9, 4), (u32::MAX, 4)] {
            let (queue, mut newcomers) = opened(&rt, rt.alloc(), &[1]);
            let mut handle = entered(&rt, &queue, &mut newcomers);
            let four = [item(9, 1), item(5, 2), item(9, 3), item(5, 4)];
            let in_order = [item(5, 2), item(5, 4), item(9, 1), item(9, 3)];
            assert!(&rt; handle.push_all(&rt, &four) == whole(4, 1));
            let mut slots = [item(0, 0); 5];
            let done = due.min(room);
            let batch = handle.pop_all_up_to(&rt, bound, &mut slots[..room]);
            assert!(&rt; batch == whole(done, 5) && slots[..done] == in_order[..done]);
            assert!(&rt; slots[done..] == [item(0, 0); 5][done..]);
            assert!(&rt; handle.settle() == Some(4 + done as u64));
        }
    }
    Ok(())
}

// A pop is due at its bound, and not one above it, also where the two differ in their lower halves alone.
#[test]
fn a_wide_queue_has_batches(rt: HostRuntime) -> Result<(), Fail> {
    const BOUND: u64 = u64::MAX - 1;
    let wide = |priority| Item {
        priority,
        value: u64::MAX,
    };
    let (queue, mut newcomers) = Queue::wide(rt.alloc(), &[4], 8)?;
    let mut handle = queue.enter(newcomers.pop().expect(&rt, "there is one"));
    let three = [wide(u64::MAX), wide(BOUND), wide(1 << 40)];
    assert!(&rt; handle.push_all(&rt, &three) == whole(3, 1));
    let mut slots = [wide(0); 3];
    assert!(&rt; handle.pop_all_up_to(&rt, BOUND, &mut slots) == whole(2, 4));
    assert!(&rt; slots == [wide(1 << 40), wide(BOUND), wide(0)]);
    assert!(&rt; handle.settle() == Some(5));
    drop(handle);
    drop(queue);
    Ok(())
}

// Pushes so many items in batches, whatever is refused, and takes them out: whether they come in order, and how often memory was
// refused.
fn bears<R: Abort + Wait, S: Store<Entry>>(rt: &R, handle: &mut Handle<'_, S>) -> u32 {
    const ITEMS: usize = 20;
    let mut items = [item(3, 0); ITEMS];
    for (value, item) in items.iter_mut().enumerate() {
        item.value = value as u32;
    }
    let mut refused = 0;
    let mut done = 0;
    while done < ITEMS {
        let batch = handle.push_all(rt, &items[done..]);
        assert!(rt; batch.first == done as u64 + 1);
        done += batch.done;
        match batch.refused {
            None => assert!(rt; done == ITEMS),
            Some(error) => assert!(rt; error == CallError::NoMemory && done < ITEMS),
        }
        refused += u32::from(batch.refused.is_some());
        // The one that was refused has a serial, and no line.
        assert!(rt; handle.posts() == done as u64 + u64::from(refused));
    }
    let mut slots = [item(0, 0); ITEMS];
    assert!(rt; handle.pop_all_up_to(rt, 3, &mut slots) == whole(ITEMS, 21) && slots == items);
    refused
}

#[test]
fn each_request_of_a_batch_is_refused_in_turn(rt: HostRuntime) -> Result<(), Fail> {
    for kind in [StoreKind::Leftist, StoreKind::Array, StoreKind::Sorted] {
        let mut borne = 0;
        for number in 1..=21 {
            let refusing = Refusing::nth(rt.alloc(), number);
            let store = AnyStore::new(&refusing, kind);
            let (queue, mut newcomers) = Queue::with_store(rt.alloc(), &[1], store, 64)?;
            let mut handle = queue.enter(newcomers.pop().expect(&rt, "there is one"));
            let refused = bears(&rt, &mut handle);
            assert!(&rt; (refused == 1) == refusing.has_refused());
            borne += refused;
            drop(handle);
            drop(queue);
        }
        assert!(&rt; borne >= 2, "{kind:?}");
    }
    Ok(())
}

// So many pops, of which the first one has this line, and what a look finds then.
fn popped(done: usize, first: u64, next: Looked) -> Result<Popped, Undone> {
    Ok(Popped {
        batch: whole(done, first),
        next,
    })
}

// What a member's tries come to, beside another that leads, and at its own request.
fn tries<R: Abort + Wait>(
    rt: &R,
    queue: &Queue<Heap>,
    handle: &mut SharedHandle<Heap>,
    other: Newcomer,
) {
    let two = [item(5, 1), item(4, 2)];
    let mut slots = [item(0, 0); 2];
    assert!(rt; handle.try_push_all(&two) == Ok(whole(2, 1)));
    let mut leader = queue.enter(other);
    let lead = leader.lead().expect(rt, "the lock is free");
    assert!(rt; handle.try_push_all(&two) == Err(Undone::LockHeld));
    assert!(rt; handle.try_pop_all_up_to(5, &mut slots) == Err(Undone::LockHeld));
    leader.release(lead);
    assert!(rt; handle.try_pop_all_up_to(3, &mut slots) == popped(0, 3, Looked::Stays(item(4, 2))));
    assert!(rt; handle.try_pop_all_up_to(4, &mut slots) == popped(1, 3, Looked::Stays(item(5, 1))));
    assert!(rt; slots == [item(4, 2), item(0, 0)]);
    assert!(rt; handle.try_shut() == Ok(Answer::Entered(4, Reply::Empty)));
    assert!(rt; handle.try_push_all(&two) == Ok(shut_out(5)));
    assert!(rt; handle.try_push_all(&[]) == Ok(whole(0, 5)));
    assert!(rt; handle.try_pop_all_up_to(9, &mut slots) == popped(1, 5, Looked::Over));
    assert!(rt; handle.try_pop_all_up_to(9, &mut slots) == popped(0, 6, Looked::Over));
    assert!(rt; slots[0] == item(5, 1) && leader.push_all(rt, &two) == shut_out(6));
    drop(leader);
    assert!(rt; handle.post(Request::Pop).is_ok());
    assert!(rt; handle.try_push_all(&[]) == Err(Undone::Waits));
    assert!(rt; handle.try_pop_all_up_to(9, &mut slots) == Err(Undone::Waits));
    assert!(rt; slots == [item(5, 1), item(0, 0)]);
}

#[test]
fn a_shared_handle_tries_batches(rt: HostRuntime) -> Result<(), Fail> {
    let (queue, mut newcomers) = opened(&rt, rt.alloc(), &[1, 2]);
    let Ok(queue) = Arc::new(rt.alloc(), queue) else {
        panic!(&rt; "there is memory")
    };
    let other = newcomers.pop().expect(&rt, "there is a second");
    let mut handle = shared(&rt, rt.alloc(), &queue, newcomers);
    tries(&rt, &queue, &mut handle, other);
    drop(handle);
    drop(queue);
    Ok(())
}

// A queue of one member with room for so many lines, for whose items so many others wait.
fn awaited<R: Abort>(
    rt: &R,
    alloc: Global,
    lines: u32,
    waiters: u32,
) -> (Queue<Heap>, Member<Heap>) {
    let Ok((queue, mut newcomers)) = Queue::new(alloc, &[1], lines) else {
        panic!(rt; "there is such a queue")
    };
    for _ in 0..waiters {
        queue.waiters().begin_wait();
    }
    let member = queue.join(newcomers.pop().expect(rt, "there is one"));
    (queue, member)
}

// As many pushes as it enters, at most as many as wait, and all where it fills the journal; of pops none but then.
#[test]
fn a_batch_counts_whom_it_wakes(rt: HostRuntime) -> Result<(), Fail> {
    let two = [item(1, 1), item(1, 2)];
    let mut slots = [item(0, 0); 1];
    for (lines, waiting, owed, popped) in [
        (8, 3, 2, 0),
        (8, 1, 1, 0),
        (2, 3, 3, 3),
        (1, 3, 3, 3),
        (3, 3, 2, 3),
    ] {
        let (queue, mut member) = awaited(&rt, rt.alloc(), lines, waiting);
        let batch = queue.carry_out_pushes(&mut member, &two);
        assert!(&rt; batch.is_some() && queue.waiters().owed_wakes() == owed);
        let batch = queue.carry_out_pops(&mut member, 1, &mut slots);
        assert!(&rt; batch.is_some() && queue.waiters().owed_wakes() == popped);
        // One that pushes none wakes nobody, but where the journal is full.
        let batch = queue.carry_out_pushes(&mut member, &[]);
        assert!(&rt; batch.is_some() && queue.waiters().owed_wakes() == popped);
        drop(member);
        drop(queue);
    }
    Ok(())
}
