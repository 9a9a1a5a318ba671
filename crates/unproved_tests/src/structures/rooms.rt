// Room that is kept: what is reserved, and what is refused.
use super::gives_all;
use leftist_heap::{MOST_ITEMS, NoPlaces, ReservedHeap, Store, TicketHeap};
use std::alloc::{Allocator, Global};
use test_aids::Refusing;

// Pushes these items, and then one that is refused and comes back; whether all of it came so, and
// the items made no request for memory.
fn fills<A: Allocator, S: Store<u32>>(
    refusing: &Refusing<A>,
    store: &mut S,
    items: &[u32],
) -> bool {
    let requests = refusing.requests();
    for item in items {
        if store.len() >= MOST_ITEMS as usize || store.push(*item).is_err() {
            return false;
        }
    }
    refusing.requests() == requests && store.len() < MOST_ITEMS as usize && store.push(7) == Err(7)
}

const FALLING: [u32; 8] = [80, 70, 60, 50, 40, 30, 20, 10];

const RISING: [u32; 8] = [10, 20, 30, 40, 50, 60, 70, 80];

// Whether a store with room for eight items has it from the start, and keeps it.
fn keeps_room_for_eight<A: Allocator, S: Store<u32>>(refusing: &Refusing<A>, mut store: S) -> bool {
    for _ in 0..3 {
        if !fills(refusing, &mut store, &FALLING) || !gives_all(&mut store, &RISING) {
            return false;
        }
    }
    true
}

// Whether a heap in one array does.
fn array_keeps_room<A: Allocator>(refusing: &Refusing<Global>, alloc: A) -> bool {
    match TicketHeap::with_capacity(alloc, NoPlaces, 8) {
        Ok(heap) => heap.capacity() == 8 && keeps_room_for_eight(refusing, heap),
        Err(_) => false,
    }
}

// Whether one does whose room is part of its type.
fn reserved_keeps_room(refusing: &Refusing<Global>) -> bool {
    match ReservedHeap::<u32, _, 8>::new(refusing) {
        Ok(heap) => keeps_room_for_eight(refusing, heap),
        Err(_) => false,
    }
}

#[test]
fn pushes_within_the_room_take_no_memory(rt: HostRuntime) {
    let refusing = Refusing::onwards(rt.alloc(), 2);
    assert!(rt; array_keeps_room(&refusing, &refusing));
    let refusing = Refusing::onwards(rt.alloc(), 2);
    assert!(rt; reserved_keeps_room(&refusing));
}

#[test]
fn room_is_asked_for_at_once_and_may_be_refused(rt: HostRuntime) {
    let refusing = Refusing::onwards(rt.alloc(), 1);
    assert!(rt; TicketHeap::<u32, _, _>::with_capacity(&refusing, NoPlaces, 1).is_err());
    assert!(rt; ReservedHeap::<u32, _, 1>::new(&refusing).is_err());
    assert!(rt; refusing.requests() == 2);
}
