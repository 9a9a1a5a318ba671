// A heap in one array whose room is part of its type.
ghost use Rattle.std.specs.Prelude.{◌≡◌, [], IfOk};

use crate::places::NoPlaces;
use crate::store::Store;
use crate::ticket_heap::TicketHeap;
use crate::ticket_store::HasTicket;
use std::alloc::{AllocError, Allocator};
use std::marker::Model;

/// A heap in one array that has room for `ROOM` items from the start, so that no push takes memory
/// while there are fewer. Contracts see it as the ascending list of its items; since its room is
/// part of its type, whoever is generic over stores can rely on it.
#[derive(Drop)]
pub struct ReservedHeap<T: HasTicket, A: Allocator, const ROOM: usize> {
    heap: TicketHeap<T, NoPlaces, A>,
}

impl<T: HasTicket, A: Allocator, const ROOM: usize> Model for ReservedHeap<T, A, ROOM> {
    ghost use Rattle.std.specs.Prelude.{List, ◌≤◌};

    ghost Value = { List T };

    ghost view = { λ h. h.heap.items };

    ghost invariant = { λ h. ROOM ≤ h.heap.room };
}

impl<T: HasTicket, A: Allocator, const ROOM: usize> ReservedHeap<T, A, ROOM> {
    /// A heap with no items. All memory that `ROOM` items need is taken here.
    pub fn new(alloc: A) -> Result<Self, AllocError>
        ensures { IfOk result (λ heap. heap ≡ []) }
    {
        let heap = TicketHeap::with_capacity(alloc, NoPlaces, ROOM)?;
        Ok(ReservedHeap { heap })
    }
}

impl<T: HasTicket, A: Allocator, const ROOM: usize> Store<T> for ReservedHeap<T, A, ROOM> {
    ghost content = { λ h. h };

    ghost room = { λ _. ROOM };

    fn push(&mut self, item: T) -> Result<(), T> {
        self.heap.push(item)
    }

    fn pop(&mut self) -> Option<T> {
        self.heap.pop()
    }

    fn least(&self) -> Option<&T> {
        self.heap.least()
    }

    fn len(&self) -> usize {
        self.heap.len()
    }

    fn is_empty(&self) -> bool {
        self.heap.is_empty()
    }
}
