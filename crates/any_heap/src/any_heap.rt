// A heap in one array of which it is chosen when it is made whether it keeps the places of tickets.
ghost use Rattle.std.specs.Prelude.{◌≡◌, []};

use crate::kind::Kind;
use leftist_heap::{GlobalPlaces, HasTicket, NoPlaces, Store, TicketHeap, TicketStore};
use std::alloc::Global;
use std::marker::Model;

/// A heap in one array that keeps the places of tickets or doesn't. Contracts see it as the ascending list of its items, and as the
/// number of items that the array has room for: each call is that of the heap in it.
#[derive(Drop)]
pub struct AnyHeap<T: HasTicket> {
    kind: Kind<T>,
}

impl<T: HasTicket> Model for AnyHeap<T> {
    ghost use Rattle.leftist_heap.specs.Holding.{Holding};
    ghost use Rattle.any_heap.specs.Kinds.{held_in};

    ghost Value = { Holding T };

    ghost view = { λ h. held_in h.kind };
}

impl<T: HasTicket> AnyHeap<T> {
    /// A heap with no items. Where it keeps the places of tickets a removal takes no longer than a pop, and pushes and pops take a
    /// little longer; else a removal looks at every item. Takes no memory.
    pub fn new(alloc: Global, has_places: bool) -> Self
        ensures { result.items ≡ [] }
    {
        let kind = if has_places {
            Kind::Ticketed(TicketHeap::new(alloc, GlobalPlaces::bare(alloc)))
        } else {
            Kind::Plain(TicketHeap::new(alloc, NoPlaces))
        };
        AnyHeap { kind }
    }
}

impl<T: HasTicket> Store<T> for AnyHeap<T> {
    ghost content = { λ h. h.items };

    ghost room = { λ h. h.room };

    #[inline(always)]
    fn push(&mut self, item: T) -> Result<(), T> {
        match &mut self.kind {
            Kind::Plain(heap) => heap.push(item),
            Kind::Ticketed(heap) => heap.push(item),
        }
    }

    #[inline(always)]
    fn pop(&mut self) -> Option<T> {
        match &mut self.kind {
            Kind::Plain(heap) => heap.pop(),
            Kind::Ticketed(heap) => heap.pop(),
        }
    }

    fn least(&self) -> Option<&T> {
        match &self.kind {
            Kind::Plain(heap) => heap.least(),
            Kind::Ticketed(heap) => heap.least(),
        }
    }

    fn len(&self) -> usize {
        match &self.kind {
            Kind::Plain(heap) => heap.len(),
            Kind::Ticketed(heap) => heap.len(),
        }
    }

    fn is_empty(&self) -> bool {
        match &self.kind {
            Kind::Plain(heap) => heap.is_empty(),
            Kind::Ticketed(heap) => heap.is_empty(),
        }
    }
}

impl<T: HasTicket> TicketStore<T> for AnyHeap<T> {
    fn remove(&mut self, ticket: u64) -> Option<T> {
        match &mut self.kind {
            Kind::Plain(heap) => heap.remove(ticket),
            Kind::Ticketed(heap) => heap.remove(ticket),
        }
    }

    fn find(&self, ticket: u64) -> Option<&T> {
        match &self.kind {
            Kind::Plain(heap) => heap.find(ticket),
            Kind::Ticketed(heap) => heap.find(ticket),
        }
    }
}
