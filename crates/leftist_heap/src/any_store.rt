// A store whose kind is chosen when it is made.
ghost use Rattle.std.specs.Prelude.{◌≡◌, []};
ghost use Rattle.leftist_heap.specs.AnyStore.{items_in, room_in, kind_of};

use crate::leftist::Leftist;
use crate::places::NoPlaces;
use crate::sorted_vec::SortedVec;
use crate::store::Store;
use crate::ticket_heap::TicketHeap;
use crate::ticket_store::HasTicket;
use std::alloc::Allocator;

/// The kinds of store that a program may choose among.
#[derive(Clone, Copy, Debug, PartialEq, Eq)]
pub enum StoreKind {
    /// A leftist heap: a push takes memory for one box.
    Leftist,
    /// A heap in one array: a push takes memory where there is no room.
    Array,
    /// A sorted vector: a push moves every item that is not above the new one.
    Sorted,
}

/// A store of a kind that is chosen when it is made. Whatever the kind, it answers the same: each
/// call is that of the store in it, with the memory and the time that this one takes.
#[derive(Drop)]
pub enum AnyStore<T: HasTicket, A: Allocator + Clone> {
    Leftist(Leftist<T, A>),
    Array(TicketHeap<T, NoPlaces, A>),
    Sorted(SortedVec<T, A>),
}

impl<T: HasTicket, A: Allocator + Clone> AnyStore<T, A> {
    /// A store of this kind with no items. Takes no memory.
    pub fn new(alloc: A, kind: StoreKind) -> Self
        ensures empty { items_in result ≡ [] }
        ensures kind { kind_of result ≡ kind }
    {
        match kind {
            StoreKind::Leftist => AnyStore::Leftist(Leftist::new(alloc)),
            StoreKind::Array => AnyStore::Array(TicketHeap::new(alloc, NoPlaces)),
            StoreKind::Sorted => AnyStore::Sorted(SortedVec::new(alloc)),
        }
    }

    /// Its kind. Takes no memory.
    pub fn kind(&self) -> StoreKind
        ensures { result ≡ kind_of self.now }
    {
        match self {
            AnyStore::Leftist(_) => StoreKind::Leftist,
            AnyStore::Array(_) => StoreKind::Array,
            AnyStore::Sorted(_) => StoreKind::Sorted,
        }
    }
}

impl<T: HasTicket, A: Allocator + Clone> Store<T> for AnyStore<T, A> {
    ghost content = { items_in };

    ghost room = { room_in };

    fn push(&mut self, item: T) -> Result<(), T> {
        match self {
            AnyStore::Leftist(heap) => Store::push(heap, item),
            AnyStore::Array(heap) => heap.push(item),
            AnyStore::Sorted(items) => items.push(item),
        }
    }

    fn pop(&mut self) -> Option<T> {
        match self {
            AnyStore::Leftist(heap) => Store::pop(heap),
            AnyStore::Array(heap) => heap.pop(),
            AnyStore::Sorted(items) => items.pop(),
        }
    }

    fn least(&self) -> Option<&T> {
        match self {
            AnyStore::Leftist(heap) => heap.least(),
            AnyStore::Array(heap) => heap.least(),
            AnyStore::Sorted(items) => items.least(),
        }
    }

    fn len(&self) -> usize {
        match self {
            AnyStore::Leftist(heap) => heap.len(),
            AnyStore::Array(heap) => heap.len(),
            AnyStore::Sorted(items) => items.len(),
        }
    }

    fn is_empty(&self) -> bool {
        match self {
            AnyStore::Leftist(heap) => heap.is_empty(),
            AnyStore::Array(heap) => heap.is_empty(),
            AnyStore::Sorted(items) => items.is_empty(),
        }
    }
}
