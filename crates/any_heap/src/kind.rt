// The two kinds of heap.

use leftist_heap::{GlobalPlaces, HasTicket, NoPlaces, TicketHeap};
use std::alloc::Global;

/// A heap that keeps the places of tickets, or one that doesn't.
#[derive(Drop)]
pub enum Kind<T: HasTicket> {
    Plain(TicketHeap<T, NoPlaces, Global>),
    Ticketed(TicketHeap<T, GlobalPlaces, Global>),
}
