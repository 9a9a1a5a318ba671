// A table of places with a cell for each ticket.
ghost use Rattle.std.specs.Prelude.{◌≡◌, IfOk};
ghost use Rattle.leftist_heap.specs.Places.{flat_table};

use crate::places::Places;
use std::alloc::{AllocError, Allocator};

/// The places of the tickets below a number that is fixed when the table is made. It takes four
/// bytes a ticket, all at its making.
#[derive(Drop)]
pub struct FlatPlaces<A: Allocator> {
    places: Vec<u32, A>,
}

impl<A: Allocator> FlatPlaces<A> {
    /// A table of so many tickets, counted from 0.
    pub fn new(alloc: A, tickets: usize) -> Result<Self, AllocError> {
        let places = vec![in alloc; 0u32; tickets]?;
        Ok(FlatPlaces { places })
    }
}

impl<A: Allocator> Places for FlatPlaces<A> {
    ghost table = { λ p. flat_table p.places.items };

    fn open(&mut self, ticket: u64) -> bool {
        ticket < self.places.len() as u64
    }

    fn place_of(&self, ticket: u64) -> usize {
        if ticket < self.places.len() as u64 {
            self.places[ticket as usize] as usize
        } else {
            0
        }
    }

    fn mark(&mut self, ticket: u64, place: usize) {
        if ticket < self.places.len() as u64 {
            self.places[ticket as usize] = place as u32;
        }
    }

    fn close(&mut self, _ticket: u64) {}
}
