//! Stores of the combining priority queue: the trait `Store`, the sorted vector, which is the
//! queue's definition as a plain program, the leftist heap, and a heap in one array. From a
//! `TicketStore` an item is removed by its ticket, wherever it waits: the heap in one array does
//! so, and may keep the place of each ticket beside it.
//!
//! To the layer above it promises that each call of a store is the queue's rule on an ascending
//! list, that a refused push changes nothing, and that no push is refused while there is room. Of
//! the leftist heap it promises besides that a merge compares at most as many items as the two
//! ranks add up to, and that a rank is at most 32; of the heap in one array, that a push makes at
//! most 12 comparisons, and a pop 96.
#![tactic(auto)]

pub mod any_store;
pub mod exact;
pub mod flat_places;
pub mod global_places;
pub mod leftist;
mod node;
pub mod places;
mod placing;
pub mod reserved_heap;
mod sifting;
pub mod sorted_vec;
pub mod steps;
pub mod store;
pub mod ticket_heap;
pub mod ticket_store;
pub mod tree_places;

pub use any_store::{AnyStore, StoreKind};
pub use exact::Exact;
pub use flat_places::FlatPlaces;
pub use global_places::GlobalPlaces;
pub use leftist::Leftist;
pub use places::{NoPlaces, Places};
pub use reserved_heap::ReservedHeap;
pub use sorted_vec::SortedVec;
pub use steps::Steps;
pub use store::{MOST_ITEMS, Store};
pub use ticket_heap::TicketHeap;
pub use ticket_store::{HasTicket, TicketStore};
pub use tree_places::{Level, TreePlaces};
