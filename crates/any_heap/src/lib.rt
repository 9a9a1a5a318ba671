//! A heap in one array of which it is chosen when it is made whether it keeps the places of tickets.
//!
//! To the layer above it promises what every store from which items are removed by ticket does, whichever was chosen.
#![tactic(auto)]

mod any_heap;
mod kind;

pub use any_heap::AnyHeap;
