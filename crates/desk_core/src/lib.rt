//! The combining desk as a pure machine (flat combining: Hendler, Incze, Shavit and Tzafrir 2010):
//! threads post requests in publication records, and whoever wins the lock answers them.
//!
//! It has the desk's states, its fourteen kinds of step, each a load, a store or a compare and exchange
//! of one word, and what holds in every interleaving of them. To the layer above it promises, for
//! every run, that the journal is a legal history in which each request stands once, that each
//! pen's answers are lines of it, that no half-written record is ever read, and that a leader which
//! reads a place and answers what it finds posted there leaves the post answered.
#![tactic(auto)]

pub mod laws;
pub mod model;

pub use model::{Call, Due, Duty, PenState, Standing, View, Word};
