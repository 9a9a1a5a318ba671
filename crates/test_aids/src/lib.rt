//! Aids of the tests, for tests alone: allocators that count and refuse requests for memory,
//! readers and writers that are slow and fail once, and values and stores that count their drops.
#![tactic(auto)]

mod drops;
mod forked;
mod refusing;
mod stores;
mod streams;

pub use drops::Counted;
pub use forked::Forked;
pub use refusing::Refusing;
pub use stores::WatchedStore;
pub use streams::{Fault, SlowReader, SlowWriter};
