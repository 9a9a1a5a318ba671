//! The Book of the combining priority queue: a store of items and the journal of the requests, removals,
//! moves and shuts that it carried out.
//!
//! To the layer above it promises that the content and the replies of a Book are those of its
//! journal on a queue of one thread; that `apply`, `apply_by_ticket` and `apply_shut` add one line or
//! nothing; and that journal and limits decide what they refuse, but for memory. Of a long journal
//! memory holds the last lines alone.
#![tactic(auto)]

pub mod book;
pub mod entry;
pub mod forgotten;
pub mod laws;
pub mod limit;
pub mod lines;
pub mod pages;

pub use book::{Book, BookError};
pub use entry::Entry;
pub use lines::{LastLines, LinesError};
