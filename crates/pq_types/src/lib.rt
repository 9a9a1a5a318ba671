//! The vocabulary of the combining priority queue: its items, what is asked of it, what it answers,
//! the lines of its journal, and the two words by which threads post requests and collect answers.
//!
//! To the layer above it promises that the two words of a record are read as the one mail that they
//! are. Nothing here takes memory. The texts of all of these are `queue_texts`'.
#![tactic(auto)]

pub mod answer;
pub mod control;
pub mod item;
pub mod journal;
pub mod laws;
pub mod mail;
pub mod operation;
pub mod part;
pub mod request;
pub mod ticketed;

pub use answer::{Answer, PaddedRefusal, Refusal, Reply};
pub use control::{Control, Kind, Notice, Outcome};
pub use item::Item;
pub use journal::{GREATEST_NUMBER, GREATEST_SERIAL, Line, MOST_LINES};
pub use mail::Mail;
pub use operation::{Done, Operation};
pub use part::Part;
pub use request::Request;
pub use ticketed::{Deed, Ticketed};
