//! A load of the queue: workers in threads of their own push and pop on one queue, which is then
//! closed, and a report tells what they were answered and what is left.
//!
//! To the layer above it promises, of a load that has a report: each worker pushed its own items and
//! popped as often as the plan says, the same in each of its rounds, and all of it was entered in the
//! journal, which has no other line; the report's numbers are those of the workers' answers and of the closed
//! Book; and its audit, the comparison of these numbers, is ok. A load without a report says why: memory, a
//! thread, or a worker that ended early. A load that is watched does the same in slices, between which it tells how
//! far it is, and writes the journal down, however long that is: exactly the text of the Book's journal, or,
//! where that fails, a beginning of it, and then it says so.
#![tactic(auto)]

mod asks;
mod audit;
mod journal_writer;
mod leftover;
pub mod load;
pub mod load_faults;
mod points;
pub mod report;
mod slices;
mod tally;
mod threads;
pub mod watched;
pub mod width;
mod worker;

pub use asks::{Asks, Order};
pub use load::{load_report, run_load, run_load_of};
pub use load_faults::{LoadError, WorkerError, write_load_fault};
pub use report::{Report, write_report};
pub use slices::{FailedLoad, Watch};
pub use watched::{WatchedLoad, run_watched, run_watched_of, watched_report};
pub use width::Width;
pub use worker::EndedWorker;
