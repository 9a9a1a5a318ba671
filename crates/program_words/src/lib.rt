//! The words of the command line, help, and the plan of a load: what the program is asked to do.
//!
//! To the layer above it promises that a job that is read has its numbers in their ranges, keeps its
//! items in the store that was asked for, and writes a journal only where that can be; that a plan is
//! one of a load; and the exit status where no job is run. What the jobs do stands in other crates.
#![tactic(auto)]

pub mod help;
pub mod lines;
mod options;
pub mod plan;
pub mod words;

pub use plan::{MOST_PUSHES, MOST_ROUNDS, MOST_WORKERS, Plan, PlanError, item_of};
pub use words::{Asked, Job, Usage, read_words};
