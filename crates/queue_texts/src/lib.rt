//! The texts of the queue: commands, answers and journal lines, the scripts that the program plays,
//! and the audit of a journal that is text.
//!
//! To the layer above it promises that a line of text is read as the one command, or journal line,
//! that it spells; of each script of `seq` and `walk`, that the text written is the definition's text
//! of what was read, and that a run that ends early says why, by a reason with a number, an exit
//! status and one line of text; and of an audit, both ways, that it reports exactly where the text is
//! a lawful journal: one whose lines are numbered 1, 2, 3 and so on, whose serials rise at each place,
//! whose replies are those of the queue of one thread, and which has no push and no other shut after
//! a shut. Nothing here knows of threads.
#![tactic(auto)]

pub mod answer_text;
pub mod audit;
pub mod command;
mod content;
mod events;
pub mod faults;
pub mod item_text;
pub mod journal_writing;
pub mod laws;
pub mod line_reading;
pub mod line_text;
pub mod number;
pub mod orders;
pub mod owned;
pub mod refusal;
pub mod replay;
pub mod report;
pub mod seq;
mod sums;
pub mod walk;

pub use answer_text::write_answer;
pub use audit::run_audit;
pub use command::{ScriptError, read_command};
pub use faults::{Refusal, code_of, status_of, write_fault};
pub use item_text::read_item;
pub use journal_writing::write_journal;
pub use line_reading::{LineError, NumberedLine, read_line};
pub use line_text::{LONGEST_ENTRY, append_line};
pub use number::{NumberError, read_number};
pub use orders::{OrderError, ScanKind};
pub use owned::Owned;
pub use refusal::{AuditRefusal, Breach, Unlawful};
pub use replay::{Replay, ReplayError};
pub use report::{AuditReport, write_audit_report};
pub use seq::run_seq;
pub use walk::run_walk;
