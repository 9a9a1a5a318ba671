// Why a run has no outcome.
use flat_queue::{CallError, QueueError};
use pq_book::BookError;
use std::fmt;

/// Why a run has no outcome.
#[derive(Clone, Copy)]
pub enum BenchError {
    /// The queue was not opened.
    Queue(QueueError),
    /// The Book was not opened.
    Book(BookError),
    /// A call has no reply.
    Call(CallError),
    /// The Book was not at home when the queue was closed.
    LockHeld,
    /// The clock could not be read.
    Clock,
    /// Memory was refused.
    NoMemory,
}

impl fmt::Display for BenchError {
    fn fmt<W: fmt::Write>(&self, f: &mut fmt::Formatter<W>) -> fmt::Result {
        match self {
            BenchError::Queue(error) => write!(f, "opening: {error}"),
            BenchError::Book(error) => write!(f, "opening: {error}"),
            BenchError::Call(error) => write!(f, "call: {error}"),
            BenchError::LockHeld => f.write_str("closing: lock held"),
            BenchError::Clock => f.write_str("no clock"),
            BenchError::NoMemory => f.write_str("no memory"),
        }
    }
}
