// Why there is no queue, and why a call has no reply.
ghost use Rattle.std.specs.Prelude.{◌≡◌};
ghost use Rattle.flat_queue.specs.Calling.{call_code, refusal_code};
ghost use Rattle.flat_queue.specs.Opening.{queue_code};

use pq_types::Refusal;
use split_core::ids::IdError;
use thiserror::Error;

/// Why there is no queue.
#[derive(Clone, Copy, Debug, PartialEq, Eq, Error)]
pub enum QueueError {
    /// The ids open no grid.
    #[error("{0}")]
    Comers(IdError),
    /// A journal has room for 1 to 1,048,576 lines.
    #[error("lines out of range")]
    LinesOutOfRange,
    /// Memory was refused.
    #[error("no memory")]
    NoMemory,
}

impl QueueError {
    /// The number of this refusal: that of the ids' fault, 1 to 4, or 5 or 6.
    pub fn code(&self) -> u32
        ensures { result ≡ queue_code self.now }
    {
        match self {
            QueueError::Comers(fault) => fault.code(),
            QueueError::LinesOutOfRange => 5,
            QueueError::NoMemory => 6,
        }
    }
}

/// Why an archive was not brought up to date.
#[derive(Clone, Copy, Debug, PartialEq, Eq, Error)]
pub enum ArchiveError {
    /// The first line that it lacks is forgotten.
    #[error("lines forgotten")]
    Forgotten,
    /// Memory for the lines was refused.
    #[error("no memory")]
    NoMemory,
    /// It is said to have more lines than the journal has.
    #[error("more lines than the journal has")]
    Ahead,
}

/// Why a call has no reply.
#[derive(Clone, Copy, Debug, PartialEq, Eq, Error)]
pub enum CallError {
    /// Memory for a push was refused. The request has no line, and the member is idle.
    #[error("no memory")]
    NoMemory,
    /// The journal is full, and stays so. The request has no line, and the member is idle.
    #[error("book full")]
    BookFull,
    /// The member has made as many requests as it may, and makes no more: 16,777,215 at a queue whose
    /// journal has room for 1,048,576 lines at most, else 2^56. Nothing was done.
    #[error("posts spent")]
    Spent,
    /// The gate said to give up. The request stays posted, and the member waits: a later look
    /// finds its answer.
    #[error("gave up")]
    GaveUp,
    /// The queue's rules refuse it. It is a push, or a shut, and the queue is shut; it is a push, and the queue has
    /// as many items as its bound; or its line would have memory forget one that is not archived. It has no
    /// line, and the member is idle.
    #[error("refused by the queue's rules")]
    Refused(Refusal),
}

impl CallError {
    /// The number of this refusal: 9 to 12, or 51 to 53.
    pub fn code(&self) -> u32
        ensures { result ≡ call_code self.now }
    {
        match self {
            CallError::NoMemory => 9,
            CallError::BookFull => 10,
            CallError::Spent => 11,
            CallError::GaveUp => 12,
            CallError::Refused(refusal) => refusal_code(*refusal),
        }
    }
}

// The number of a refusal by the queue's rules.
fn refusal_code(refusal: Refusal) -> u32
    ensures { result ≡ refusal_code refusal }
{
    match refusal {
        Refusal::Shut => 51,
        Refusal::Unarchived => 52,
        Refusal::Full => 53,
    }
}
