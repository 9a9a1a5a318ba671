// Why a load has no report, and the number and the exit status of each reason.
ghost use Rattle.std.specs.Prelude.{◌≡◌};
ghost use Rattle.queue_load.specs.LoadFaults.{worker_code, load_code, load_status};

use flat_queue::CallError;
use pq_types::Refusal;
use std::io;
use std::io::Write;
use thiserror::Error;

/// Why a worker ended before all its requests were answered. No worker posts so often that its
/// place has no serial left.
#[derive(Clone, Copy, Debug, PartialEq, Eq, Error)]
pub enum WorkerError {
    /// Memory for its push was refused.
    #[error("no memory")]
    NoMemory,
    /// The journal has no room for its request.
    #[error("book full")]
    BookFull,
    /// Its gate gave up before the answer came. A worker of the program's own loads never does so.
    #[error("gave up")]
    GaveUp,
    /// The queue's rules refuse its request. The queues of loads never do so: they are plain, and nobody
    /// shuts them.
    #[error("refused by the queue's rules")]
    Refused(Refusal),
}

impl WorkerError {
    /// The number of this reason: 9, 10, 12, or 51 to 53.
    pub fn code(&self) -> u32
        ensures { result ≡ worker_code self.now }
    {
        match self {
            WorkerError::NoMemory => 9,
            WorkerError::BookFull => 10,
            WorkerError::GaveUp => 12,
            WorkerError::Refused(refusal) => CallError::Refused(*refusal).code(),
        }
    }
}

/// Why a load has no report.
#[derive(Clone, Copy, Debug, PartialEq, Eq, Error)]
pub enum LoadError {
    /// Memory for the queue, or for a list of its workers or of their members, was refused.
    #[error("no memory")]
    NoMemory,
    /// The start of a thread was refused.
    #[error("no thread")]
    NoThread,
    /// The worker of this id ended early. That none of a lesser id did is tested.
    #[error("{reason}")]
    Worker { id: u64, reason: WorkerError },
}

impl LoadError {
    /// The number of this reason: 6, 13, or that of the worker's reason.
    pub fn code(&self) -> u32
        ensures { result ≡ load_code self.now }
    {
        match self {
            LoadError::NoMemory => 6,
            LoadError::NoThread => 13,
            LoadError::Worker { id: _, reason } => reason.code(),
        }
    }

    /// The exit status of a load that ended so: 4 where memory was refused, else 5.
    pub fn status(&self) -> u8
        ensures { result ≡ load_status self.now }
    {
        match self {
            LoadError::NoMemory => 4,
            LoadError::Worker {
                id: _,
                reason: WorkerError::NoMemory,
            } => 4,
            _ => 5,
        }
    }
}

/// Writes the one line that tells why there is no report.
pub fn write_load_fault<W: Write>(error: &LoadError, writer: &mut W) -> io::Result<()> {
    writeln!(writer, "flatpq: {error}")
}
