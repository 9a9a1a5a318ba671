// Why a run ends before its script is played, and the number and the exit status of each ending.
ghost use Rattle.std.specs.Prelude.{◌≡◌};
ghost use Rattle.queue_texts.specs.Faults.{refusal_code, run_code, run_status};

use crate::command::ScriptError;
use crate::orders::OrderError;
use line_script::RunError;
use split_core::ids::IdError;
use split_core::seen::StepError;
use std::io;
use std::io::Write;
use thiserror::Error;

/// What a script is refused for. Lines are counted from 1.
#[derive(Clone, Copy, Debug, PartialEq, Eq, Error)]
pub enum Refusal {
    /// This line is no command of `seq`.
    #[error("line {line}: {reason}")]
    Command { line: u64, reason: ScriptError },
    /// This line is no order of `walk`.
    #[error("line {line}: {reason}")]
    Order { line: u64, reason: OrderError },
    /// The comer of this line takes no step, or reads no door.
    #[error("line {line}: {reason}")]
    Step { line: u64, reason: StepError },
    /// The comer of this line comes after a step or a scan.
    #[error("line {line}: late comer")]
    LateComer { line: u64 },
    /// The comers of a walk open no grid.
    #[error("comers: {0}")]
    Comers(IdError),
}

impl Refusal {
    /// The number of this refusal.
    pub fn code(&self) -> u32
        ensures { result ≡ refusal_code self.now }
    {
        match self {
            Refusal::Command { line: _, reason } => reason.code(),
            Refusal::Order { line: _, reason } => reason.code(),
            Refusal::Step { line: _, reason } => reason.code(),
            Refusal::LateComer { line: _ } => 27,
            Refusal::Comers(error) => error.code(),
        }
    }
}

/// The number of an ending: that of the refusal, 26 for a line that is too long, 6 for memory, 30
/// or 31 for a read or a write.
pub fn code_of(error: &RunError<Refusal>) -> u32
    ensures { result ≡ run_code error.now }
{
    match error {
        RunError::Refused(refusal) => refusal.code(),
        RunError::TooLong { line: _ } => 26,
        RunError::NoMemory => 6,
        RunError::Input => 30,
        RunError::Output => 31,
    }
}

/// The exit status of a run that ended so: 3 where the script is refused, 4 where memory is, and 6
/// after a failed read or write.
pub fn status_of(error: &RunError<Refusal>) -> u8
    ensures { result ≡ run_status error.now }
{
    match error {
        RunError::Refused(_) | RunError::TooLong { line: _ } => 3,
        RunError::NoMemory => 4,
        RunError::Input | RunError::Output => 6,
    }
}

/// Writes the one line that tells why a run ended.
pub fn write_fault<W: Write>(error: &RunError<Refusal>, writer: &mut W) -> io::Result<()> {
    writeln!(writer, "flatpq: {error}")
}
