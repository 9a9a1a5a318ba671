// Why a run ends before its script is played.
use std::fmt;
use thiserror::Error;

/// Why a run ended before its script was played to the end. A player ends one by the first reason or by want of memory alone.
#[derive(Clone, Copy, Debug, PartialEq, Eq, Error)]
#[error_bound(R: fmt::Display)]
pub enum RunError<R> {
    /// The player refused a line, or the end of the script.
    #[error("{0}")]
    Refused(R),
    /// The line with this number, counted from 1, has more bytes than the player takes.
    #[error("line {line}: line too long")]
    TooLong { line: u64 },
    /// Memory was refused.
    #[error("no memory")]
    NoMemory,
    /// A read failed.
    #[error("input failed")]
    Input,
    /// A write failed.
    #[error("output failed")]
    Output,
}
