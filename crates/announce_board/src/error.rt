// Why there is no desk, and why a desk that is closed has no Book.
ghost use Rattle.std.specs.Prelude.{◌≡◌};
ghost use Rattle.announce_board.specs.Opening.{desk_code};

use thiserror::Error;

/// Why there is no desk.
#[derive(Clone, Copy, Debug, PartialEq, Eq, Error)]
pub enum DeskError {
    /// A journal has room for 1 to 1,048,576 lines.
    #[error("lines out of range")]
    LinesOutOfRange,
    /// Memory was refused.
    #[error("no memory")]
    NoMemory,
}

impl DeskError {
    /// The number of this refusal: 5 or 6.
    pub fn code(&self) -> u32
        ensures { result ≡ desk_code self.now }
    {
        match self {
            DeskError::LinesOutOfRange => 5,
            DeskError::NoMemory => 6,
        }
    }
}

/// The lock was held when the desk was closed: the Book is with the pen that led.
#[derive(Clone, Copy, Debug, PartialEq, Eq, Error)]
#[error("lock held")]
pub struct LockHeld;

impl LockHeld {
    /// The number of this refusal.
    pub fn code(&self) -> u32
        ensures { result ≡ 8 }
    {
        8
    }
}
