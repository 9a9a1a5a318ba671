// What a call of the machine tells of a step, and why one is refused.
ghost use Rattle.std.specs.Prelude.{◌≡◌};
ghost use Rattle.split_core.specs.Calls.{step_code};

use thiserror::Error;

/// What a step did. Places are numbered.
#[derive(Clone, Copy, PartialEq, Eq, Debug)]
pub enum Seen {
    /// Its id stands in LAST of this place.
    Wrote(u16),
    /// The door of this place is open.
    SawOpen(u16),
    /// The door of the first place is closed: it went right, to the second.
    Right(u16, u16),
    /// It closed the door of this place.
    Closed(u16),
    /// It has stopped at this place.
    Stopped(u16),
    /// At the first place it read this id, another's: it went down, to the second place.
    Down(u16, u64, u16),
    /// Its scan read the door of this place. `over`: that was the scan's last.
    Door {
        place: u16,
        closed: bool,
        over: bool,
    },
}

/// Why a comer takes no step.
#[derive(Clone, Copy, Debug, PartialEq, Eq, Error)]
pub enum StepError {
    #[error("unknown id")]
    UnknownId,
    #[error("already stopped")]
    AlreadyStopped,
    #[error("not stopped")]
    NotStopped,
}

impl StepError {
    /// The number of this refusal.
    pub fn code(&self) -> u32
        ensures { result ≡ step_code self.now }
    {
        match self {
            StepError::UnknownId => 23,
            StepError::AlreadyStopped => 24,
            StepError::NotStopped => 25,
        }
    }
}
