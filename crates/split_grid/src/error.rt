// Why there is no grid.
ghost use Rattle.std.specs.Prelude.{◌≡◌};
ghost use Rattle.split_grid.specs.Opening.{grid_code};

use split_core::ids::IdError;
use thiserror::Error;

/// Why there is no grid.
#[derive(Clone, Copy, Debug, PartialEq, Eq, Error)]
pub enum GridError {
    /// The ids open no grid.
    #[error("{0}")]
    Comers(IdError),
    /// A grid of n comers has n(n + 1)/2 places, and each has one value.
    #[error("wrong count")]
    WrongCount,
    /// Memory was refused.
    #[error("no memory")]
    NoMemory,
}

impl GridError {
    /// The number of this refusal: that of the ids' fault, 1 to 4, or 7 or 6.
    pub fn code(&self) -> u32
        ensures { result ≡ grid_code self.now }
    {
        match self {
            GridError::Comers(fault) => fault.code(),
            GridError::WrongCount => 7,
            GridError::NoMemory => 6,
        }
    }
}
