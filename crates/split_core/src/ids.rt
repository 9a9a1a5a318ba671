// Which ids open a grid.
ghost use Rattle.std.specs.Prelude.{◌≡◌, ◌<◌, ◌↔◌, length, IsTrue, IsOk};
ghost use Rattle.split_core.specs.Ids.{IsRepeated, OpenGrid, IsFault, id_code};
ghost use Rattle.split_core.specs.declared.ids.IdError.{IdError};

use crate::places::MAX_COMERS;
use thiserror::Error;

/// Why a list of ids opens no grid. `ZeroId` and `RepeatedId` name the first id, by its index, that
/// is 0 or equal to an earlier one.
#[derive(Clone, Copy, Debug, PartialEq, Eq, Error)]
pub enum IdError {
    #[error("no comers")]
    NoComers,
    #[error("too many comers")]
    TooManyComers,
    #[error("id zero")]
    ZeroId { index: usize },
    #[error("id repeated")]
    RepeatedId { index: usize },
    #[error("no memory")]
    NoMemory,
}

impl IdError {
    /// The number of this refusal.
    pub fn code(&self) -> u32
        ensures { result ≡ id_code self.now }
    {
        match self {
            IdError::NoComers => 1,
            IdError::TooManyComers => 2,
            IdError::ZeroId { .. } => 3,
            IdError::RepeatedId { .. } => 4,
            IdError::NoMemory => 6,
        }
    }
}

fn is_repeated(ids: &[u64], k: usize) -> bool
    requires { k < length ids.now }
    ensures { IsTrue result ↔ IsRepeated ids.now k }
{
    for j in 0..k {
        if ids[j] == ids[k] {
            return true;
        }
    }
    false
}

/// Whether these ids open a grid: 1 to 64 of them, none 0 and no two equal. Takes no memory, so
/// `NoMemory` is never the answer. The time grows with the square of their number.
pub fn check_ids(ids: &[u64]) -> Result<(), IdError>
    ensures ok { IsOk result ↔ OpenGrid ids.now }
    ensures refused { (e : IdError) → (result ≡ Err e) ↔ IsFault ids.now e }
{
    if ids.is_empty() {
        return Err(IdError::NoComers);
    }
    if ids.len() > MAX_COMERS {
        return Err(IdError::TooManyComers);
    }
    for k in 0..ids.len() {
        if ids[k] == 0 {
            return Err(IdError::ZeroId { index: k });
        }
        if is_repeated(ids, k) {
            return Err(IdError::RepeatedId { index: k });
        }
    }
    Ok(())
}
