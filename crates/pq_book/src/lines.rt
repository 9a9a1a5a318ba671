// What a Book hands out of its journal.
use pq_types::{Line, Part};
use thiserror::Error;

/// Why lines could not be copied to an archive.
#[derive(Clone, Copy, Debug, PartialEq, Eq, Error)]
pub enum LinesError {
    /// The first of them is forgotten.
    #[error("lines forgotten")]
    Forgotten,
    /// Memory for them was refused.
    #[error("no memory")]
    NoMemory,
}

/// The lines that are in memory, in two pieces: the older lines, and then the newer ones. Of a
/// journal that is kept whole all are in the first piece.
#[derive(Clone, Copy, Debug)]
pub struct LastLines<'a, P: Part = u32> {
    /// How many lines came before them.
    pub forgotten: u64,
    pub older: &'a [Line<P>],
    pub newer: &'a [Line<P>],
}
