//! The running grid of splitters (Moir and Anderson 1995): threads walk down it at the same time,
//! each takes the value of the place where it stops, and scans the doors to find the others.
//!
//! What the crate promises to the layer above:
//! - LAST and DOOR of all places lie in one table, with a slot for the value of each place. Between
//!   any two atomic steps, of whatever threads, the words and what the comers know are those at the
//!   end of some run of `split_core`'s grid, and the value of a place is in its slot exactly where
//!   no comer has stopped there (`specs/Rule.antt`).
//! - `Grid::stride` makes exactly one event of that grid. `Grid::walk` strides until its comer has
//!   stopped, at most `4(d + 1)` times for a stop on diagonal d, and hands out the value of that
//!   place, which goes to nobody else.
//! - `Grid::scan_next` answers the next place whose door it read closed, each place once at most. A
//!   scan that is over has found each place on its comer's own way, and each that any scan of this
//!   comer found before.
//! - `Grid::trail_next` answers the next place of a trail scan whose door it read closed: it reads only
//!   the doors of the places to which closed doors have led it. One that is over has found each place
//!   on its comer's own way, and read at most `1 + 2m` doors where it found m.
//! - What a scan tells of a door is what that door was: behind each read of either kind, the comer
//!   stands at the end of some run of the grid in which it has read all that it ever read. The table
//!   records each read of a trail scan as a look of its comer, which has then stopped, and ties the
//!   looks of all comers to one run (`specs/DoorLooks.antt`). By `law_looks` a trail scan that is over
//!   has found each place whose door was closed at the moment of its first look.
//! - Only `Grid::new` takes memory, and no call waits.
//!
//! Nothing is said of time, of fairness, or that the other threads go on.
#![tactic(auto)]

pub mod error;
pub mod grid;
pub mod laws;
mod opening;
mod rule;
mod steps;
pub mod tokens;
pub mod trails;
mod words;

pub use error::GridError;
pub use grid::Grid;
pub use rule::Fits;
pub use tokens::{Newcomer, Stopped, Stride};
pub use trails::Trail;
