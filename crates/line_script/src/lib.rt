//! Scripts of lines: bytes come in through a buffer of a fixed size, are cut into lines, a player
//! plays each line, and the texts that it writes go out.
//!
//! To the layer above it promises, for every player: what is written is the text of the lines
//! before the first that is refused; after each read all whole lines are played and their texts
//! written before the next read; and where a run ends before its input does, nothing is read behind
//! the read that ended it. What the lines mean is the player's own: nothing here knows of queues or
//! grids.
#![tactic(auto)]

pub mod error;
pub mod lines;
pub mod player;
pub mod script;

pub use error::RunError;
pub use lines::{BUFFER, LINE_ROOM, LONGEST_LINE};
pub use player::Player;
pub use script::{play_script, run_script};
