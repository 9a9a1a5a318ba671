// The pens that sleep in the grid until newcomers stop at their places.
use announce_board::{Sleeper, Terms};
use split_grid::Fits;
use std::snapshot::Snapshot;

/// What the pens of one desk have in common: the desk, named by a pen of it, how many places it has,
/// and its terms.
#[derive(Drop)]
pub struct DeskTag {
    pub sample: Snapshot<Sleeper>,
    pub places: u16,
    pub terms: Terms,
}

/// The pen of a place, which sleeps in the grid until a newcomer stops there.
#[derive(Drop)]
pub struct Waiting {
    pub sleeper: Sleeper,
}

impl Fits for Waiting {
    ghost use Rattle.flat_queue.specs.Members.{IsPenFor};

    type Tag = DeskTag;

    ghost fits = { λ tag place waiting. IsPenFor tag.sample.value tag.places place waiting.sleeper };
}
