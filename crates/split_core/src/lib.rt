//! The grid of splitters of Moir and Anderson (1995) as a pure machine of single reads and writes,
//! and what holds of it in every order of the comers' steps.
//!
//! Up to 64 comers, each with an id of its own, walk down a triangular grid. At each place stands a
//! splitter, two words: LAST, an id, and DOOR, open at first. A comer writes its id into LAST and
//! reads DOOR. Where it is closed the comer turns right; else it closes DOOR and reads LAST. Its
//! own id stops it there; another's turns it down. One that has stopped can scan the doors,
//! diagonal by diagonal, to find the others.
//!
//! What the crate promises to the layer above:
//! - `laws::law_all_runs`, for every list of different ids and every list of events: at most one
//!   comer stops at a place; of k that have started at most k - r - c come to row r and column c or
//!   beyond, so each of them is on a diagonal below k; a closed door stays closed; a scan that is
//!   over has found every comer that had stopped before it began; it has read at most (k + 1)(k +
//!   2)/2 doors.
//! - `laws::law_events`: an event that its comer may not take changes nothing; one that it may take
//!   is one step of that comer and leaves the others alone.
//! - `machine::Machine` plays any such run: each call makes the one event that its definition
//!   names, tells what that event shows, and says when it is refused. Only `Machine::new` takes
//!   memory.
//! - `trail_machine::TrailMachine` is that machine with trail scans, the second kind of collect, which
//!   reads only the doors to which closed doors lead.
//! - `ids::check_ids` says which ids open a grid.
//! - `walker`, `cursor` and `tracker` have the steps alone, for code that keeps the words elsewhere.
//!
//! The definitions are in `specs/`: `Grid` has the state, the events and the runs, and what an
//! event is in words. What a grid knows of time, fairness or progress is nothing: a comer may halt
//! for good between any two of its steps.
#![tactic(auto)]

pub mod cursor;
pub mod ids;
pub mod laws;
pub mod machine;
pub mod model;
pub mod places;
pub mod seen;
pub mod tracker;
pub mod trail_machine;
pub mod walker;
