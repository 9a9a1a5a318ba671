// The grid machine with trail scans, one step at a time, in one thread.
ghost use Rattle.std.specs.Prelude.{◌≡◌, ◌≢◌, ◌↔◌, ℕ, List, [], map, length, IfOk, IfErr, OnOk, OnErr};
ghost use Rattle.split_core.specs.Places.{IsGridSize};
ghost use Rattle.split_core.specs.Grid.{Event, run, opening, Different};
ghost use Rattle.split_core.specs.Machine.{Stands};
ghost use Rattle.split_core.specs.TrailReads.{trail_by};
ghost use Rattle.split_core.specs.TrailCalls.{step_act, scan_act, trail_act};
ghost use Rattle.split_core.specs.Tracker.{IsTracker, Stores, ReadsNext, AreTrackers, no_tracker};
ghost use Rattle.split_core.specs.Ids.{OpenGrid, IsFault};
ghost use Rattle.split_core.specs.declared.ids.IdError.{IdError};

use crate::ids::{IdError, check_ids};
use crate::laws::law_places;
use crate::machine::Machine;
use crate::seen::{Seen, StepError};
use crate::tracker::Tracker;
use std::alloc::{AllocError, Allocator};

/// A grid of splitters whose comers, once they have stopped, make scans of both kinds. A contract
/// says of it `StandsAfter ids acts m`: it stands after these acts by comers of these ids.
#[derive(Drop)]
pub struct TrailMachine<A: Allocator> {
    grid: Machine<A>,
    trackers: Vec<Tracker, A>,
    ghost tracked: { AreTrackers (length grid.walkers.items) trackers.items },
}

fn no_trackers<A: Allocator>(alloc: A, ids: &[u64]) -> Result<Vec<Tracker, A>, AllocError>
    ensures { IfOk result (λ v. v.items ≡ map (λ _. no_tracker) ids.now) }
{
    ids.iter().map(|_| Tracker::none()).collect(alloc)
}

// Reads the next door of a trail scan: the scan after it, and what the read shows.
fn read_next<A: Allocator>(grid: &Machine<A>, tracker: Tracker, comers: usize) -> (Tracker, Seen)
    requires lawful { IsTracker comers tracker }
    requires more { tracker.unread ≢ 0 }
    ensures lawful { IsTracker comers result.0 }
    ensures reads { (ids : List ℕ) (events : List Event) (words : List ℕ) → Stands ids events grid.now → length ids ≡ comers
        → Stores comers tracker (trail_by comers words)
        → ReadsNext comers (run events (opening ids)).door (trail_by comers words) result.0 result.1 }
{
    law_places();
    let row = tracker.next_row(comers);
    let place = tracker.place_in(row, comers);
    let closed = grid.is_closed(place);
    let after = tracker.after_door(closed, comers);
    let over = after.is_over(comers);
    (
        after,
        Seen::Door {
            place,
            closed,
            over,
        },
    )
}

impl<A: Allocator + Clone> TrailMachine<A> {
    ghost use Rattle.split_core.specs.TrailMachine.{StandsAfter};

    /// The grid of these comers at its opening: 1 to 64 ids, none 0 and no two equal. Takes all the
    /// memory that the machine will ever need.
    #[tactic(auto, using(crate::proofs::IdLists::ids_differ))]
    pub fn new(alloc: A, ids: &[u64]) -> Result<TrailMachine<A>, IdError>
        ensures ok { IfOk result (λ m. StandsAfter ids.now [] m) }
        ensures opens { OnOk result (OpenGrid ids.now) }
        ensures refused { (e : IdError) → e ≢ IdError.NoMemory → (result ≡ Err e) ↔ IsFault ids.now e }

        // No clause can say that memory was refused, but these ids would have opened a grid.
        ensures memory { result ≡ Err IdError.NoMemory → OpenGrid ids.now }
    {
        check_ids(ids)?;
        match TrailMachine::open(alloc, ids) {
            Ok(machine) => Ok(machine),
            Err(_) => Err(IdError::NoMemory),
        }
    }

    // The grid of these comers, at its opening.
    fn open(alloc: A, ids: &[u64]) -> Result<TrailMachine<A>, AllocError>
        requires different { Different ids.now }
        requires size { IsGridSize (length ids.now) }
        ensures { IfOk result (λ m. StandsAfter ids.now [] m) }
    {
        let trackers = no_trackers(alloc.clone()?, ids)?;
        let grid = Machine::open(alloc, ids)?;
        Ok(TrailMachine { grid, trackers })
    }
}

impl<A: Allocator> TrailMachine<A> {
    ghost use Rattle.split_core.specs.TrailMachine.{StandsAfter, CallActsOn, ActIsRefused};

    /// The next step of this comer on its way. Refused where no comer has the id, or where this one
    /// has stopped; nothing has changed then. Takes no memory.
    pub fn step(&mut self, id: u64) -> Result<Seen, StepError>
        ensures ok { IfOk result (λ seen. CallActsOn step_act id self.old seen self.new) }
        ensures refused { IfErr result (λ e. ActIsRefused step_act id self.old e) }
        ensures unchanged { OnErr result (self.new ≡ self.old) }
    {
        match self.grid.step(id) {
            Ok(seen) => Ok(seen),
            Err(error) => Err(error),
        }
    }

    /// The next door of this comer's scan of diagonals, or the first of a new one. Refused where no
    /// comer has the id, or where this one has not stopped; nothing has changed then. Takes no
    /// memory.
    pub fn scan_step(&mut self, id: u64) -> Result<Seen, StepError>
        ensures ok { IfOk result (λ seen. CallActsOn scan_act id self.old seen self.new) }
        ensures refused { IfErr result (λ e. ActIsRefused scan_act id self.old e) }
        ensures unchanged { OnErr result (self.new ≡ self.old) }
    {
        match self.grid.scan_step(id) {
            Ok(seen) => Ok(seen),
            Err(error) => Err(error),
        }
    }

    /// The next door of this comer's trail scan, or the first of a new one where none was begun or
    /// the last is over. Refused where no comer has the id, or where this one has not stopped;
    /// nothing has changed then. Takes no memory.
    pub fn trail_step(&mut self, id: u64) -> Result<Seen, StepError>
        ensures ok { IfOk result (λ seen. CallActsOn trail_act id self.old seen self.new) }
        ensures refused { IfErr result (λ e. ActIsRefused trail_act id self.old e) }
        ensures unchanged { OnErr result (self.new ≡ self.old) }
    {
        let who = match self.grid.home_of(id) {
            Ok(who) => who,
            Err(error) => return Err(error),
        };
        let comers = self.trackers.len();
        let tracker = self.trackers[who].current(comers);
        let (after, seen) = read_next(&self.grid, tracker, comers);
        self.trackers[who] = after;
        Ok(seen)
    }
}
