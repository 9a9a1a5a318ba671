// The grid machine, one step at a time, in one thread.
ghost use Rattle.std.specs.Prelude.{◌≡◌, ◌≢◌, ◌↔◌, ◌<◌, ◌≤◌, ◌==◌, ℕ, List, [], map, length, IfOk, IfErr, OnOk, OnErr};
ghost use Rattle.split_core.specs.Places.{IsGridSize, place as place_at};
ghost use Rattle.split_core.specs.Comer.{comer_of};
ghost use Rattle.split_core.specs.Grid.{Event, run, opening, Different, started};
ghost use Rattle.split_core.specs.Calls.{step_call, scan_call, stop_of};
ghost use Rattle.split_core.specs.TrailCalls.{home_call};
ghost use Rattle.split_core.specs.Stored.{walker_of, SomeRun};
ghost use Rattle.split_core.specs.Ids.{OpenGrid, IsFault, FindsId};
ghost use Rattle.split_core.specs.declared.places.TheConstants.{MAX_COMERS};
ghost use Rattle.split_core.specs.declared.ids.IdError.{IdError};

use crate::ids::{IdError, check_ids};
use crate::places::place_number;
use crate::seen::{Seen, StepError};
use crate::walker::Walker;
use std::alloc::{AllocError, Allocator};

/// A grid of splitters and its comers. A contract says of it `Stands ids events m`: it stands at
/// the end of the run of these events by comers of these ids. Every machine stands at the end of
/// some run.
#[derive(Drop)]
pub struct Machine<A: Allocator> {
    last: Vec<u64, A>,
    doors: Vec<bool, A>,
    walkers: Vec<Walker, A>,
    ghost few: { length walkers.items ≤ MAX_COMERS },
    ghost stands: { ∥ SomeRun last.items doors.items walkers.items ∥₁ },
}

fn walkers_at_start<A: Allocator>(alloc: A, ids: &[u64]) -> Result<Vec<Walker, A>, AllocError>
    ensures { IfOk result (λ v. v.items ≡ map (λ id. walker_of (comer_of id)) ids.now) }
{
    ids.iter().map(|id| Walker::at_start(*id)).collect(alloc)
}

impl<A: Allocator + Clone> Machine<A> {
    ghost use Rattle.split_core.specs.Machine.{Stands};

    /// The grid of these comers at its opening: 1 to 64 ids, none 0 and no two equal. Reserves all
    /// that the machine will ever need: two words a place and one entry a comer.
    #[tactic(auto, using(crate::proofs::IdLists::ids_differ))]
    pub fn new(alloc: A, ids: &[u64]) -> Result<Machine<A>, IdError>
        ensures ok { IfOk result (λ m. Stands ids.now [] m) }
        ensures opens { OnOk result (OpenGrid ids.now) }
        ensures refused { (e : IdError) → e ≢ IdError.NoMemory → (result ≡ Err e) ↔ IsFault ids.now e }

        // No clause can say that memory was refused, but these ids would have opened a grid.
        ensures memory { result ≡ Err IdError.NoMemory → OpenGrid ids.now }
    {
        check_ids(ids)?;
        match Machine::open(alloc, ids) {
            Ok(machine) => Ok(machine),
            Err(_) => Err(IdError::NoMemory),
        }
    }

    // The grid of these comers, at its opening.
    pub(crate) fn open(alloc: A, ids: &[u64]) -> Result<Machine<A>, AllocError>
        requires different { Different ids.now }
        requires size { IsGridSize (length ids.now) }
        ensures { IfOk result (λ m. Stands ids.now [] m) }
    {
        let places = place_number(0, ids.len() as u16) as usize;
        let last = vec![in alloc.clone()?; 0u64; places]?;
        let doors = vec![in alloc.clone()?; false; places]?;
        let walkers = walkers_at_start(alloc, ids)?;
        Ok(Machine {
            last,
            doors,
            walkers,
        })
    }
}

impl<A: Allocator> Machine<A> {
    ghost use Rattle.split_core.specs.Machine.{Stands, CallGoesOn, CallIsRefused, started_in, BoundsDoors};

    // The comer with this id, and its position.
    fn find(&self, id: u64) -> Option<(usize, Walker)>
        ensures { FindsId self.now.walkers.items id result }
    {
        for (k, walker) in self.walkers.iter().enumerate() {
            if walker.id == id {
                return Some((k, *walker));
            }
        }
        None
    }

    /// How many comers have started: they have written LAST of place 0. Takes no memory; one look
    /// at each comer.
    pub fn started(&self) -> u32
        ensures stored { result ≡ started_in self.now }
        ensures run { (ids : List ℕ) (events : List Event) → Stands ids events self.now
            → result ≡ started (run events (opening ids)) }
    {
        self.walkers
            .iter()
            .filter(|walker| walker.has_started())
            .count() as u32
    }

    /// The place where the comer with this id has stopped; `None` where it has not, or no comer has
    /// the id. Takes no memory; one look through the comers, as `step` and `scan_step`.
    pub fn place_of(&self, id: u64) -> Option<u16>
        ensures { (ids : List ℕ) (events : List Event) → Stands ids events self.now
            → result ≡ stop_of (run events (opening ids)) id }
    {
        let (_, comer) = self.find(id)?;
        if comer.next.is_stopped() {
            Some(place_number(comer.row, comer.column))
        } else {
            None
        }
    }

    // The position of the comer with this id, which has stopped.
    pub(crate) fn home_of(&self, id: u64) -> Result<usize, StepError>
        ensures run { (ids : List ℕ) (events : List Event) → Stands ids events self.now
            → result ≡ home_call (run events (opening ids)) id }
        ensures within { IfOk result (λ who. who < length self.now.walkers.items) }
    {
        let Some((who, known)) = self.find(id) else {
            return Err(StepError::UnknownId);
        };
        if known.next.is_stopped() {
            Ok(who)
        } else {
            Err(StepError::NotStopped)
        }
    }

    // Whether the door of this place is closed.
    pub(crate) fn is_closed(&self, place: u16) -> bool
        ensures { (ids : List ℕ) (events : List Event) → Stands ids events self.now → place < place_at 0 (length ids)
            → result ≡ ((run events (opening ids)).door place == 1) }
    {
        (place as usize) < self.doors.len() && self.doors[place as usize]
    }

    /// The next step of this comer on its way. Refused where no comer has the id, or where this one
    /// has stopped; nothing has changed then. Takes no memory.
    pub fn step(&mut self, id: u64) -> Result<Seen, StepError>
        ensures ok { IfOk result (λ seen. CallGoesOn step_call id self.old seen self.new) }
        ensures refused { IfErr result (λ e. CallIsRefused step_call id self.old e) }
        ensures unchanged { OnErr result (self.new ≡ self.old) }
    {
        let Some((who, walker)) = self.find(id) else {
            return Err(StepError::UnknownId);
        };
        if walker.next.is_stopped() {
            return Err(StepError::AlreadyStopped);
        }
        let (after, seen) = walker.take_step(self.last.as_mut_slice(), self.doors.as_mut_slice());
        self.walkers[who] = after;
        Ok(seen)
    }

    /// The next door of this comer's scan, or the first of a new one where none was begun or the
    /// last is over. Refused where no comer has the id, or where this one has not stopped; nothing
    /// has changed then. Takes no memory.
    pub fn scan_step(&mut self, id: u64) -> Result<Seen, StepError>
        ensures ok { IfOk result (λ seen. CallGoesOn scan_call id self.old seen self.new) }
        ensures refused { IfErr result (λ e. CallIsRefused scan_call id self.old e) }
        ensures unchanged { OnErr result (self.new ≡ self.old) }

        // The collect is bounded by how many have started, whatever the grid's size.
        ensures doors { OnOk result (BoundsDoors self.new) }
    {
        let Some((who, walker)) = self.find(id) else {
            return Err(StepError::UnknownId);
        };
        if !walker.next.is_stopped() {
            return Err(StepError::NotStopped);
        }
        let cursor = walker.cursor.current();
        let (next, seen) = cursor.read_door(self.doors.as_slice(), self.walkers.len());
        self.walkers[who] = Walker {
            cursor: next,
            ..walker
        };
        Ok(seen)
    }
}
