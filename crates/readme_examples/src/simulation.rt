// A simulation of events whose clock never runs backwards: an event's time is its priority, and its
// number its value.
ghost use Rattle.std.specs.Prelude.{◌≡◌, ◌+◌, ◌≤◌, ◌++◌, ◌∷◌, [], Some, None, IfOk, OnErr};
ghost use Rattle.leftist_heap.specs.Store.{first_of, rest_of};
ghost use Rattle.pq_types.specs.Item.{item};
ghost use Rattle.pq_types.specs.Queue.{IsAscending, with_item};
ghost use Rattle.readme_examples.specs.Simulation.{came_about};

use crate::agenda::{Agenda, Refused};
use pq_types::Item;
use std::alloc::Global;
use std::marker::Model;

/// Events that are still to happen, those that have happened, in their order, and the clock, which
/// shows the time of the last one.
///
/// An event is put in for a time at or after the clock. So in every run, whatever is put in, the
/// clock never runs backwards, and the times of what has happened ascend.
#[derive(Drop)]
pub struct Simulation {
    pending: Agenda,
    happened: Vec<Item>,
    clock: u32,
}

impl Model for Simulation {
    ghost use Rattle.readme_examples.specs.Simulation.{Course, IsInTime};

    ghost Value = { Course };

    ghost view = { λ s. record { pending = s.pending.items; happened = s.happened.items; clock = s.clock } };

    ghost invariant = { λ s. IsInTime s.happened.items s.clock s.pending.items };
}

impl Simulation {
    /// A simulation without events at time 0, with a journal of so many lines: each event takes
    /// two, and the question for one where there is none takes one.
    pub fn new(alloc: Global, lines: u32) -> Result<Simulation, Refused>
        ensures { IfOk result (λ simulation. simulation ≡ record { pending = []; happened = []; clock = 0 }) }
    {
        let pending = Agenda::new(alloc, lines)?;
        Ok(Simulation {
            pending,
            happened: Vec::new(alloc),
            clock: 0,
        })
    }

    /// Puts an event in, which is to happen so much after the clock, behind those of that time.
    /// `TooLate` where no time is so late.
    #[tactic(auto, using(crate::proofs::Ordered::all_with))]
    pub fn put_in(&mut self, delay: u32, number: u32) -> Result<(), Refused>
        ensures ok { IfOk result (λ _.
            self.new ≡ record self.old { pending = with_item (item (self.old.clock + delay) number) self.old.pending }) }
        ensures err { OnErr result (self.new ≡ self.old) }
    {
        let Some(priority) = self.clock.checked_add(delay) else {
            return Err(Refused::TooLate);
        };
        self.pending.push(Item {
            priority,
            value: number,
        })
    }

    /// Lets the next event happen, where there is one, and sets the clock to its time.
    pub fn advance(&mut self) -> Result<Option<Item>, Refused>
        ensures ok { IfOk result (λ event. (event ≡ first_of self.old.pending) × (self.new ≡ came_about event self.old)) }
        ensures err { OnErr result (self.new ≡ self.old) }
        ensures forward { self.old.clock ≤ self.new.clock }
    {
        if self.happened.reserve(1).is_err() {
            return Err(Refused::NoMemory);
        }
        let Some(event) = self.pending.pop()? else {
            return Ok(None);
        };
        self.happened.push_reserved(event);
        self.clock = event.priority;
        Ok(Some(event))
    }

    /// What has happened in the whole run, in its order, which is that of the times.
    pub fn happened(&self) -> &[Item]
        ensures happened { result.now ≡ self.now.happened }
        ensures ascending { IsAscending self.now.happened }
    {
        self.happened.as_slice()
    }

    /// The time of the last event.
    pub fn clock(&self) -> u32
        ensures { result ≡ self.now.clock }
    {
        self.clock
    }
}

/// Lamps, each of which flashes for the first time after so many seconds as its number says, and
/// then again and again: what has happened after so many flashes.
pub fn flashes(alloc: Global, lamps: &[u32], count: u32) -> Result<Simulation, Refused> {
    let mut simulation = Simulation::new(alloc, 1024)?;
    for lamp in lamps {
        simulation.put_in(*lamp, *lamp)?;
    }
    for _ in 0..count {
        if let Some(flash) = simulation.advance()? {
            simulation.put_in(flash.value, flash.value)?;
        }
    }
    Ok(simulation)
}
