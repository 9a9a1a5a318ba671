// The running queue.
ghost use Rattle.std.specs.Prelude.{◌≡◌, ◌*◌, ◌≤◌};
ghost use Rattle.split_core.specs.declared.places.TheConstants.{MAX_COMERS};
ghost use Rattle.split_grid.specs.Ways.{GoesOn};
ghost use Rattle.pq_types.specs.declared.journal.TheConstants.{GREATEST_NUMBER};
ghost use Rattle.flat_queue.specs.Limits.{most_posts};
ghost use Rattle.flat_queue.specs.Members.{Joins};
ghost use Rattle.flat_queue.specs.Arrivals.{Arrives};

use crate::event_count::EventCount;
use crate::hint::PostHint;
use crate::joined::JoinCount;
use crate::member::{Arrival, Member, Newcomer};
use crate::resting::Rest;
use crate::spare::Spare;
use crate::waiting::Waiting;
use announce_board::Desk;
use leftist_heap::Store;
use pq_book::Entry;
use pq_types::{GREATEST_NUMBER, GREATEST_SERIAL, MOST_LINES, Part};
use split_grid::{Grid, Stride};
use std::marker::Model;

/// A priority queue that threads share through a `&`: a grid that gives each its place, and a desk
/// with a pen for each place. Its items have parts of 32 bits, or of 64 where `P` is `u64`. A contract
/// sees of it the tables of both, the numbers of its comers and places, the room of its journal, and its terms.
#[derive(Drop)]
pub struct Queue<S: Store<Entry<P>>, P: Part = u32> {
    pub(crate) grid: Grid<Waiting>,
    pub(crate) desk: Desk<S, P>,
    pub(crate) hint: PostHint,
    pub(crate) joined: JoinCount,
    pub(crate) waiters: EventCount,
    pub(crate) spare: Spare,
}

impl<S: Store<Entry<P>>, P: Part> Model for Queue<S, P> {
    ghost use Rattle.flat_queue.specs.Members.{QueueName, AreTied};

    ghost Value = { QueueName };

    ghost view = { λ q. record {
      grid = q.grid.table;
      desk = q.desk.table;
      comers = q.grid.comers;
      places = q.desk.places;
      room = q.desk.room;
      terms = q.desk.terms;
    } };

    ghost invariant = { λ q. AreTied q.grid.comers q.grid.tag.sample.value q.grid.tag.places q.grid.tag.terms q.desk q.spare };
}

impl<S: Store<Entry<P>>, P: Part> Queue<S, P> {
    /// How often a member may call: 16,777,215 times where the journal has room for 1,048,576 lines
    /// at most, else 72,057,594,037,927,936 times.
    pub fn most_posts(&self) -> u64
        ensures most { result ≡ most_posts self.now.room }
        ensures in_range { result ≤ GREATEST_NUMBER }
    {
        if self.desk.room() <= MOST_LINES {
            GREATEST_SERIAL
        } else {
            GREATEST_NUMBER
        }
    }

    /// How many comers it was opened for.
    pub fn comers(&self) -> usize
        ensures { result ≡ self.now.comers }
    {
        self.grid.comers()
    }

    /// The hint that somebody has posted since others were last served.
    pub fn hint(&self) -> &PostHint {
        &self.hint
    }

    /// The event count by which those sleep who wait for an item. Whoever leads by the steps of the queue itself, and
    /// released the lock, wakes them by its `wake_owed`: the calls of handles, and those that may wait, do.
    pub fn waiters(&self) -> &EventCount {
        &self.waiters
    }

    /// How many have joined, by a count beside the tables: those who wait nap by it.
    pub fn joined(&self) -> u32
        ensures { result ≤ MAX_COMERS }
    {
        self.joined.get()
    }

    /// The newcomer walks down the grid until it has stopped, at most 256 steps whatever the others
    /// do, and has the pen of the place where it stopped. Its way goes on from where it stood. Takes no
    /// memory, and never waits.
    pub fn join(&self, newcomer: Newcomer) -> Member<S, P>
        requires queue { newcomer.queue ≡ self.now }
        ensures joins { Joins newcomer result }
        ensures way { GoesOn newcomer.comer result.comer }
        ensures bounded { result.comer.steps ≤ 4 * MAX_COMERS }
    {
        let Newcomer { walking, licence } = newcomer;
        let (stopped, waiting) = self.grid.walk(walking);
        self.joined.add();
        let Waiting { sleeper } = waiting;
        Member {
            stopped,
            pen: self.desk.wake(sleeper, licence),
            rest: Rest::DEFAULT,
        }
    }

    /// The newcomer takes the next step of its way. Takes no memory, and never waits.
    pub fn join_step(&self, newcomer: Newcomer) -> Arrival<S, P>
        requires queue { newcomer.queue ≡ self.now }
        ensures { Arrives newcomer result }
    {
        let Newcomer { walking, licence } = newcomer;
        match self.grid.stride(walking) {
            Stride::Going(walking) => Arrival::Going(Newcomer { walking, licence }),
            Stride::Home(stopped, waiting) => {
                self.joined.add();
                let Waiting { sleeper } = waiting;
                let pen = self.desk.wake(sleeper, licence);
                Arrival::Here(Member {
                    stopped,
                    pen,
                    rest: Rest::DEFAULT,
                })
            }
        }
    }
}
