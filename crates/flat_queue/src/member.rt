// What a thread holds of a queue: a newcomer before it has joined, and a member thereafter.
ghost use Rattle.std.specs.Prelude.{◌≡◌, ◌<◌};
ghost use Rattle.split_grid.specs.Opening.{places_of};
ghost use Rattle.announce_board.specs.Tokens.{is_idle};

use crate::resting::Rest;
use crate::waiting::Waiting;
use announce_board::{Pen, Testimony};
use leftist_heap::Store;
use pq_book::Entry;
use pq_types::Part;
use split_grid::Stopped;
use std::marker::Model;

/// The right to join a queue: a comer, and the licence that wakes the pen of the place where it stops. It goes from thread to
/// thread. A contract sees of it its queue, and the comer on its way down the grid.
#[derive(Drop)]
pub struct Newcomer {
    pub(crate) walking: split_grid::Newcomer<Waiting>,
    pub(crate) licence: Testimony,
}

impl Model for Newcomer {
    ghost use Rattle.std.specs.Prelude.{◌≡◌};
    ghost use Rattle.flat_queue.specs.Gathered.{licences_at};
    ghost use Rattle.flat_queue.specs.Members.{Coming};

    ghost Value = { Coming };

    ghost view = { λ n. record {
      queue = record {
        grid = n.walking.table;
        desk = n.walking.tag.sample.value.table;
        comers = n.walking.comers;
        places = n.walking.tag.places;
        room = n.walking.tag.sample.value.state.room;
        terms = n.walking.tag.terms;
      };
      comer = n.walking.comer;
    } };

    ghost invariant = { λ n. n.licence ≡ licences_at n.walking.tag.sample.value.table 1 };
}

/// One that has joined: it posts at the place where it has stopped. A contract sees of it its
/// queue, its comer, each door that its trail scans have read, what its pen has done and seen, and how its
/// calls rest.
#[derive(Drop)]
pub struct Member<S: Store<Entry<P>>, P: Part = u32> {
    pub(crate) stopped: Stopped<Waiting>,
    pub(crate) pen: Pen<S, P>,
    pub(crate) rest: Rest,
}

impl<S: Store<Entry<P>>, P: Part> Model for Member<S, P> {
    ghost use Rattle.std.specs.Prelude.{◌≡◌};
    ghost use Rattle.split_core.specs.Places.{at};
    ghost use Rattle.flat_queue.specs.Members.{Joined};

    ghost Value = { Joined };

    ghost view = { λ m. record {
      queue = record {
        grid = m.stopped.table;
        desk = m.pen.table;
        comers = m.stopped.comers;
        places = m.stopped.tag.places;
        room = m.pen.state.room;
        terms = m.stopped.tag.terms;
      };
      comer = m.stopped.comer;
      scan = m.stopped.scan;
      door_looks = m.stopped.looks;
      pen = m.pen.state;
      rest = m.rest;
    } };

    ghost invariant = { λ m. m.pen.state.place ≡ at m.stopped.comer.turns };
}

/// What one stride of a newcomer has come to: it is still on its way, or it has joined.
pub enum Arrival<S: Store<Entry<P>>, P: Part = u32> {
    Going(Newcomer),
    Here(Member<S, P>),
}

impl Newcomer {
    /// The id of the comer.
    pub fn id(&self) -> u64
        ensures { result ≡ self.now.comer.id }
    {
        self.walking.id()
    }
}

impl<S: Store<Entry<P>>, P: Part> Member<S, P> {
    /// The id of the comer.
    pub fn id(&self) -> u64
        ensures { result ≡ self.now.comer.id }
    {
        self.stopped.id()
    }

    /// The place where it has stopped, and at which it posts, below n(n + 1)/2 for the n comers of its
    /// queue.
    pub fn place(&self) -> u16
        ensures place { result ≡ self.now.pen.place }
        ensures within { result < places_of self.now.queue.comers }
    {
        self.stopped.place()
    }

    /// How many requests it has made: posted, or carried out itself.
    pub fn posts(&self) -> u64
        ensures { result ≡ self.now.pen.posts }
    {
        self.pen.posts()
    }

    /// Whether it waits for no answer.
    pub fn is_idle(&self) -> bool
        ensures { result ≡ is_idle self.now.pen.standing }
    {
        self.pen.is_idle()
    }
}
