// Trail scans of the running grid: the doors of the places to which closed doors lead.
ghost use Rattle.std.specs.Prelude.{◌≡◌, ◌≢◌, ◌+◌, ◌<◌, ◌≤◌, ◌==◌, length, IfSome, IfNone};
ghost use Rattle.split_core.specs.Places.{place};
ghost use Rattle.split_core.specs.Trail.{trail_start};
ghost use Rattle.split_grid.specs.Opening.{places_of};
ghost use Rattle.split_grid.specs.Tokens.{Sized, Rests};
ghost use Rattle.split_grid.specs.Trails.{SeesDoor, IsTrail, ReadsFrom, FollowsFrom};

use crate::grid::Grid;
use crate::rule::{Fits, GridKey, GridRule, TrailDoor, View};
use crate::tokens::Stopped;
use crate::words::door_word;
use atomic_table::{Seat, Shared};
use split_core::laws::{law_all_runs, law_places, law_trail_reads};
use split_core::tracker::Tracker;
use split_core::walker::Walker;
use std::marker::Model;

/// A trail scan under way. A contract sees of it the number of the comers of its grid, and which
/// rows of its diagonal are still to be read; it speaks of the places that the scan has found as
/// `IsTrail earlier s trail z`: of the comer s, which had looked so before, it is the trail scan z.
#[derive(Drop)]
pub struct Trail {
    comers: usize,
    tracker: Tracker,
}

impl Model for Trail {
    ghost use Rattle.split_core.specs.Tracker.{IsTracker};
    ghost use Rattle.split_grid.specs.Trails.{Following};

    ghost Value = { Following };

    ghost view = { λ t. record { comers = t.comers; tracker = t.tracker } };

    ghost invariant = { λ t. IsTracker t.comers t.tracker };
}

impl Trail {
    /// How many doors the scan has read, each door of the grid once at most.
    pub fn doors(&self) -> u32
        ensures doors { result ≡ self.now.tracker.doors }
        ensures within { result ≤ places_of self.now.comers }
    {
        law_places();
        self.tracker.doors
    }

    fn is_over(&self) -> bool
        ensures over { result ≡ (self.now.tracker.unread == 0) }
        ensures within { self.now.tracker.doors ≤ places_of self.now.comers }
    {
        law_places();
        self.tracker.unread == 0
    }
}

impl<T: Fits> Grid<T> {
    /// A new trail scan of this comer, of which no door is read yet. No step is made.
    pub fn trail_begin(&self, stopped: &Stopped<T>) -> Trail
        requires table { stopped.now.table ≡ self.now.table }
        ensures comers { result.comers ≡ stopped.now.comers }
        ensures begins { IsTrail stopped.now.looks stopped.now result trail_start }
        ensures none { result.tracker.doors ≡ 0 }
    {
        law_places();
        stopped.stands();
        Trail {
            comers: self.comers,
            tracker: Tracker::fresh(self.comers),
        }
    }

    /// Reads the doors of a trail scan, up to and with the next closed one, and answers its place:
    /// first that of place 0, then, in the order of the places, those to which a closed one has led
    /// it. `None` once the scan is over, and again `None`, with no step. Each door is one step of
    /// the table, a look of the comer, which changes nothing else. Takes no memory, and never waits.
    #[tactic(auto, using(crate::proofs::TrailCalls::none_yet))]
    pub fn trail_next(&self, stopped: &mut Stopped<T>, trail: &mut Trail) -> Option<u16>
        requires table { stopped.old.table ≡ self.now.table }
        requires comers { trail.old.comers ≡ stopped.old.comers }
        ensures still { stopped.new ≡ record stopped.old { looks = stopped.new.looks } }
        ensures comers { trail.new.comers ≡ trail.old.comers }
        ensures follows { FollowsFrom stopped.old trail.old result stopped.new trail.new }
        ensures place { IfSome result (λ p. p < places_of stopped.old.comers) }
        ensures onward { IfSome result (λ p. trail.old.tracker.doors < trail.new.tracker.doors) }
        ensures over { IfNone result (trail.old.tracker.doors ≤ trail.new.tracker.doors) }
        ensures within { trail.new.tracker.doors ≤ places_of stopped.old.comers }
    {
        law_places();
        law_trail_reads();
        stopped.stands();
        while !trail.is_over() {
            let (place, closed) = self.follow(stopped, trail);
            if closed {
                return Some(place);
            }
        }
        None
    }

    // Reads the next door: its place, and whether it was closed.
    fn follow(&self, stopped: &mut Stopped<T>, trail: &mut Trail) -> (u16, bool)
        requires table { stopped.old.table ≡ self.now.table }
        requires comers { trail.old.comers ≡ stopped.old.comers }
        requires more { trail.old.tracker.unread ≢ 0 }
        ensures still { stopped.new ≡ record stopped.old { looks = stopped.new.looks } }
        ensures comers { trail.new.comers ≡ trail.old.comers }
        ensures place { result.0 < places_of stopped.old.comers }
        ensures counted { trail.new.tracker.doors ≡ trail.old.tracker.doors + 1 }
        ensures within { trail.new.tracker.doors ≤ places_of stopped.old.comers }
        ensures reads { ReadsFrom stopped.old trail.old result stopped.new trail.new }
    {
        law_places();
        let row = trail.tracker.next_row(trail.comers);
        let place = trail.tracker.place_in(row, trail.comers);
        let closed = see_door(&self.table.shared, &mut stopped.seat, stopped.walker, place) == 1;
        trail.tracker = trail.tracker.after_door(closed, trail.comers);
        (place, closed)
    }
}

// Loads the door of this place, for a comer that has stopped.
fn see_door<T: Fits>(
    board: &Shared<Option<T>, View<T::Tag>, GridKey<T::Tag>, GridRule<T>>,
    seat: &mut Seat<Option<T>, View<T::Tag>>,
    walker: Walker,
    door: u16,
) -> u64
    requires here { seat.old.table_id ≡ board.now.table_id }
    requires sized { Sized board.now.table_id (length board.now.key.ids.items) }
    requires rests { Rests board.now.table_id.slots seat.old.me walker }
    requires within { door < board.now.table_id.slots }
    ensures table { seat.new.table_id ≡ seat.old.table_id }
    ensures sees { SeesDoor door seat.old.me result seat.new.me }
{
    law_all_runs();
    law_places();
    let _ = walker;
    board.load::<TrailDoor>(seat, door_word(door))
}
