// A round by a trail scan: a lead, a whole new trail scan in which every place found is served, and a
// release.
ghost use Rattle.std.specs.Prelude.{◌≡◌, ◌+◌, ◌≤◌, IfSome, IfNone};
ghost use Rattle.split_core.specs.TrailReads.{OnWay};
ghost use Rattle.split_core.specs.Trail.{Trail as TrailScan};
ghost use Rattle.split_grid.specs.Opening.{places_of};
ghost use Rattle.pq_book.specs.Book.{limits_of};
ghost use Rattle.announce_board.specs.Tokens.{IsLeadOf};
ghost use Rattle.desk_core.specs.Pen.{after_miss};
ghost use Rattle.desk_core.specs.Words.{word_number};
ghost use Rattle.flat_queue.specs.TrailRounds.{TrailRoundsAnswer};
ghost use Rattle.flat_queue.specs.Members.{pen_of};
ghost use Rattle.flat_queue.specs.TrailSweeping.{IsFollowedBy, IsTrailSweptBy, MakesTrailRoundBy};

use crate::combining::Round;
use crate::hint::Cleared;
use crate::laws::law_trail_rounds;
use crate::member::Member;
use crate::queue::Queue;
use crate::waiting::Waiting;
use announce_board::{Lead, Pen};
use leftist_heap::Store;
use pq_book::Entry;
use pq_types::Part;
use split_grid::Stopped;

impl<S: Store<Entry<P>>, P: Part> Queue<S, P> {
    /// The leader makes one whole new trail scan, and serves each place that it finds at once: it
    /// reads the doors of the places to which closed doors have led it, at most 1 + 2m where it
    /// finds m. It clears the hint that somebody has posted before it begins, and counts behind the last
    /// of them those who wait for an item and may be woken. Takes memory for a push alone, and never waits.
    pub fn sweep_trail(&self, member: &mut Member<S, P>, lead: &mut Lead<S, P>) -> Round
        requires queue { member.old.queue ≡ self.now }
        requires lead { IsLeadOf (pen_of member.old) lead.old }
        ensures lead { IsLeadOf (pen_of member.new) lead.new }
        ensures limits { limits_of lead.new.book ≡ limits_of lead.old.book }
        ensures swept { IsTrailSweptBy (word_number P.wide) member.old result.served result.doors member.new }
    {
        let cleared = self.hint.clear();
        follow_places(self, cleared, &mut member.stopped, &mut member.pen, lead)
    }

    /// One round by a trail scan: the member leads, sweeps and releases. `None` only where it found
    /// the lock held. Where it waited, its next look gives its answer. Takes memory for a push alone,
    /// and never waits.
    pub fn try_trail_round(&self, member: &mut Member<S, P>) -> Option<Round>
        requires queue { member.old.queue ≡ self.now }
        ensures queue { member.new.queue ≡ member.old.queue }
        ensures round { IfSome result (λ round.
            MakesTrailRoundBy (word_number P.wide) member.old round.served round.doors member.new) }
        ensures misses { IfNone result (member.new ≡ record member.old { pen = after_miss member.old.pen }) }

        // What a round is for, over all runs of grid and desk.
        ensures law { TrailRoundsAnswer }
    {
        law_trail_rounds();
        let mut lead = self.lead(member)?;
        let round = self.sweep_trail(member, &mut lead);
        self.release(member, lead);
        Some(round)
    }
}

// The same, on the parts of the member, behind the clearing of the hint.
#[tactic(auto, using(crate::proofs::Sweeping::keeps_at_first))]
fn follow_places<S: Store<Entry<P>>, P: Part>(
    queue: &Queue<S, P>,
    _cleared: Cleared,
    stopped: &mut Stopped<Waiting>,
    pen: &mut Pen<S, P>,
    lead: &mut Lead<S, P>,
) -> Round
    requires grid { stopped.old.table ≡ queue.now.grid }
    requires desk { pen.old.table ≡ queue.now.desk }
    requires places { queue.now.places ≡ places_of stopped.old.comers }
    requires lead { IsLeadOf pen.old lead.old }
    ensures still { stopped.new ≡ record stopped.old { looks = stopped.new.looks } }
    ensures table { pen.new.table ≡ pen.old.table }
    ensures lead { IsLeadOf pen.new lead.new }
    ensures limits { limits_of lead.new.book ≡ limits_of lead.old.book }
    ensures served { IsFollowedBy (word_number P.wide) stopped.old stopped.new result.served result.doors pen.old.state
        pen.new.state }
{
    let grid = &queue.grid;
    let desk = &queue.desk;
    let mut trail = grid.trail_begin(stopped);
    let mut served = 0;
    while let Some(place) = grid.trail_next(stopped, &mut trail) {
        if desk.serve(pen, lead, place) {
            served += 1;
        }
    }
    queue.waiters.count_served(lead, desk.room(), served);
    Round {
        served,
        doors: trail.doors(),
    }
}
