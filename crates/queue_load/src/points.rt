// How far a worker has come, and which request it makes next.
ghost use Rattle.std.specs.Prelude.{◌≡◌, ◌+◌, ◌<◌, ◌≤◌};
ghost use Rattle.queue_load.specs.Points.{IsNext, IsPast, IsWithin};

use pq_types::{Item, Part, Request};
use program_words::{MOST_WORKERS, Plan, item_of};

/// How far a worker has come: it has made so many whole rounds, and of the next one so many pushes and
/// so many pops.
#[derive(Clone, Copy)]
pub struct Point {
    pub rounds: u32,
    pub pushed: u32,
    pub popped: u32,
}

impl Point {
    /// Where each worker begins.
    pub const START: Point = Point {
        rounds: 0,
        pushed: 0,
        popped: 0,
    };
}

// The same point, or the beginning of the next round where this one is whole.
fn past(plan: Plan, point: Point) -> Point
    requires pushes { point.pushed ≤ plan.pushes }
    requires pops { point.popped ≤ plan.pops }
    requires rounds { point.rounds < plan.rounds }
    ensures { IsPast plan point result }
{
    if point.pushed + point.popped < plan.pushes + plan.pops {
        return point;
    }
    Point {
        rounds: point.rounds + 1,
        pushed: 0,
        popped: 0,
    }
}

/// The next request of this worker, and how far it has come behind it: in each round its items are
/// pushed, one after another, and then it pops.
pub fn next_request<P: Part>(worker: u32, plan: Plan, point: Point) -> (Request<Item<P>>, Point)
    requires worker { worker ≤ MOST_WORKERS }
    requires within { IsWithin plan point }
    requires more { point.rounds < plan.rounds }
    ensures { IsNext P.wide worker plan point result.0 result.1 }
{
    let Point {
        rounds,
        pushed,
        popped,
    } = point;
    if pushed < plan.pushes {
        let request = Request::Push(item_of(worker, pushed));
        let pushed = pushed + 1;
        let after = Point {
            rounds,
            pushed,
            popped,
        };
        return (request, past(plan, after));
    }
    let popped = popped + 1;
    let after = Point {
        rounds,
        pushed,
        popped,
    };
    (Request::Pop, past(plan, after))
}
