// Batches of one member beside another that posts: what was posted before is served before, and no line comes between.
use crate::tests::schedule::{Row, Schedule, Step, plays_to};
use crate::tests::{Wanted, push};
use flat_queue::{CallError, QueueError};
use pq_types::{Answer, Item, Reply, Request};

const FIRST: Item = Item {
    priority: 5,
    value: 1,
};

const SIXTH: Item = Item {
    priority: 5,
    value: 6,
};

const FULL: Option<CallError> = Some(CallError::BookFull);

// The second batch of pops ends at its room, between items of one priority; the last batch of pushes where the journal is full,
// behind a pop that was posted before it. Where none is due, nothing is asked of the full journal.
const ROWS: [Row; 13] = [
    (0, Step::Joins(0)),
    (1, Step::Joins(1)),
    (0, Step::Posts(Request::Push(FIRST))),
    (1, Step::PushesAll([(5, 2), (3, 3), (5, 4)], (3, 2, None))),
    (0, Step::Looks(Some(Answer::Entered(1, Reply::Pushed)))),
    (
        1,
        Step::PopsAllUpTo(4, [(3, 3), (0, 0), (0, 0)], (1, 5, None)),
    ),
    (1, Step::PushesAll([(5, 6), (9, 7), (5, 8)], (3, 6, None))),
    (
        1,
        Step::PopsAllUpTo(5, [(5, 1), (5, 2), (5, 4)], (3, 9, None)),
    ),
    (0, Step::Posts(Request::Pop)),
    (1, Step::PushesAll([(1, 1), (2, 2), (3, 3)], (1, 13, FULL))),
    (0, Step::Looks(Some(Answer::Entered(12, Reply::Got(SIXTH))))),
    (
        1,
        Step::PopsAllUpTo(9, [(0, 0), (0, 0), (0, 0)], (0, 14, FULL)),
    ),
    (
        1,
        Step::PopsAllUpTo(0, [(0, 0), (0, 0), (0, 0)], (0, 14, None)),
    ),
];

fn got(priority: u32, value: u32) -> Reply {
    Reply::Got(Item { priority, value })
}

// The push that the full journal refused has the serial 12.
fn lines() -> [Wanted; 13] {
    [
        (0, 1, push(5, 1), Reply::Pushed),
        (1, 1, push(5, 2), Reply::Pushed),
        (1, 2, push(3, 3), Reply::Pushed),
        (1, 3, push(5, 4), Reply::Pushed),
        (1, 4, Request::Pop, got(3, 3)),
        (1, 5, push(5, 6), Reply::Pushed),
        (1, 6, push(9, 7), Reply::Pushed),
        (1, 7, push(5, 8), Reply::Pushed),
        (1, 8, Request::Pop, got(5, 1)),
        (1, 9, Request::Pop, got(5, 2)),
        (1, 10, Request::Pop, got(5, 4)),
        (0, 2, Request::Pop, got(5, 6)),
        (1, 11, push(1, 1), Reply::Pushed),
    ]
}

#[test]
fn batches_stand_together_behind_what_was_posted(rt: HostRuntime) -> Result<(), QueueError> {
    plays_to(
        &rt,
        rt.alloc(),
        Schedule {
            ids: &[7, 8],
            room: 13,
            rows: &ROWS,
            wanted: &lines(),
        },
    )
}
