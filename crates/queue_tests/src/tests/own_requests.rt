// Members that carry their own requests out, beside others that post: each order of the two, beside
// comers that halt, and with a hint that is wrong.
use crate::tests::Wanted;
use crate::tests::schedule::{Row, Schedule, Step, plays_to};
use flat_queue::QueueError;
use pq_types::{Answer, Item, Reply, Request};

const FIVE: Item = Item {
    priority: 5,
    value: 1,
};

// The one that enters serves what was posted before it, and not what is posted behind it.
const MIXED_ROWS: [Row; 10] = [
    (0, Step::Joins(0)),
    (1, Step::Joins(1)),
    (0, Step::Posts(Request::Push(FIVE))),
    (1, Step::Enters(Request::Pop, (2, Reply::Got(FIVE)))),
    (0, Step::Looks(Some(Answer::Entered(1, Reply::Pushed)))),
    (1, Step::Enters(Request::Push(FIVE), (3, Reply::Pushed))),
    (0, Step::Posts(Request::Least)),
    (0, Step::MakesRound(1, 3)),
    (0, Step::Looks(Some(Answer::Entered(4, Reply::Least(FIVE))))),
    (0, Step::Enters(Request::Pop, (5, Reply::Got(FIVE)))),
];

const MIXED_LINES: [Wanted; 5] = [
    (0, 1, Request::Push(FIVE), Reply::Pushed),
    (1, 1, Request::Pop, Reply::Got(FIVE)),
    (1, 2, Request::Push(FIVE), Reply::Pushed),
    (0, 2, Request::Least, Reply::Least(FIVE)),
    (0, 3, Request::Pop, Reply::Got(FIVE)),
];

#[test]
fn posts_and_own_requests_are_entered_in_either_order(rt: HostRuntime) -> Result<(), QueueError> {
    plays_to(
        &rt,
        rt.alloc(),
        Schedule {
            ids: &[7, 8],
            room: 8,
            rows: &MIXED_ROWS,
            wanted: &MIXED_LINES,
        },
    )
}

// A comer that halts on its way, and one that has posted and halts then, keep nobody from entering.
const HALTED_ROWS: [Row; 8] = [
    (0, Step::Joins(0)),
    (0, Step::Halts(2)),
    (0, Step::Enters(Request::Push(FIVE), (1, Reply::Pushed))),
    (1, Step::Joins(1)),
    (1, Step::Posts(Request::Least)),
    (0, Step::Enters(Request::Pop, (3, Reply::Got(FIVE)))),
    (2, Step::GoesOn(3)),
    (2, Step::Enters(Request::Pop, (4, Reply::Empty))),
];

const HALTED_LINES: [Wanted; 4] = [
    (0, 1, Request::Push(FIVE), Reply::Pushed),
    (1, 1, Request::Least, Reply::Least(FIVE)),
    (0, 2, Request::Pop, Reply::Got(FIVE)),
    (3, 1, Request::Pop, Reply::Empty),
];

#[test]
fn halted_comers_keep_nobody_from_entering(rt: HostRuntime) -> Result<(), QueueError> {
    plays_to(
        &rt,
        rt.alloc(),
        Schedule {
            ids: &[7, 8, 9],
            room: 8,
            rows: &HALTED_ROWS,
            wanted: &HALTED_LINES,
        },
    )
}

// A hint that is set though nothing waits for a round, by one that is answered and has not looked, costs a sweep;
// where it is clear though somebody has posted, that one is served by its own round.
const HINT_ROWS: [Row; 12] = [
    (0, Step::Joins(0)),
    (1, Step::Joins(1)),
    (1, Step::Posts(Request::Least)),
    (0, Step::MakesRound(1, 3)),
    (1, Step::Hints(true)),
    (1, Step::Looks(Some(Answer::Entered(1, Reply::Empty)))),
    (1, Step::Enters(Request::Pop, (2, Reply::Empty))),
    (0, Step::Posts(Request::Push(FIVE))),
    (0, Step::Hints(false)),
    (1, Step::Enters(Request::Pop, (3, Reply::Empty))),
    (0, Step::MakesRound(1, 3)),
    (0, Step::Looks(Some(Answer::Entered(4, Reply::Pushed)))),
];

const HINT_LINES: [Wanted; 4] = [
    (1, 1, Request::Least, Reply::Empty),
    (1, 2, Request::Pop, Reply::Empty),
    (1, 3, Request::Pop, Reply::Empty),
    (0, 1, Request::Push(FIVE), Reply::Pushed),
];

#[test]
fn a_wrong_hint_changes_no_answer(rt: HostRuntime) -> Result<(), QueueError> {
    plays_to(
        &rt,
        rt.alloc(),
        Schedule {
            ids: &[7, 8],
            room: 4,
            rows: &HINT_ROWS,
            wanted: &HINT_LINES,
        },
    )
}
