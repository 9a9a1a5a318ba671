// Worked schedules of members in one thread.
use crate::tests::Wanted;
use crate::tests::schedule::{Row, Schedule, Step, plays_to};
use flat_queue::QueueError;
use pq_types::{Answer, Item, Reply, Request};
use std::test::Fail;

const FOUR: Item = Item {
    priority: 4,
    value: 8,
};

const NINE: Item = Item {
    priority: 9,
    value: 9,
};

// Three have joined one after another, and each has posted: the last a push, the first a pop, and
// the second another push.
const ROUND_ROWS: [Row; 17] = [
    (0, Step::Joins(0)),
    (1, Step::Joins(1)),
    (2, Step::Joins(3)),
    (2, Step::Posts(Request::Push(FOUR))),
    (0, Step::Posts(Request::Pop)),
    (1, Step::Posts(Request::Push(NINE))),
    (2, Step::Looks(None)),
    (0, Step::MakesRound(3, 6)),
    (2, Step::Looks(Some(Answer::Entered(3, Reply::Pushed)))),
    (0, Step::Looks(Some(Answer::Entered(1, Reply::Empty)))),
    (2, Step::MakesRound(0, 6)),
    (1, Step::Settles(3)),
    (1, Step::Looks(Some(Answer::Entered(2, Reply::Pushed)))),
    (1, Step::Posts(Request::Least)),
    (1, Step::MakesRound(1, 6)),
    (1, Step::Looks(Some(Answer::Entered(4, Reply::Least(FOUR))))),
    (2, Step::Settles(4)),
];

const ROUND_LINES: [Wanted; 4] = [
    (0, 1, Request::Pop, Reply::Empty),
    (1, 1, Request::Push(NINE), Reply::Pushed),
    (3, 1, Request::Push(FOUR), Reply::Pushed),
    (1, 2, Request::Least, Reply::Least(FOUR)),
];

#[test]
fn one_round_answers_all_in_the_order_of_their_places(rt: HostRuntime) -> Result<(), QueueError> {
    plays_to(
        &rt,
        rt.alloc(),
        Schedule {
            ids: &[1, 2, 3],
            room: 4,
            rows: &ROUND_ROWS,
            wanted: &ROUND_LINES,
        },
    )
}

// Whoever posts a push stores its item anew, whatever it drafted.
const DRAFT_ROWS: [Row; 6] = [
    (0, Step::Joins(0)),
    (1, Step::Joins(1)),
    (1, Step::Drafts(NINE)),
    (0, Step::MakesRound(0, 6)),
    (1, Step::Posts(Request::Push(FOUR))),
    (1, Step::MakesRound(1, 6)),
];

const DRAFT_LINES: [Wanted; 1] = [(1, 1, Request::Push(FOUR), Reply::Pushed)];

#[test]
fn a_draft_is_no_post(rt: HostRuntime) -> Result<(), QueueError> {
    plays_to(
        &rt,
        rt.alloc(),
        Schedule {
            ids: &[1, 2, 3],
            room: 4,
            rows: &DRAFT_ROWS,
            wanted: &DRAFT_LINES,
        },
    )
}

// Of 64 comers five arrive, one after another, and lie on one diagonal each. A trail scan reads two doors
// for each of them and one more; a scan of diagonals reads all doors of theirs and of the next.
const TURN_ROWS: [Row; 15] = [
    (0, Step::Joins(0)),
    (0, Step::FollowsTrail(0, 3)),
    (0, Step::MakesRound(0, 3)),
    (1, Step::Joins(1)),
    (0, Step::FollowsTrail(0, 5)),
    (0, Step::MakesRound(0, 6)),
    (2, Step::Joins(3)),
    (1, Step::FollowsTrail(0, 7)),
    (1, Step::MakesRound(0, 10)),
    (3, Step::Joins(6)),
    (2, Step::FollowsTrail(0, 9)),
    (2, Step::MakesRound(0, 15)),
    (4, Step::Joins(10)),
    (4, Step::FollowsTrail(0, 11)),
    (4, Step::MakesRound(0, 21)),
];

#[test]
fn a_round_reads_no_more_doors_than_the_few_that_came_need(rt: HostRuntime) -> Result<(), Fail> {
    let ids: Vec<u64> = (1..=64).collect(rt.alloc())?;
    Ok(plays_to(
        &rt,
        rt.alloc(),
        Schedule {
            ids: ids.as_slice(),
            room: 8,
            rows: &TURN_ROWS,
            wanted: &[],
        },
    )?)
}

const SIX: Item = Item {
    priority: 6,
    value: 0,
};

// After how many steps the first comer halts, where the second, the third and it stop, and how many
// doors the last trail scan reads.
const HALTS: [(u32, [u16; 3], u32); 5] = [
    (0, [0, 1, 3], 5),
    // It has written its id.
    (1, [0, 1, 3], 5),
    // It has seen the door open.
    (2, [0, 1, 2], 6),
    // It has closed the door.
    (3, [1, 3, 2], 6),
    // It has stopped.
    (4, [1, 3, 0], 5),
];

// The first comer halts after so many steps, two others join, and one makes this round for both. Then
// the first goes on, and makes a round of its own.
fn rows_of(steps: u32, places: [u16; 3], round: Step, own: Step) -> [Row; 12] {
    let [second, third, first] = places;
    [
        (0, Step::Halts(steps)),
        (0, Step::Joins(second)),
        (1, Step::Joins(third)),
        (0, Step::Posts(Request::Push(SIX))),
        (1, Step::Posts(Request::Pop)),
        (0, round),
        (0, Step::Looks(Some(Answer::Entered(1, Reply::Pushed)))),
        (1, Step::Looks(Some(Answer::Entered(2, Reply::Got(SIX))))),
        (2, Step::GoesOn(first)),
        (2, Step::Posts(Request::Least)),
        (2, own),
        (2, Step::Looks(Some(Answer::Entered(3, Reply::Empty)))),
    ]
}

// By rounds that scan diagonals, and by rounds that follow the trail.
#[test]
fn a_comer_that_halts_after_any_step_keeps_nobody_from_an_answer(
    rt: HostRuntime,
) -> Result<(), QueueError> {
    for (steps, places, doors) in &HALTS {
        let [second, third, first] = *places;
        let lines: [Wanted; 3] = [
            (second, 1, Request::Push(SIX), Reply::Pushed),
            (third, 1, Request::Pop, Reply::Got(SIX)),
            (first, 1, Request::Least, Reply::Empty),
        ];
        let rounds = [
            (Step::MakesRound(2, 6), Step::MakesRound(1, 6)),
            (Step::FollowsTrail(2, 5), Step::FollowsTrail(1, *doors)),
        ];
        for (round, own) in rounds {
            let rows = rows_of(*steps, *places, round, own);
            plays_to(
                &rt,
                rt.alloc(),
                Schedule {
                    ids: &[1, 2, 3],
                    room: 8,
                    rows: &rows,
                    wanted: &lines,
                },
            )?;
        }
    }
    Ok(())
}
