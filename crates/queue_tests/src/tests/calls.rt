// A call that gave up, and one whose member has spent its serials.
use crate::tests::schedule::{Row, Schedule, Step, first_comes, plays_to};
use crate::tests::{Wanted, opened};
use flat_queue::{CallError, Handle, QueueError};
use leftist_heap::Store;
use pq_book::Entry;
use pq_types::{Answer, Item, Reply, Request};
use std::process::Abort;
use std::sync::Wait;
use std::test::Fail;

const FIVE: Item = Item {
    priority: 5,
    value: 1,
};

// A request whose call gave up stays posted, and is answered by the next round of whoever makes
// one.
const LATER_ROWS: [Row; 7] = [
    (0, Step::Joins(0)),
    (1, Step::Joins(1)),
    (0, Step::GivesUp(Request::Push(FIVE))),
    (0, Step::Looks(None)),
    (1, Step::MakesRound(1, 3)),
    (0, Step::Looks(Some(Answer::Entered(1, Reply::Pushed)))),
    (0, Step::Calls(Request::Pop, Ok((2, Reply::Got(FIVE))))),
];

const LATER_LINES: [Wanted; 2] = [
    (0, 1, Request::Push(FIVE), Reply::Pushed),
    (0, 2, Request::Pop, Reply::Got(FIVE)),
];

#[test]
fn a_call_that_gave_up_is_answered_later(rt: HostRuntime) -> Result<(), QueueError> {
    plays_to(
        &rt,
        rt.alloc(),
        Schedule {
            ids: &[7, 8],
            room: 4,
            rows: &LATER_ROWS,
            wanted: &LATER_LINES,
        },
    )
}

// Each serial is spent, all but the first at a full journal.
fn spends<R: Abort + Wait, S: Store<Entry>>(rt: &R, handle: &mut Handle<'_, S>) {
    assert!(rt; handle.call(rt, Request::Pop) == Ok((1, Reply::Empty)));
    for _ in 1..16_777_215u64 {
        assert!(rt; handle.call(rt, Request::Pop) == Err(CallError::BookFull));
    }
    assert!(rt; handle.posts() == 16_777_215);
    assert!(rt; handle.call(rt, Request::Pop) == Err(CallError::Spent));
    assert!(rt; handle.posts() == 16_777_215);
}

#[test]
fn a_member_whose_serials_are_spent_posts_no_more(rt: HostRuntime) -> Result<(), Fail> {
    let (queue, newcomers) = opened(rt.alloc(), &[7], 1)?;
    let mut handle = first_comes(&rt, &queue, newcomers).enters();
    spends(&rt, &mut handle);
    drop(handle);
    drop(queue);
    Ok(())
}
