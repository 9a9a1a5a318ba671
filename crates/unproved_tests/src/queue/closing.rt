// A queue that is closed with all its members.
use crate::queue::{Wanted, next, opened, stands};
use pq_types::{Item, Reply, Request};
use std::test::Fail;

const FIVE: Item = Item {
    priority: 5,
    value: 1,
};

const LINES: [Wanted; 1] = [(0, 1, Request::Push(FIVE), Reply::Pushed)];

// The first has pushed, the second waits for an answer that nobody gives, and the third has not joined.
#[test]
fn a_queue_is_closed_with_members_and_newcomers(rt: HostRuntime) -> Result<(), Fail> {
    let alloc = rt.alloc();
    let (queue, mut newcomers) = opened(alloc, &[7, 8, 9], 4)?;
    let mut first = queue.enter(next(&rt, &mut newcomers));
    let second = queue.enter(next(&rt, &mut newcomers));
    assert!(rt; first.push(&rt, FIVE) == Ok(1));
    let waits = second.post(Request::Pop).into_member();
    let members = vec![in alloc; first.into_member(), waits]?;
    let others = vec![in alloc; next(&rt, &mut newcomers)]?;
    stands(&rt, queue.close_all(members, others), &LINES);
    Ok(())
}

// Nobody has joined.
#[test]
fn a_queue_is_closed_with_newcomers_alone(rt: HostRuntime) -> Result<(), Fail> {
    let alloc = rt.alloc();
    let (queue, mut newcomers) = opened(alloc, &[7, 8], 4)?;
    let others = vec![in alloc; next(&rt, &mut newcomers), next(&rt, &mut newcomers)]?;
    stands(&rt, queue.close_all(Vec::new(alloc), others), &[]);
    Ok(())
}

// The one member of a queue for one closes it.
#[test]
fn a_queue_is_closed_with_its_only_member(rt: HostRuntime) -> Result<(), Fail> {
    let alloc = rt.alloc();
    let (queue, mut newcomers) = opened(alloc, &[7], 4)?;
    let mut only = queue.enter(next(&rt, &mut newcomers));
    assert!(rt; only.push(&rt, FIVE) == Ok(1));
    let members = vec![in alloc; only.into_member()]?;
    stands(&rt, queue.close_all(members, Vec::new(alloc)), &LINES);
    Ok(())
}
