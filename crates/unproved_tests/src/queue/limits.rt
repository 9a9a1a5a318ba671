// A queue with a bound, and one that refuses what would have memory forget a line before it is archived.
use crate::queue::Heap;
use flat_queue::{ArchiveError, CallError, Handle, Length, Newcomer, Queue, QueueError};
use leftist_heap::Leftist;
use pq_types::{Answer, Item, Line, Refusal, Request};
use std::alloc::Global;
use std::process::Abort;
use std::sync::Wait;
use std::test::Fail;

const ITEM: Item = Item {
    priority: 3,
    value: 4,
};

// A queue for two with these limits, and its newcomers.
fn limited(
    alloc: Global,
    length: Length,
    bound: Option<u64>,
) -> Result<(Queue<Heap>, Vec<Newcomer>), QueueError> {
    Queue::limited(alloc, &[5, 6], Leftist::new(alloc), length, bound)
}

fn one<R: Abort>(rt: &R, newcomers: &mut Vec<Newcomer>) -> Newcomer {
    newcomers.pop().expect(rt, "one may come")
}

// How many pushes are entered until one is refused, and why.
fn pushes_until_refused<R: Abort + Wait>(
    rt: &R,
    handle: &mut Handle<'_, Heap>,
) -> (u64, CallError) {
    for entered in 0..100u64 {
        if let Err(why) = handle.push(rt, ITEM) {
            return (entered, why);
        }
    }
    panic!(rt; "no push is refused")
}

// It refuses a push while it has as many items as its bound, also one that was posted, and has no line of it.
fn refuses_at<R: Abort + Wait>(rt: &R, alloc: Global, length: Length, bound: u64) {
    let (queue, mut newcomers) = limited(alloc, length, Some(bound))
        .ok()
        .expect(rt, "it opens");
    let mut handle = queue.enter(one(rt, &mut newcomers));
    let full = CallError::Refused(Refusal::Full);
    assert!(rt; pushes_until_refused(rt, &mut handle) == (bound, full));
    let mut other = queue.join(one(rt, &mut newcomers));
    queue.post(&mut other, Request::Push(ITEM));
    assert!(rt; handle.try_round().is_some());
    assert!(rt; queue.look(&mut other) == Some(Answer::Refused(Refusal::Full.padded())));
    assert!(rt; handle.settle() == Some(bound));
    if bound > 0 {
        assert!(rt; handle.pop(rt) == Ok((bound + 1, Some(ITEM))));
        assert!(rt; handle.push(rt, ITEM) == Ok(bound + 2));
        assert!(rt; handle.push(rt, ITEM) == Err(full));
    }
    drop(handle);
}

#[test]
fn a_push_is_refused_at_the_bound(rt: HostRuntime) -> Result<(), Fail> {
    let lengths = [Length::Lines(64), Length::Keeping(16), Length::Archived(16)];
    for length in lengths {
        refuses_at(&rt, rt.alloc(), length, 0);
        refuses_at(&rt, rt.alloc(), length, 1);
        refuses_at(&rt, rt.alloc(), length, 5);
    }
    Ok(())
}

// Without a bound, and with the greatest, a short journal fills.
#[test]
fn no_bound_refuses_nothing(rt: HostRuntime) -> Result<(), Fail> {
    let bounds = [None, Some(u64::MAX), Some(3)];
    for bound in bounds {
        let (queue, mut newcomers) = limited(rt.alloc(), Length::Lines(3), bound)?;
        let mut handle = queue.enter(one(&rt, &mut newcomers));
        assert!(&rt; pushes_until_refused(&rt, &mut handle) == (3, CallError::BookFull));
        drop(handle);
    }
    Ok(())
}

// Of a queue that refuses rather than forget, the journal goes on as far beyond what is archived as memory keeps. An archive that
// is ahead of the journal is refused, and lets nothing go on.
#[test]
fn a_queue_goes_on_behind_its_archive(rt: HostRuntime) -> Result<(), Fail> {
    let (queue, mut newcomers) = limited(rt.alloc(), Length::Archived(16), None)?;
    let mut handle = queue.enter(one(&rt, &mut newcomers));
    let unarchived = CallError::Refused(Refusal::Unarchived);
    assert!(&rt; pushes_until_refused(&rt, &mut handle) == (16, unarchived));
    assert!(&rt; handle.pop(&rt) == Err(unarchived) && handle.settle() == Some(16));
    let mut archive: Vec<Line> = Vec::new(rt.alloc());
    assert!(&rt; handle.archive(17, &mut archive) == Some(Err(ArchiveError::Ahead)));
    assert!(&rt; handle.archive(u64::MAX, &mut archive) == Some(Err(ArchiveError::Ahead)));
    assert!(&rt; handle.archive(0, &mut archive) == Some(Ok(16)) && archive.len() == 16);
    assert!(&rt; handle.push(&rt, ITEM) == Err(unarchived));
    assert!(&rt; handle.archive(3, &mut Vec::new(rt.alloc())) == Some(Ok(16)));
    assert!(&rt; pushes_until_refused(&rt, &mut handle) == (3, unarchived));
    // One that says less than before takes nothing back.
    assert!(&rt; handle.archive(16, &mut archive) == Some(Ok(19)) && archive.len() == 19);
    assert!(&rt;
        handle.archive(2, &mut Vec::new(rt.alloc())) == Some(Err(ArchiveError::Forgotten))
    );
    assert!(&rt; pushes_until_refused(&rt, &mut handle) == (13, unarchived));
    assert!(&rt; handle.archive(15, &mut archive) == Some(Err(ArchiveError::Forgotten)));
    assert!(&rt; archive.len() == 19 && handle.push(&rt, ITEM) == Err(unarchived));
    drop(handle);
    Ok(())
}

// Of one that forgets, nothing waits for an archive.
#[test]
fn a_queue_that_forgets_goes_on_without_an_archive(rt: HostRuntime) -> Result<(), Fail> {
    let (queue, mut newcomers) = limited(rt.alloc(), Length::Keeping(16), None)?;
    let mut handle = queue.enter(one(&rt, &mut newcomers));
    for number in 1..41u64 {
        assert!(&rt; handle.push(&rt, ITEM) == Ok(number));
    }
    assert!(&rt;
        handle.archive(23, &mut Vec::new(rt.alloc())) == Some(Err(ArchiveError::Forgotten))
    );
    assert!(&rt; handle.archive(24, &mut Vec::new(rt.alloc())) == Some(Ok(40)));
    drop(handle);
    Ok(())
}

// The ids are refused before the length, and the length at each end of its range.
#[test]
fn lengths_out_of_range_are_refused(rt: HostRuntime) -> Result<(), Fail> {
    let lengths = [
        Length::Lines(0),
        Length::Lines(1_048_577),
        Length::Keeping(15),
        Length::Keeping(16_777_217),
        Length::Archived(15),
        Length::Archived(16_777_217),
    ];
    for length in lengths {
        assert!(&rt;
            limited(rt.alloc(), length, Some(9)).err() == Some(QueueError::LinesOutOfRange)
        );
    }
    Ok(())
}
