// A delay queue: items are taken once they are due, an earlier one wakes who waits, and a deadline or the end of the queue ends a
// wait. A look has no line.
use flat_queue::{CallError, Due, Handle, Newcomer, Queue, Times};
use leftist_heap::Leftist;
use pq_book::Entry;
use pq_types::{Item, Request};
use std::alloc::Global;
use std::process::Abort;
use std::sync::Wait;
use std::test::Fail;
use std::thread::{self, Threads};
use std::time::{Clock, CpuClock, Duration, Instant};

type Heap = Leftist<Entry, Global>;

fn item(priority: u32, value: u32) -> Item {
    Item { priority, value }
}

fn opened<R: Abort>(rt: &R, alloc: Global, ids: &[u64]) -> (Queue<Heap>, Vec<Newcomer>) {
    let Ok(opened) = Queue::lasting(alloc, ids, Leftist::new(alloc)) else {
        panic!(rt; "there is such a queue")
    };
    opened
}

fn entered<'q, R: Abort>(
    rt: &R,
    queue: &'q Queue<Heap>,
    newcomers: &mut Vec<Newcomer>,
) -> Handle<'q, Heap> {
    queue.enter(newcomers.pop().expect(rt, "there is one"))
}

// Priorities are milliseconds from now.
fn from_now<R: Abort + Clock>(rt: &R) -> Times {
    Times {
        start: Instant::now(rt).expect(rt, "there is a clock"),
        unit: 1_000_000,
    }
}

fn due_at<R: Abort>(rt: &R, times: Times, priority: u32) -> Instant {
    times
        .due_at(u64::from(priority))
        .expect(rt, "there is such a time")
}

// No take is announced any more, so that an event is owed to nobody.
fn is_awaited_by_nobody<R: Abort>(rt: &R, queue: &Queue<Heap>) {
    queue.waiters().count(u64::MAX);
    assert!(rt; queue.waiters().owed_wakes() == 0);
}

// A minute, in milliseconds.
const FAR: u32 = 60_000;

#[test]
fn items_are_taken_once_they_are_due(rt: HostRuntime) -> Result<(), Fail> {
    let (queue, mut newcomers) = opened(&rt, rt.alloc(), &[1]);
    let mut handle = entered(&rt, &queue, &mut newcomers);
    let times = from_now(&rt);
    for (line, pushed) in [(1, item(40, 1)), (2, item(20, 2)), (3, item(20, 3))] {
        assert!(&rt; handle.push(&rt, pushed) == Ok(line));
    }
    for (line, priority, value) in [(4, 20, 2), (5, 20, 3), (6, 40, 1)] {
        let Ok(Due::Taken(told, taken, now)) = handle.take_due(&rt, times, None) else {
            panic!(&rt; "there is an item")
        };
        assert!(&rt; told == line && taken == item(priority, value));
        assert!(&rt; now >= due_at(&rt, times, priority));
        assert!(&rt; Instant::now(&rt).expect(&rt, "there is a clock") >= now);
    }
    assert!(&rt; handle.settle() == Some(6));
    is_awaited_by_nobody(&rt, &queue);
    Ok(())
}

#[test]
fn a_deadline_ends_a_wait_for_what_is_due(rt: HostRuntime) -> Result<(), Fail> {
    let (queue, mut newcomers) = opened(&rt, rt.alloc(), &[1]);
    let mut handle = entered(&rt, &queue, &mut newcomers);
    let times = from_now(&rt);
    let deadline = due_at(&rt, times, 20);
    let Ok(Due::Nothing(now)) = handle.take_due(&rt, times, Some(deadline)) else {
        panic!(&rt; "no item comes")
    };
    assert!(&rt; now >= deadline && handle.settle() == Some(0));
    assert!(&rt; handle.push(&rt, item(FAR, 1)) == Ok(1));
    let deadline = due_at(&rt, from_now(&rt), 20);
    let Ok(Due::Later(left, now)) = handle.take_due(&rt, times, Some(deadline)) else {
        panic!(&rt; "the item is not due")
    };
    assert!(&rt; left == item(FAR, 1) && now >= deadline && handle.settle() == Some(1));
    // Before the start nothing is due; where the deadline has passed it looks once, and takes what is due.
    let later = Times {
        start: due_at(&rt, times, FAR),
        unit: 1,
    };
    assert!(&rt; handle.push(&rt, item(0, 2)) == Ok(2));
    let told = handle.take_due(&rt, later, Some(deadline));
    assert!(&rt; matches!(told, Ok(Due::Later(left, _)) if left == item(0, 2)));
    let told = handle.take_due(&rt, times, Some(deadline));
    assert!(&rt; matches!(told, Ok(Due::Taken(3, taken, _)) if taken == item(0, 2)));
    assert!(&rt; handle.settle() == Some(3));
    is_awaited_by_nobody(&rt, &queue);
    Ok(())
}

// A call beside a thread that keeps the lock ends at its deadline, or by one try where that has passed. It has made no request,
// hands a wake on, and leaves the item to a later call.
#[test]
fn a_deadline_ends_a_wait_for_the_lock(rt: HostRuntime) -> Result<(), Fail> {
    let (queue, mut newcomers) = opened(&rt, rt.alloc(), &[1, 2]);
    let mut leader = entered(&rt, &queue, &mut newcomers);
    let mut handle = entered(&rt, &queue, &mut newcomers);
    assert!(&rt; leader.push(&rt, item(0, 1)) == Ok(1));
    let waiters = queue.waiters();
    let seen = waiters.begin_wait();
    let times = from_now(&rt);
    let deadline = due_at(&rt, times, 30);
    let lead = leader.lead().expect(&rt, "the lock is free");
    let told = handle.take_due(&rt, times, Some(deadline));
    let again = handle.take_due_or_end(&rt, times, Some(times.start));
    leader.release(lead);
    assert!(&rt; matches!(told, Ok(Due::Held(now)) if now >= deadline));
    assert!(&rt; matches!(again, Ok(Some(Due::Held(now))) if now >= deadline));
    assert!(&rt; handle.posts() == 0 && waiters.begin_wait() == seen + 2);
    waiters.end_wait();
    waiters.end_wait();
    let told = handle.take_due(&rt, times, Some(deadline));
    assert!(&rt; matches!(told, Ok(Due::Taken(2, taken, _)) if taken == item(0, 1)));
    assert!(&rt; handle.settle() == Some(2));
    is_awaited_by_nobody(&rt, &queue);
    Ok(())
}

// A unit of no time, and times that no clock comes to.
#[test]
fn times_of_all_sizes_are_told(rt: HostRuntime) -> Result<(), Fail> {
    let Times { start, unit: _ } = from_now(&rt);
    let at_once = Times { start, unit: 0 };
    assert!(&rt; at_once.due_at(u64::MAX) == Some(start));
    let never = Times {
        start,
        unit: u64::MAX,
    };
    assert!(&rt; never.due_at(u64::MAX).is_none() && never.due_at(0) == Some(start));
    let (queue, mut newcomers) = Queue::wide(rt.alloc(), &[1], 8)?;
    let mut handle = queue.enter(newcomers.pop().expect(&rt, "there is one"));
    let last = Item {
        priority: u64::MAX,
        value: 7_u64,
    };
    assert!(&rt; handle.push(&rt, last) == Ok(1));
    let told = handle.take_due(&rt, never, Some(start));
    assert!(&rt; matches!(told, Ok(Due::Later(left, _)) if left == last));
    let told = handle.take_due(&rt, at_once, None);
    assert!(&rt; matches!(told, Ok(Due::Taken(2, taken, _)) if taken == last));
    drop(handle);
    drop(queue);
    Ok(())
}

// A take whose look carries out the push of another wakes whoever is owed that.
#[test]
fn a_look_that_served_a_push_owes_no_wake(rt: HostRuntime) -> Result<(), Fail> {
    let (queue, mut newcomers) = opened(&rt, rt.alloc(), &[1, 2]);
    let mut handle = entered(&rt, &queue, &mut newcomers);
    let mut other = queue.join(newcomers.pop().expect(&rt, "there is one"));
    let waiters = queue.waiters();
    let seen = waiters.begin_wait();
    queue.post(&mut other, Request::Push(item(0, 1)));
    let told = handle.take_due(&rt, from_now(&rt), None);
    assert!(&rt; matches!(told, Ok(Due::Taken(_, taken, _)) if taken == item(0, 1)));
    assert!(&rt; waiters.owed_wakes() == 0 && queue.look(&mut other).is_some());
    // It was counted all the same.
    assert!(&rt; waiters.begin_wait() == seen + 1);
    waiters.end_wait();
    waiters.end_wait();
    is_awaited_by_nobody(&rt, &queue);
    Ok(())
}

// How long those of the next test sleep before others push, in milliseconds.
const ASLEEP: u64 = 60;

// The first pushes two items that are due soon, once the others wait for one that is due much later. Each of these takes one of
// them in time, and has worked little until then.
fn pushes_or_takes<R: Abort + Clock + CpuClock + Wait>(
    rt: &R,
    queue: &Queue<Heap>,
    newcomer: Newcomer,
    times: Times,
) -> bool {
    let pushes = newcomer.id() == 1;
    let mut handle = queue.enter(newcomer);
    if pushes {
        thread::sleep(rt, Duration::from_millis(ASLEEP));
        return handle.push(rt, item(150, 1)).is_ok() && handle.push(rt, item(120, 2)).is_ok();
    }
    let before = rt.thread_cpu_time().expect(rt, "there is a clock");
    let told = handle.take_due(rt, times, Some(due_at(rt, times, FAR / 2)));
    let after = rt.thread_cpu_time().expect(rt, "there is a clock");
    matches!(told, Ok(Due::Taken(_, taken, now)) if now >= due_at(rt, times, taken.priority))
        && Instant::now(rt).expect(rt, "there is a clock") < due_at(rt, times, FAR / 4)
        && after.saturating_sub(before) < Duration::from_millis(ASLEEP / 2)
}

#[test]
fn a_push_of_an_earlier_item_wakes_who_waits(rt: HostRuntime) -> Result<(), Fail> {
    let (queue, mut newcomers) = opened(&rt, rt.alloc(), &[1, 2, 3, 4]);
    let mut handle = entered(&rt, &queue, &mut newcomers);
    let times = from_now(&rt);
    assert!(&rt; handle.push(&rt, item(FAR, 0)) == Ok(1));
    let went = thread::map_vec(
        &rt,
        newcomers,
        &|newcomer: Newcomer| pushes_or_takes(&rt, &queue, newcomer, times),
    );
    let Ok(went) = went else {
        panic!(&rt; "there is memory")
    };
    assert!(&rt; went[0] && went[1] && went[2] && handle.settle() == Some(5));
    is_awaited_by_nobody(&rt, &queue);
    Ok(())
}

// One that goes leaves the watch to another, where it has slept or leaves an item there, or is refused; and not where none is.
#[test]
fn one_that_goes_wakes_another(rt: HostRuntime) -> Result<(), Fail> {
    let Ok((queue, mut newcomers)) = Queue::new(rt.alloc(), &[1], 4) else {
        panic!(&rt; "there is such a queue")
    };
    let mut handle = queue.enter(newcomers.pop().expect(&rt, "there is one"));
    let waiters = queue.waiters();
    let seen = waiters.begin_wait();
    let times = from_now(&rt);
    let passed = Some(times.start);
    assert!(&rt; matches!(handle.take_due(&rt, times, passed), Ok(Due::Nothing(_))));
    waiters.end_wait();
    assert!(&rt; handle.push(&rt, item(50, 1)) == Ok(1) && handle.push(&rt, item(50, 2)) == Ok(2));
    assert!(&rt; waiters.begin_wait() == seen);
    let soon = from_now(&rt);
    assert!(&rt;
        matches!(
            handle.take_due(&rt, soon, Some(soon.start)),
            Ok(Due::Later(_, _))
        )
    );
    // This one sleeps, and the next one takes at once.
    assert!(&rt; matches!(handle.take_due(&rt, soon, None), Ok(Due::Taken(3, _, _))));
    assert!(&rt; waiters.begin_wait() == seen + 2 && waiters.owed_wakes() == 0);
    waiters.end_wait();
    // That takes the last line, which is for all.
    assert!(&rt; matches!(handle.take_due(&rt, soon, None), Ok(Due::Taken(4, _, _))));
    assert!(&rt; waiters.begin_wait() == seen + 3);
    waiters.end_wait();
    assert!(&rt; matches!(handle.take_due(&rt, soon, None), Err(CallError::BookFull)));
    assert!(&rt; waiters.begin_wait() == seen + 5 && waiters.owed_wakes() == 0);
    waiters.end_wait();
    waiters.end_wait();
    drop(handle);
    drop(queue);
    Ok(())
}

// The first shuts the queue once the others have slept; one of these takes the item that is left, once it is due, and the other
// is told the end behind that.
fn shuts_or_takes<R: Abort + Clock + Wait>(
    rt: &R,
    queue: &Queue<Heap>,
    newcomer: Newcomer,
    times: Times,
) -> u32 {
    let shuts = newcomer.id() == 1;
    let mut handle = queue.enter(newcomer);
    if shuts {
        thread::sleep(rt, Duration::from_millis(ASLEEP));
        assert!(rt; handle.shut(rt).is_ok());
        return 0;
    }
    match handle.take_due_or_end(rt, times, None) {
        Ok(Some(Due::Taken(_, _, _))) => 1,
        Ok(None) => 10,
        _ => 100,
    }
}

#[test]
fn who_waits_for_what_is_due_is_told_the_end(rt: HostRuntime) -> Result<(), Fail> {
    let (queue, mut newcomers) = opened(&rt, rt.alloc(), &[1, 2, 3, 4]);
    let mut handle = entered(&rt, &queue, &mut newcomers);
    let times = from_now(&rt);
    assert!(&rt; handle.push(&rt, item(100, 1)) == Ok(1));
    let went = thread::map_vec(
        &rt,
        newcomers,
        &|newcomer: Newcomer| shuts_or_takes(&rt, &queue, newcomer, times),
    );
    let Ok(went) = went else {
        panic!(&rt; "there is memory")
    };
    assert!(&rt; went[0] + went[1] + went[2] == 11 && handle.settle() == Some(3));
    assert!(&rt; matches!(handle.take_due_or_end(&rt, times, None), Ok(None)));
    // The end is told too where the deadline has come before the look that finds it.
    let passed = Some(times.start);
    assert!(&rt; matches!(handle.take_due_or_end(&rt, times, passed), Ok(None)));
    assert!(&rt; matches!(handle.take_due(&rt, times, passed), Ok(Due::Nothing(_))));
    assert!(&rt; handle.settle() == Some(3));
    is_awaited_by_nobody(&rt, &queue);
    Ok(())
}
