// A take that finds no item sleeps, and is woken by a push: whoever carries that out, and however many sleep.
use crate::common::{Heap, entered, item, opened};
use flat_queue::{Awaited, CallError, Called, Handle, Newcomer, Pending, Queue};
use pq_types::Request;
use std::process::Abort;
use std::sync::Wait;
use std::test::Fail;
use std::thread;
use std::time::{Clock, CpuClock, Duration, Instant};

// No take is announced any more, so that an event is owed to nobody.
fn is_awaited_by_nobody<R: Abort>(rt: &R, queue: &Queue<Heap>) {
    queue.waiters().count(u64::MAX);
    assert!(rt; queue.waiters().owed_wakes() == 0);
}

// Microseconds since this moment.
fn since<R: Abort + Clock>(rt: &R, start: Instant) -> u32 {
    let passed = start.elapsed(rt).expect(rt, "there is a clock");
    (passed.as_micros() & 0xffff_ffff) as u32
}

// The first pushes the time, 5 milliseconds later; the second takes it: how long that took behind the push, in microseconds.
fn push_or_take<R: Abort + Clock + Wait>(
    rt: &R,
    queue: &Queue<Heap>,
    newcomer: Newcomer,
    start: Instant,
) -> u32 {
    let pushes = newcomer.id() == 1;
    let mut handle = queue.enter(newcomer);
    if pushes {
        thread::sleep(rt, Duration::from_millis(5));
        assert!(rt; handle.push(rt, item(1, since(rt, start))).is_ok());
        return 0;
    }
    let Ok((line, pushed)) = handle.take(rt) else {
        panic!(rt; "there is an item")
    };
    assert!(rt; line <= 3);
    since(rt, start).saturating_sub(pushed.value)
}

// The least time of some rounds is short: elsewhere the machine is slow. One that polled would take as long as it naps.
#[test]
fn a_push_wakes_a_take(rt: HostRuntime) -> Result<(), Fail> {
    let mut least = u32::MAX;
    for _ in 0..20 {
        let (queue, newcomers) = opened(&rt, rt.alloc(), &[1, 2]);
        let start = Instant::now(&rt).expect(&rt, "there is a clock");
        let took = thread::map_vec(
            &rt,
            newcomers,
            &|newcomer: Newcomer| push_or_take(&rt, &queue, newcomer, start),
        );
        let Ok(took) = took else {
            panic!(&rt; "there is memory")
        };
        is_awaited_by_nobody(&rt, &queue);
        least = least.min(took[1]);
        if least < 2_000 {
            break;
        }
    }
    assert!(&rt; least < 2_000);
    Ok(())
}

// How often one is woken in vain.
const IN_VAIN: u32 = 10;

// The first wakes the other some times, and then pushes; the other takes the item: whether that has the third line of the
// journal at most, behind a pop in vain and the push.
fn wakes_or_takes<R: Abort + Clock + Wait>(
    rt: &R,
    queue: &Queue<Heap>,
    newcomer: Newcomer,
    has_deadline: bool,
) -> bool {
    let wakes = newcomer.id() == 1;
    let mut handle = queue.enter(newcomer);
    if wakes {
        for _ in 0..IN_VAIN {
            thread::sleep(rt, Duration::from_millis(3));
            queue.waiters().count(1);
            queue.waiters().wake_owed();
        }
        return handle.push(rt, item(1, 1)).is_ok();
    }
    if !has_deadline {
        return matches!(handle.take(rt), Ok((line, _)) if line <= 3);
    }
    let deadline = Instant::now(rt)
        .expect(rt, "there is a clock")
        .checked_add(Duration::from_millis(LONGEST))
        .expect(rt, "there is such a time");
    matches!(handle.take_until(rt, deadline), Ok(Awaited::Taken(line, _)) if line <= 3)
}

#[test]
fn a_wake_in_vain_has_no_line(rt: HostRuntime) -> Result<(), Fail> {
    for has_deadline in [false, true] {
        let (queue, newcomers) = opened(&rt, rt.alloc(), &[1, 2]);
        let went = thread::map_vec(
            &rt,
            newcomers,
            &|newcomer: Newcomer| wakes_or_takes(&rt, &queue, newcomer, has_deadline),
        );
        let Ok(went) = went else {
            panic!(&rt; "there is memory")
        };
        assert!(&rt; went[0] && went[1]);
        is_awaited_by_nobody(&rt, &queue);
    }
    Ok(())
}

// How long the two of the next test sleep, in milliseconds, and how long they would.
const ASLEEP: u64 = 150;

const LONGEST: u64 = 8_000;

// The first posts a push for itself and one for the second, once the others have slept for a while, and carries both out by one
// round. Of these each takes an item, long before its deadline, and has worked little until then.
fn leads_or_takes<R: Abort + Clock + CpuClock + Wait>(
    rt: &R,
    queue: &Queue<Heap>,
    newcomers: Vec<Newcomer>,
) -> bool {
    let start = Instant::now(rt).expect(rt, "there is a clock");
    let mut newcomers = newcomers;
    let mut handle = entered(rt, queue, &mut newcomers);
    let Some(newcomer) = newcomers.pop() else {
        let deadline = start
            .checked_add(Duration::from_millis(LONGEST))
            .expect(rt, "there is such a time");
        let before = rt.thread_cpu_time().expect(rt, "there is a clock");
        let taken = handle.take_until(rt, deadline);
        let after = rt.thread_cpu_time().expect(rt, "there is a clock");
        let elapsed = start.elapsed(rt).expect(rt, "there is a clock");
        return matches!(taken, Ok(Awaited::Taken(_, _)))
            && elapsed < Duration::from_millis(LONGEST / 2)
            && after.saturating_sub(before) < Duration::from_millis(ASLEEP / 8);
    };
    let mut other = queue.join(newcomer);
    thread::sleep(rt, Duration::from_millis(ASLEEP));
    queue.post(&mut other, Request::Push(item(1, 1)));
    let mut pending = handle.post(Request::Push(item(1, 2)));
    let is_led = pending.try_round().is_some();
    drop(pending);
    drop(other);
    is_led
}

// A round of two pushes wakes both that sleep, and sleep they do.
#[test]
fn a_round_wakes_as_many_as_it_pushes_for(rt: HostRuntime) -> Result<(), Fail> {
    let (queue, mut newcomers) = opened(&rt, rt.alloc(), &[1, 2, 3, 4]);
    // An event that was counted before is none for them.
    queue.waiters().begin_wait();
    queue.waiters().count(1);
    assert!(&rt; queue.waiters().owed_wakes() == 1);
    queue.waiters().end_wait();
    let mut jobs = Vec::new(rt.alloc());
    for count in [2, 1, 1] {
        let mut own = Vec::new(rt.alloc());
        for _ in 0..count {
            let newcomer = newcomers.pop().expect(&rt, "there is one");
            own.push(newcomer).ok().expect(&rt, "there is memory");
        }
        jobs.push(own).ok().expect(&rt, "there is memory");
    }
    let went = thread::map_vec(
        &rt,
        jobs,
        &|newcomers: Vec<Newcomer>| leads_or_takes(&rt, &queue, newcomers),
    );
    let Ok(went) = went else {
        panic!(&rt; "there is memory")
    };
    assert!(&rt; went[0] && went[1] && went[2]);
    Ok(())
}

// One sleeps until its deadline also where there were more events than 16 bits count: it has worked little until then.
#[test]
fn one_sleeps_behind_many_events(rt: HostRuntime) -> Result<(), Fail> {
    let (queue, mut newcomers) = opened(&rt, rt.alloc(), &[1]);
    let mut handle = entered(&rt, &queue, &mut newcomers);
    let waiters = queue.waiters();
    waiters.begin_wait();
    for _ in 0..70_000 {
        waiters.count(1);
    }
    assert!(&rt; waiters.owed_wakes() == 70_000);
    waiters.end_wait();
    let deadline = Instant::now(&rt)
        .expect(&rt, "there is a clock")
        .checked_add(Duration::from_millis(2 * ASLEEP))
        .expect(&rt, "there is such a time");
    let before = rt.thread_cpu_time().expect(&rt, "there is a clock");
    let told = handle.take_until(&rt, deadline);
    let after = rt.thread_cpu_time().expect(&rt, "there is a clock");
    assert!(&rt; matches!(told, Ok(Awaited::Late(_, now)) if now >= deadline));
    assert!(&rt; after.saturating_sub(before) < Duration::from_millis(ASLEEP / 8));
    is_awaited_by_nobody(&rt, &queue);
    Ok(())
}

const TAKERS: u64 = 6;

const ITEMS: u32 = 200;

// Two push so many items, and then one for each taker that says to end; the others take: how many items they got.
fn push_or_take_all<R: Abort + Clock + Wait>(
    rt: &R,
    queue: &Queue<Heap>,
    newcomer: Newcomer,
) -> u32 {
    let pushes = newcomer.id() <= 2;
    let mut handle = queue.enter(newcomer);
    if pushes {
        for value in 0..ITEMS {
            if value % 10 == 0 {
                thread::sleep(rt, Duration::from_micros(300));
            }
            assert!(rt; handle.push(rt, item(1, value)).is_ok());
        }
        for value in 0..TAKERS / 2 {
            assert!(rt; handle.push(rt, item(2, value as u32)).is_ok());
        }
        return 0;
    }
    let mut got = 0;
    for _ in rt.forever() {
        let Ok((_, taken)) = handle.take(rt) else {
            panic!(rt; "there is an item")
        };
        if taken.priority == 2 {
            break;
        }
        got += 1;
    }
    got
}

#[test]
fn many_takes_get_all_items(rt: HostRuntime) -> Result<(), Fail> {
    let (queue, newcomers) = opened(&rt, rt.alloc(), &[1, 2, 3, 4, 5, 6, 7, 8]);
    let got = thread::map_vec(
        &rt,
        newcomers,
        &|newcomer: Newcomer| push_or_take_all(&rt, &queue, newcomer),
    );
    let Ok(got) = got else {
        panic!(&rt; "there is memory")
    };
    let mut sum = 0;
    for one in got {
        sum += one;
    }
    assert!(&rt; sum == 2 * ITEMS);
    Ok(())
}

// It pops once, looks before it sleeps and behind that, and writes no line by a look.
#[test]
fn a_take_is_late_at_its_deadline(rt: HostRuntime) -> Result<(), Fail> {
    let (queue, mut newcomers) = opened(&rt, rt.alloc(), &[1]);
    let mut handle = entered(&rt, &queue, &mut newcomers);
    let now = Instant::now(&rt).expect(&rt, "there is a clock");
    let deadline = now
        .checked_add(Duration::from_millis(30))
        .expect(&rt, "there is such a time");
    let Ok(Awaited::Late(line, told)) = handle.take_until(&rt, deadline) else {
        panic!(&rt; "no item comes")
    };
    assert!(&rt; line == 1 && told >= deadline && handle.settle() == Some(1));
    is_awaited_by_nobody(&rt, &queue);
    assert!(&rt; matches!(handle.take_until(&rt, now), Ok(Awaited::Late(2, told)) if told >= now));
    assert!(&rt; handle.push(&rt, item(3, 4)) == Ok(3));
    assert!(&rt;
        matches!(handle.take_until(&rt, now), Ok(Awaited::Taken(4, taken)) if taken == item(3, 4))
    );
    assert!(&rt; handle.push(&rt, item(5, 6)) == Ok(5));
    assert!(&rt; handle.take(&rt) == Ok((6, item(5, 6))));
    Ok(())
}

// A take whose pop in vain fills the journal is refused behind it, and one at a journal that is full at once.
#[test]
fn a_full_journal_ends_a_take(rt: HostRuntime) -> Result<(), Fail> {
    let Ok((queue, mut newcomers)) = Queue::new(rt.alloc(), &[1], 1) else {
        panic!(&rt; "there is such a queue")
    };
    let mut handle = entered(&rt, &queue, &mut newcomers);
    assert!(&rt; handle.take(&rt) == Err(CallError::BookFull) && handle.posts() == 2);
    assert!(&rt; handle.take(&rt) == Err(CallError::BookFull) && handle.posts() == 3);
    Ok(())
}

// Whoever woke one that is refused meant an item that this doesn't take: so behind the pop, which tells all that the journal is
// full, it counts one more event, for the next.
#[test]
fn a_refused_take_passes_its_wake_on(rt: HostRuntime) -> Result<(), Fail> {
    let Ok((queue, mut newcomers)) = Queue::new(rt.alloc(), &[1], 1) else {
        panic!(&rt; "there is such a queue")
    };
    let mut handle = entered(&rt, &queue, &mut newcomers);
    assert!(&rt; handle.push(&rt, item(1, 1)) == Ok(1));
    let waiters = queue.waiters();
    let seen = waiters.begin_wait();
    assert!(&rt; handle.take(&rt).is_err() && waiters.owed_wakes() == 0);
    assert!(&rt; waiters.begin_wait() == seen + 2);
    waiters.end_wait();
    waiters.end_wait();
    Ok(())
}

// Each way to lead counts those who wait for an item, as many as it served where it leaves one there, and all where the journal
// is full.
#[test]
fn all_who_lead_count_whom_they_wake(rt: HostRuntime) -> Result<(), Fail> {
    let Ok((queue, mut newcomers)) = Queue::new(rt.alloc(), &[1, 2, 3], 8) else {
        panic!(&rt; "there is such a queue")
    };
    let mut leader = queue.join(newcomers.pop().expect(&rt, "there is one"));
    let mut first = queue.join(newcomers.pop().expect(&rt, "there is one"));
    let mut second = queue.join(newcomers.pop().expect(&rt, "there is one"));
    let waiters = queue.waiters();
    // Nobody waits.
    queue.post(&mut first, Request::Push(item(1, 1)));
    assert!(&rt; queue.try_round(&mut leader).is_some() && waiters.owed_wakes() == 0);
    assert!(&rt; queue.look(&mut first).is_some());
    // Three wait: of one push one is woken, of two two, and of pops that leave none nobody.
    let seen = waiters.begin_wait();
    waiters.begin_wait();
    waiters.begin_wait();
    queue.post(&mut first, Request::Push(item(2, 2)));
    assert!(&rt; queue.try_trail_round(&mut leader).is_some() && waiters.owed_wakes() == 1);
    assert!(&rt; queue.look(&mut first).is_some());
    queue.post(&mut first, Request::Push(item(3, 3)));
    queue.post(&mut second, Request::Pop);
    let mut lead = queue.lead(&mut leader).expect(&rt, "the lock is free");
    queue.sweep(&mut leader, &mut lead);
    queue.release(&mut leader, lead);
    assert!(&rt; waiters.owed_wakes() == 2 && waiters.owed_wakes() == 0);
    assert!(&rt; queue.look(&mut first).is_some() && queue.look(&mut second).is_some());
    queue.post(&mut first, Request::Pop);
    queue.post(&mut second, Request::Pop);
    assert!(&rt; queue.try_round(&mut leader).is_some() && waiters.owed_wakes() == 0);
    assert!(&rt; queue.look(&mut first).is_some() && queue.look(&mut second).is_some());
    assert!(&rt; waiters.begin_wait() == seen + 2);
    waiters.end_wait();
    // An own push wakes by itself, so nothing is owed; the eighth line is the last, and all are told.
    assert!(&rt; queue.push(&rt, &mut leader, item(4, 4)).is_ok() && waiters.owed_wakes() == 0);
    queue.post(&mut first, Request::Least);
    assert!(&rt; queue.try_round(&mut leader).is_some() && waiters.owed_wakes() == 3);
    assert!(&rt; queue.look(&mut first).is_some());
    waiters.end_wait();
    waiters.end_wait();
    waiters.end_wait();
    Ok(())
}

// What is owed adds up until somebody takes it over; and an own request on the last line of the journal is for all who wait, also
// a pop.
#[test]
fn wakes_add_up_and_the_last_line_is_for_all(rt: HostRuntime) -> Result<(), Fail> {
    let Ok((queue, mut newcomers)) = Queue::new(rt.alloc(), &[1], 3) else {
        panic!(&rt; "there is such a queue")
    };
    let mut member = queue.join(newcomers.pop().expect(&rt, "there is one"));
    let waiters = queue.waiters();
    let seen = waiters.begin_wait();
    waiters.begin_wait();
    waiters.begin_wait();
    for value in 0..2 {
        assert!(&rt;
            queue
                .carry_out(&mut member, Request::Push(item(1, value)))
                .is_some()
        );
    }
    assert!(&rt; waiters.owes_wake() && waiters.owed_wakes() == 2 && !waiters.owes_wake());
    assert!(&rt; queue.carry_out(&mut member, Request::Pop).is_some());
    assert!(&rt; waiters.owed_wakes() == 3 && waiters.begin_wait() == seen + 3);
    Ok(())
}

// The pending call makes a round, and is answered.
fn answered<'q, R: Abort>(
    rt: &R,
    mut pending: Pending<'q, Heap>,
    is_by_trail: bool,
) -> Handle<'q, Heap> {
    let round = if is_by_trail {
        pending.try_trail_round()
    } else {
        pending.try_round()
    };
    assert!(rt; round.is_some());
    match pending.look() {
        Called::Answered(handle, _, _) => handle,
        Called::Refused(handle, _) => {
            drop(handle);
            panic!(rt; "there is room")
        }
        Called::Pending(pending) => {
            drop(pending);
            panic!(rt; "it has led")
        }
    }
}

const WAYS: u32 = 6;

// Leads, in one of the ways in which a handle does, and so carries out what others have posted.
fn led<'q, R: Abort + Wait>(rt: &R, mut handle: Handle<'q, Heap>, way: u32) -> Handle<'q, Heap> {
    match way {
        0 => assert!(rt; handle.try_round().is_some()),
        1 => assert!(rt; handle.try_trail_round().is_some()),
        2 => assert!(rt; handle.pop_up_to(rt, 0).is_ok()),
        3 => assert!(rt; handle.call(rt, Request::Least).is_ok()),
        _ => return answered(rt, handle.post(Request::Least), way == 4),
    }
    handle
}

// A handle wakes by itself those who wait, whatever way it led, and also those whom another owed a wake.
#[test]
fn a_handle_that_led_owes_no_wake(rt: HostRuntime) -> Result<(), Fail> {
    let (queue, mut newcomers) = opened(&rt, rt.alloc(), &[1, 2]);
    let mut handle = entered(&rt, &queue, &mut newcomers);
    let mut other = queue.join(newcomers.pop().expect(&rt, "there is one"));
    let waiters = queue.waiters();
    let seen = waiters.begin_wait();
    for way in 0..WAYS {
        queue.post(&mut other, Request::Push(item(1, way)));
        handle = led(&rt, handle, way);
        assert!(&rt; queue.look(&mut other).is_some() && waiters.owed_wakes() == 0);
        let events = waiters.begin_wait();
        waiters.end_wait();
        assert!(&rt; events == seen + u64::from(way) + 1);
    }
    queue.post(&mut other, Request::Push(item(1, 1)));
    assert!(&rt; queue.try_round(&mut other).is_some() && queue.look(&mut other).is_some());
    let lead = handle.lead().expect(&rt, "the lock is free");
    handle.release(lead);
    assert!(&rt; waiters.owed_wakes() == 0);
    waiters.end_wait();
    Ok(())
}

// A take beside a thread that keeps the lock ends at its deadline. It has made no request, and leaves none behind.
#[test]
fn a_deadline_ends_a_wait_for_the_lock(rt: HostRuntime) -> Result<(), Fail> {
    let (queue, mut newcomers) = opened(&rt, rt.alloc(), &[1, 2]);
    let mut leader = entered(&rt, &queue, &mut newcomers);
    let mut handle = entered(&rt, &queue, &mut newcomers);
    let deadline = Instant::now(&rt)
        .expect(&rt, "there is a clock")
        .checked_add(Duration::from_millis(30))
        .expect(&rt, "there is such a time");
    let lead = leader.lead().expect(&rt, "the lock is free");
    let told = handle.take_until(&rt, deadline);
    leader.release(lead);
    assert!(&rt; matches!(told, Ok(Awaited::Held(Some(now))) if now >= deadline));
    assert!(&rt; handle.posts() == 0 && handle.settle() == Some(0));
    is_awaited_by_nobody(&rt, &queue);
    Ok(())
}
