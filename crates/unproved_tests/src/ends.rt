// The end of a queue: pushes are refused once it is shut, and takes that heed the end are told it once nothing is left.
use crate::common::{Heap, PATIENCE, entered, item, opened};
use flat_queue::{Awaited, CallError, Due, Handle, Member, Newcomer, Queue, Times};
use pq_types::{Answer, Item, Refusal, Reply, Request};
use std::alloc::Global;
use std::process::Abort;
use std::sync::Wait;
use std::test::Fail;
use std::thread::{self, Threads};
use std::time::{Clock, CpuClock, Duration, Instant};

// So many milliseconds from now.
fn from_now<R: Abort + Clock>(rt: &R, milliseconds: u64) -> Instant {
    let now = Instant::now(rt).expect(rt, "there is a clock");
    now.checked_add(Duration::from_millis(milliseconds))
        .expect(rt, "there is such a time")
}

// No take is announced any more, so that an event is owed to nobody.
fn is_awaited_by_nobody<R: Abort>(rt: &R, queue: &Queue<Heap>) {
    queue.waiters().count(u64::MAX);
    assert!(rt; queue.waiters().owed_wakes() == 0);
}

const FAR: u64 = 60_000;

const SHUT: CallError = CallError::Refused(Refusal::Shut);

#[test]
fn a_push_is_refused_in_a_queue_that_is_shut(rt: HostRuntime) -> Result<(), Fail> {
    let (queue, mut newcomers) = opened(&rt, rt.alloc(), &[1]);
    let mut handle = entered(&rt, &queue, &mut newcomers);
    assert!(&rt; handle.push(&rt, item(1, 1)) == Ok(1));
    assert!(&rt; handle.shut(&rt) == Ok(2));
    let Err(error) = handle.push(&rt, item(2, 2)) else {
        panic!(&rt; "the queue is shut")
    };
    assert!(&rt; error == SHUT && error.code() == 51);
    assert!(&rt; handle.call(&rt, Request::Push(item(2, 2))) == Err(SHUT));
    assert!(&rt; handle.shut(&rt) == Err(SHUT) && handle.settle() == Some(2));
    assert!(&rt; handle.least(&rt) == Ok((3, Some(item(1, 1)))));
    Ok(())
}

#[test]
fn a_shut_is_refused_where_the_journal_is_full(rt: HostRuntime) -> Result<(), Fail> {
    let Ok((queue, mut newcomers)) = Queue::new(rt.alloc(), &[1], 1) else {
        panic!(&rt; "there is such a queue")
    };
    let mut handle = entered(&rt, &queue, &mut newcomers);
    assert!(&rt; handle.push(&rt, item(1, 1)) == Ok(1));
    assert!(&rt; handle.shut(&rt) == Err(CallError::BookFull));
    assert!(&rt; handle.take_or_end(&rt) == Err(CallError::BookFull));
    Ok(())
}

// It serves what was posted, and is carried out behind that. A push that is posted thereafter is refused. The end is told behind
// one pop in vain, which has a line, and a look, which has none.
#[test]
fn a_take_gets_what_is_left_and_then_the_end(rt: HostRuntime) -> Result<(), Fail> {
    let (queue, mut newcomers) = opened(&rt, rt.alloc(), &[1, 2]);
    let mut handle = entered(&rt, &queue, &mut newcomers);
    let mut other = queue.join(newcomers.pop().expect(&rt, "there is one"));
    assert!(&rt; handle.push(&rt, item(7, 1)) == Ok(1) && handle.push(&rt, item(5, 2)) == Ok(2));
    queue.post(&mut other, Request::Push(item(9, 3)));
    assert!(&rt; handle.shut(&rt) == Ok(4));
    assert!(&rt; queue.look(&mut other) == Some(Answer::Entered(3, Reply::Pushed)));
    queue.post(&mut other, Request::Push(item(1, 4)));
    assert!(&rt; handle.take_or_end(&rt) == Ok(Some((5, item(5, 2)))));
    assert!(&rt; queue.look(&mut other) == Some(Answer::Refused(Refusal::Shut.padded())));
    let taken = handle.take_until_or_end(&rt, from_now(&rt, FAR));
    assert!(&rt; matches!(taken, Ok(Some(Awaited::Taken(6, found))) if found == item(7, 1)));
    assert!(&rt; handle.take_or_end(&rt) == Ok(Some((7, item(9, 3)))));
    assert!(&rt; handle.take_or_end(&rt) == Ok(None) && handle.settle() == Some(8));
    assert!(&rt; matches!(handle.take_until_or_end(&rt, from_now(&rt, FAR)), Ok(None)));
    assert!(&rt; handle.settle() == Some(9));
    // Where the deadline came before the look, that is told behind the pop.
    let now = from_now(&rt, 0);
    assert!(&rt;
        matches!(handle.take_until_or_end(&rt, now), Ok(Some(Awaited::Late(10, told))) if told >= now)
    );
    is_awaited_by_nobody(&rt, &queue);
    Ok(())
}

// A queue that is open has no end, and one that is shut is none to a call that heeds no end.
#[test]
fn a_take_that_heeds_no_end_waits_on(rt: HostRuntime) -> Result<(), Fail> {
    let (queue, mut newcomers) = opened(&rt, rt.alloc(), &[1]);
    let mut handle = entered(&rt, &queue, &mut newcomers);
    let deadline = from_now(&rt, 30);
    let late = handle.take_until_or_end(&rt, deadline);
    assert!(&rt; matches!(late, Ok(Some(Awaited::Late(1, told))) if told >= deadline));
    assert!(&rt; handle.shut(&rt) == Ok(2));
    let deadline = from_now(&rt, 30);
    let late = handle.take_until(&rt, deadline);
    assert!(&rt; matches!(late, Ok(Awaited::Late(3, told)) if told >= deadline));
    let deadline = from_now(&rt, 30);
    let times = Times {
        start: deadline,
        unit: 0,
    };
    let late = handle.take_due(&rt, times, Some(deadline));
    assert!(&rt; matches!(late, Ok(Due::Nothing(told)) if told >= deadline));
    is_awaited_by_nobody(&rt, &queue);
    Ok(())
}

// The same of wide items.
#[test]
fn a_wide_queue_has_an_end(rt: HostRuntime) -> Result<(), Fail> {
    const WIDE: Item<u64> = Item {
        priority: 1 << 40,
        value: u64::MAX,
    };
    let (queue, mut newcomers) = Queue::wide(rt.alloc(), &[4], 8)?;
    let mut handle = queue.enter(newcomers.pop().expect(&rt, "there is one"));
    assert!(&rt; handle.push(&rt, WIDE) == Ok(1) && handle.push(&rt, WIDE) == Ok(2));
    assert!(&rt; handle.shut(&rt) == Ok(3) && handle.push(&rt, WIDE) == Err(SHUT));
    assert!(&rt; handle.take_or_end(&rt) == Ok(Some((4, WIDE))));
    let taken = handle.take_until_or_end(&rt, from_now(&rt, FAR));
    assert!(&rt; matches!(taken, Ok(Some(Awaited::Taken(5, found))) if found == WIDE));
    assert!(&rt; handle.take_or_end(&rt) == Ok(None) && handle.settle() == Some(6));
    drop(handle);
    drop(queue);
    Ok(())
}

// How long those of the next test sleep, in milliseconds.
const ASLEEP: u64 = 150;

// The first shuts the queue once the others have slept for a while; each of these is told the end, and has worked little until
// then.
fn shuts_or_takes<R: Abort + Clock + CpuClock + Wait>(
    rt: &R,
    queue: &Queue<Heap>,
    newcomer: Newcomer,
) -> bool {
    let id = newcomer.id();
    let mut handle = queue.enter(newcomer);
    if id == 1 {
        thread::sleep(rt, Duration::from_millis(ASLEEP));
        return handle.shut(rt).is_ok();
    }
    let deadline = from_now(rt, FAR);
    let before = rt.thread_cpu_time().expect(rt, "there is a clock");
    let is_told = if id == 2 {
        matches!(handle.take_until_or_end(rt, deadline), Ok(None))
    } else {
        matches!(handle.take_or_end(rt), Ok(None))
    };
    let after = rt.thread_cpu_time().expect(rt, "there is a clock");
    is_told && after.saturating_sub(before) < Duration::from_millis(ASLEEP / 8)
}

#[test]
fn all_that_sleep_are_told_the_end(rt: HostRuntime) -> Result<(), Fail> {
    let (queue, newcomers) = opened(&rt, rt.alloc(), &[1, 2, 3, 4]);
    let told = thread::map_vec(
        &rt,
        newcomers,
        &|newcomer: Newcomer| shuts_or_takes(&rt, &queue, newcomer),
    );
    let Ok(told) = told else {
        panic!(&rt; "there is memory")
    };
    assert!(&rt; told[0] && told[1] && told[2] && told[3]);
    is_awaited_by_nobody(&rt, &queue);
    Ok(())
}

// Each way to take that heeds the end.
#[derive(Clone, Copy)]
enum Way {
    Any,
    Until,
    Due,
}

// Takes in this way, where all is due at once: the item; `None` at the end.
fn got<R: Abort + Clock + Wait>(rt: &R, handle: &mut Handle<'_, Heap>, way: Way) -> Option<Item> {
    let start = from_now(rt, 0);
    let deadline = from_now(rt, FAR);
    match way {
        Way::Any => match handle.take_or_end(rt) {
            Ok(Some((_, taken))) => Some(taken),
            _ => None,
        },
        Way::Until => match handle.take_until_or_end(rt, deadline) {
            Ok(Some(Awaited::Taken(_, taken))) => Some(taken),
            _ => None,
        },
        Way::Due => match handle.take_due_or_end(rt, Times { start, unit: 0 }, Some(deadline)) {
            Ok(Some(Due::Taken(_, taken, _))) => Some(taken),
            _ => None,
        },
    }
}

// The first pushes once the other sleeps, and shuts the queue before it wakes that. The other gets the item, and is told the end
// behind it.
fn pushes_and_shuts_or_takes<R: Abort + Clock + Wait>(
    rt: &R,
    queue: &Queue<Heap>,
    newcomer: Newcomer,
    way: Way,
) -> bool {
    let is_first = newcomer.id() == 1;
    if !is_first {
        let mut handle = queue.enter(newcomer);
        return got(rt, &mut handle, way) == Some(item(1, 1)) && handle.take_or_end(rt) == Ok(None);
    }
    let mut member = queue.join(newcomer);
    thread::sleep(rt, Duration::from_millis(ASLEEP));
    let pushed = queue.carry_out(&mut member, Request::Push(item(1, 1)));
    let shut = queue.carry_out_shut(&mut member);
    queue.waiters().wake_owed();
    matches!(pushed, Some(Answer::Entered(_, _))) && matches!(shut, Some(Answer::Entered(_, _)))
}

#[test]
fn one_that_sleeps_gets_what_is_pushed_before_the_end(rt: HostRuntime) -> Result<(), Fail> {
    for way in [Way::Any, Way::Until, Way::Due] {
        let (queue, newcomers) = opened(&rt, rt.alloc(), &[1, 2]);
        let went = thread::map_vec(
            &rt,
            newcomers,
            &|newcomer: Newcomer| pushes_and_shuts_or_takes(&rt, &queue, newcomer, way),
        );
        let Ok(went) = went else {
            panic!(&rt; "there is memory")
        };
        assert!(&rt; went[0] && went[1]);
        is_awaited_by_nobody(&rt, &queue);
    }
    Ok(())
}

const TRIALS: u32 = 300;

// Posts a push, and waits for its answer: whether it was entered.
fn posts<R: Abort>(rt: &R, queue: &Queue<Heap>, member: &mut Member<Heap>, push: Request) -> bool {
    queue.post(member, push);
    for _ in 0..PATIENCE {
        if let Some(answer) = queue.look(member) {
            return matches!(answer, Answer::Entered(_, _));
        }
        if queue.try_trail_round(member).is_some() {
            queue.waiters().wake_owed();
        } else {
            thread::yield_now();
        }
    }
    panic!(rt; "it is answered")
}

// Carries a push out at once, or else posts it: whether it was entered.
fn steps<R: Abort>(rt: &R, queue: &Queue<Heap>, member: &mut Member<Heap>, push: Request) -> bool {
    let asked = push;
    let told = queue.carry_out(member, asked);
    queue.waiters().wake_owed();
    match told {
        Some(answer) => matches!(answer, Answer::Entered(_, _)),
        None => posts(rt, queue, member, push),
    }
}

// Pushes until it is refused, in this way or that: how many items it pushed. The first shuts the queue behind so many.
fn pushed<R: Abort + Wait>(
    rt: &R,
    queue: &Queue<Heap>,
    newcomer: Newcomer,
    shuts_behind: u32,
) -> u32 {
    let is_first = newcomer.id() == 1;
    let mut member = queue.join(newcomer);
    let mut count = 0;
    for _ in rt.forever() {
        if is_first && count == shuts_behind {
            assert!(rt; queue.shut(rt, &mut member).is_ok());
        }
        let pushed = item(count % 3, count);
        let is_pushed = match (count + shuts_behind) % 3 {
            0 => queue.push(rt, &mut member, pushed).is_ok(),
            1 => steps(rt, queue, &mut member, Request::Push(pushed)),
            _ => posts(rt, queue, &mut member, Request::Push(pushed)),
        };
        if !is_pushed {
            break;
        }
        count += 1;
    }
    count
}

// Takes until it is told the end, with a deadline or without one: how many items it got.
fn taken<R: Abort + Clock + Wait>(rt: &R, queue: &Queue<Heap>, newcomer: Newcomer) -> u32 {
    let has_deadline = newcomer.id() % 2 == 0;
    let deadline = from_now(rt, FAR);
    let mut handle = queue.enter(newcomer);
    let mut count = 0;
    for _ in rt.forever() {
        let is_taken = if has_deadline {
            match handle.take_until_or_end(rt, deadline) {
                Ok(Some(Awaited::Taken(_, _))) => true,
                Ok(None) => false,
                _ => panic!(rt; "it is not late, and there is room"),
            }
        } else {
            handle
                .take_or_end(rt)
                .ok()
                .expect(rt, "there is room")
                .is_some()
        };
        if !is_taken {
            break;
        }
        count += 1;
    }
    count
}

fn pushed_or_taken<R: Abort + Clock + Wait>(
    rt: &R,
    queue: &Queue<Heap>,
    newcomer: Newcomer,
    shuts_behind: u32,
) -> u32 {
    if newcomer.id() <= 2 {
        pushed(rt, queue, newcomer, shuts_behind)
    } else {
        taken(rt, queue, newcomer)
    }
}

// Two push, in each way, and two take, while one of them shuts the queue: what was pushed is taken before the end is told.
fn pushed_and_taken<R: Abort + Clock + Threads + Wait + Sync>(
    rt: &R,
    alloc: Global,
    shuts_behind: u32,
) {
    let (queue, newcomers) = opened(rt, alloc, &[1, 2, 3, 4]);
    let counts = thread::map_vec(
        rt,
        newcomers,
        &|newcomer: Newcomer| pushed_or_taken(rt, &queue, newcomer, shuts_behind),
    );
    let Ok(counts) = counts else {
        panic!(rt; "there is memory")
    };
    assert!(rt; counts[0] + counts[1] == counts[2] + counts[3]);
    is_awaited_by_nobody(rt, &queue);
}

#[test]
fn all_that_is_pushed_is_taken_before_the_end(rt: HostRuntime) -> Result<(), Fail> {
    for trial in 0..TRIALS {
        pushed_and_taken(&rt, rt.alloc(), trial % 23);
    }
    Ok(())
}
