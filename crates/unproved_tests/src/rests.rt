// How a call rests that waits beside a lead that is kept: as it was told, after each turn, whatever the turn was.
use flat_queue::{Called, Gate, Handle, Naps, Queue, Rest, Turn};
use leftist_heap::Leftist;
use pq_book::Entry;
use pq_types::Request;
use std::alloc::Global;
use std::process::Abort;
use std::sync::Wait;
use std::sync::atomic::{AtomicU32, Ordering};
use std::test::Fail;
use std::time::{Clock, CpuClock, Duration, Instant};

type Heap = Leftist<Entry, Global>;

// Says so often to take this turn, and then to give up.
#[derive(Drop)]
struct Patience {
    turn: Turn,
    most: u32,
    asked: AtomicU32,
}

impl Gate for Patience {
    ghost may_answer = { λ _ _ _. Unit {0} };

    fn turn(&self, _id: u64) -> Turn {
        if self.asked.fetch_add(1, Ordering::SeqCst) < self.most {
            self.turn
        } else {
            Turn::GiveUp
        }
    }
}

// What a call took by the clock, and of its thread's processor time.
#[derive(Clone, Copy)]
struct Took {
    elapsed: Duration,
    worked: Duration,
}

// What a call of this handle takes, which gives up behind so many turns.
fn gives_up<R: Abort + Clock + CpuClock + Wait>(
    rt: &R,
    handle: Handle<'_, Heap>,
    gate: &Patience,
) -> Took {
    let began = Instant::now(rt).expect(rt, "there is a clock");
    let before = rt.thread_cpu_time().expect(rt, "there is a clock");
    let called = handle.call_by(rt, Request::Pop, gate);
    let after = rt.thread_cpu_time().expect(rt, "there is a clock");
    let elapsed = began.elapsed(rt).expect(rt, "there is a clock");
    let Called::Pending(pending) = called else {
        panic!(rt; "nobody answers the call")
    };
    drop(pending);
    Took {
        elapsed,
        worked: after.saturating_sub(before),
    }
}

// What a call takes that rests so, with so many turns of this kind, while another keeps the lead.
fn beside_a_lead<R: Abort + Clock + CpuClock + Wait>(
    rt: &R,
    alloc: Global,
    rest: Rest,
    turn: Turn,
    most: u32,
) -> Took {
    let Ok((queue, mut newcomers)) = Queue::new(alloc, &[1, 2], 1) else {
        panic!(rt; "there is such a queue")
    };
    let waits = newcomers.pop().expect(rt, "there is a second");
    let leads = newcomers.pop().expect(rt, "there is a first");
    let waits = queue.enter(waits).resting(rest);
    assert!(rt; waits.rest() == rest);
    let gate = Patience {
        turn,
        most,
        asked: AtomicU32::new(0),
    };
    let mut leader = queue.enter(leads);
    let lead = leader.lead().expect(rt, "the lock is free");
    let took = gives_up(rt, waits, &gate);
    leader.release(lead);
    took
}

// Fifty naps of two milliseconds take a tenth of a second, and little of it is work. A call that napped by itself, or spun,
// would take far less, and one that napped by milliseconds far more.
#[test]
fn a_call_naps_as_it_was_told(rt: HostRuntime) -> Result<(), Fail> {
    let naps = Rest {
        tries: 0,
        spins: 0,
        yields: 0,
        naps: Some(Naps {
            next: 2_000,
            longest: 2_000,
            each: 0,
        }),
    };
    for turn in [Turn::Lead, Turn::Look] {
        let took = beside_a_lead(&rt, rt.alloc(), naps, turn, 50);
        assert!(rt; took.elapsed >= Duration::from_millis(90));
        assert!(rt; took.elapsed < Duration::from_secs(20));
        assert!(rt; took.worked < Duration::from_millis(45));
    }
    Ok(())
}

// Ten thousand turns with a spin each are over before as many naps of its own could be, in one of ten tries: another program may
// have the processor meanwhile.
#[test]
fn a_call_spins_as_it_was_told(rt: HostRuntime) -> Result<(), Fail> {
    let spins = Rest {
        tries: 0,
        spins: u32::MAX,
        yields: 0,
        naps: None,
    };
    for turn in [Turn::Lead, Turn::Look] {
        let mut least = Duration::MAX;
        for _ in 0..10 {
            let took = beside_a_lead(&rt, rt.alloc(), spins, turn, 10_000);
            least = least.min(took.elapsed);
        }
        assert!(rt; least < Duration::from_millis(500));
    }
    Ok(())
}
