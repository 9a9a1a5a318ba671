// Loads of each number of workers, and under gates by which workers meet or give up.
ghost use Rattle.std.specs.Prelude.{ℕ};

use flat_queue::{Gate, Open, Turn};
use leftist_heap::Leftist;
use pq_book::Entry;
use program_words::Plan;
use queue_load::{
    Asks, LoadError, Order, Report, Watch, WorkerError, run_load, run_load_of, run_watched,
};
use std::alloc::Global;
use std::io;
use std::process::Abort;
use std::sync::Wait;
use std::sync::atomic::{AtomicU64, Ordering};
use std::test::Fail;
use std::thread::Threads;

// At which turn a worker of these tests gives up.
const PATIENCE: u64 = 10_000_000;

// Under this gate the worker of one id looks until the others have asked the gate so many times, and leads
// from then on. Each of the others takes the same turn again and again. All give up in the end.
#[derive(Drop)]
struct Meeting {
    leader: u64,
    awaited: u64,
    others: Turn,
    of_leader: AtomicU64,
    of_others: AtomicU64,
}

impl Meeting {
    fn new(leader: u64, awaited: u64, others: Turn) -> Meeting {
        Meeting {
            leader,
            awaited,
            others,
            of_leader: AtomicU64::new(0),
            of_others: AtomicU64::new(0),
        }
    }
}

impl Gate for Meeting {
    ghost may_answer = { λ _ _ _. Unit {0} };

    fn turn(&self, id: u64) -> Turn {
        let is_leader = id == self.leader;
        let turns = if is_leader {
            &self.of_leader
        } else {
            &self.of_others
        };
        if turns.fetch_add(1, Ordering::SeqCst) >= PATIENCE - 1 {
            return Turn::GiveUp;
        }
        if !is_leader {
            self.others
        } else if self.of_others.load(Ordering::SeqCst) < self.awaited {
            Turn::Look
        } else {
            Turn::Lead
        }
    }
}

// The report of a load over a leftist heap under this gate, whatever is left.
fn load<R: Abort + Threads + Wait + Sync, G: Gate + Sync>(
    rt: &R,
    alloc: Global,
    plan: (u32, u32, u32),
    gate: &G,
) -> Result<Report, LoadError> {
    let (workers, pushes, pops) = plan;
    let Ok(plan) = Plan::new(workers, pushes, pops) else {
        panic!(rt; "there is such a load")
    };
    let (report, book) = run_load(rt, alloc, plan, Leftist::new(alloc), gate)?;
    drop(book);
    Ok(report)
}

// Worker 1 only looks, and so waits for a round of worker 2. Workers who work one after the other would
// not meet: worker 2 makes no round before worker 1 waits.
#[test]
fn two_workers_meet(rt: HostRuntime) -> Result<(), Fail> {
    let gate = Meeting::new(2, 1, Turn::Look);
    let Ok(report) = load(&rt, rt.alloc(), (2, 1, 0), &gate) else {
        panic!(&rt; "the load has a report")
    };
    assert!(rt; report.pushed == 2 && report.audit);
    Ok(())
}

// All workers give up at once but one, which then ends all its requests.
#[test]
fn of_workers_that_give_up_the_least_is_told(rt: HostRuntime) -> Result<(), Fail> {
    for (workers, stays, least) in [(1, 0, 1), (64, 0, 1), (2, 1, 2), (3, 1, 2)] {
        let gate = Meeting::new(stays, u64::from(workers - 1), Turn::GiveUp);
        let error = load(&rt, rt.alloc(), (workers, 3, 1), &gate).err();
        let reason = WorkerError::GaveUp;
        assert!(rt; error == Some(LoadError::Worker { id: least, reason }));
    }
    Ok(())
}

// Whoever is told nothing of a load.
#[derive(Drop)]
struct Silent;

impl Watch for Silent {
    fn tell(&mut self, _rounds: u64, _all: u32) {}
}

// The others give up at once, then worker 1 makes all its requests: all come back, each with what became of it.
#[test]
fn a_load_that_fails_hands_its_workers_back(rt: HostRuntime) -> Result<(), Fail> {
    let gate = Meeting::new(1, 2, Turn::GiveUp);
    let Ok(plan) = Plan::new(3, 3, 1) else {
        panic!(&rt; "there is such a load")
    };
    let order = Order {
        rt: &rt,
        alloc: rt.alloc(),
        plan,
        asks: Asks::By(&gate),
        slice: plan.of_each(),
    };
    let store = Leftist::new(rt.alloc());
    let ended = run_watched(order, store, false, &mut io::sink(), &mut Silent);
    let Some(worked) = ended.err().and_then(|failed| failed.worked) else {
        panic!(&rt; "the load fails, and hands its workers back")
    };
    assert!(rt; worked.len() == 3);
    assert!(rt; worked[0].refusal.is_none() && worked[0].tally.pushed == 3);
    for ended in &worked[1..] {
        assert!(rt; ended.refusal == Some(WorkerError::GaveUp) && ended.tally.pushed == 0);
    }
    Ok(())
}

// None is refused a thread, finds the journal full or the lock held at its end.
#[test]
fn a_load_of_each_number_of_workers_has_its_report(rt: HostRuntime) -> Result<(), Fail> {
    for workers in 1..=64u32 {
        let Ok(report) = load(&rt, rt.alloc(), (workers, 2, 1), &Open) else {
            panic!(&rt; "a load of {workers} workers has a report")
        };
        let left = u64::from(workers);
        assert!(rt; report.left == left && report.audit, "{workers} workers");
    }
    Ok(())
}

// A load of wide items reports what the same load of narrow items does, with sums of priorities that are 2^32 + 1 times theirs.
#[test]
fn a_load_of_wide_items_reports_sums_of_wide_priorities(rt: HostRuntime) -> Result<(), Fail> {
    for workers in [1, 2, 64u32] {
        let Ok(plan) = Plan::new(workers, 20, 13) else {
            panic!(&rt; "there is such a load")
        };
        let Ok(narrow) = load(&rt, rt.alloc(), (workers, 20, 13), &Open) else {
            panic!(&rt; "the narrow load has a report")
        };
        let store: Leftist<Entry<u64>, Global> = Leftist::new(rt.alloc());
        let Ok((wide, book)) = run_load_of::<u64, _, _, _>(&rt, rt.alloc(), plan, store, &Open)
        else {
            panic!(&rt; "the wide load has a report")
        };
        assert!(rt; wide.audit && wide.left == narrow.left && wide.lines == narrow.lines);
        assert!(rt; wide.sum_in == narrow.sum_in * 4_294_967_297);
        assert!(rt; wide.sum_out_and_left == wide.sum_in);
        assert!(rt; book.is_some());
    }
    Ok(())
}
