// A take is announced before it looks once more: two threads tell that order from the other.
use crate::common::{Heap, PATIENCE, wait_for};
use flat_queue::{Awaited, Handle, Looked, Newcomer, Queue, Wanted};
use leftist_heap::{Leftist, Store};
use pq_book::Entry;
use pq_types::{Answer, Item};
use std::alloc::Global;
use std::process::Abort;
use std::sync::Wait;
use std::sync::atomic::{AtomicBool, AtomicU32, Ordering};
use std::test::Fail;
use std::thread;
use std::thread::Threads;
use std::time::{Clock, Duration, Instant};

const ITEM: Item = Item {
    priority: 5,
    value: 1,
};

// What two threads tell each other: that a pop has begun, that a look behind it has, and that this may end.
#[derive(Drop)]
struct Told {
    has_popped: AtomicBool,
    has_looked: AtomicBool,
    may_end: AtomicBool,
}

// A store at which the first look behind a pop doesn't end before another thread says so.
#[derive(Drop)]
struct PausedStore<'a> {
    inner: Leftist<Entry, Global>,
    told: &'a Told,
}

impl Store<Entry> for PausedStore<'_> {
    ghost content = { λ s. s.inner };

    fn push(&mut self, item: Entry) -> Result<(), Entry> {
        Store::push(&mut self.inner, item)
    }

    fn pop(&mut self) -> Option<Entry> {
        self.told.has_popped.store(true, Ordering::SeqCst);
        Store::pop(&mut self.inner)
    }

    fn least(&self) -> Option<&Entry> {
        if self.told.has_popped.load(Ordering::SeqCst)
            && !self.told.has_looked.swap(true, Ordering::SeqCst)
        {
            wait_for(&self.told.may_end);
        }
        Store::least(&self.inner)
    }

    fn len(&self) -> usize {
        Store::len(&self.inner)
    }

    fn is_empty(&self) -> bool {
        Store::is_empty(&self.inner)
    }
}

// Takes the item, and waits for it: without an end, or until a deadline that is far.
fn takes<R: Abort + Clock + Wait>(
    rt: &R,
    handle: &mut Handle<'_, PausedStore<'_>>,
    has_deadline: bool,
) -> bool {
    if !has_deadline {
        return matches!(handle.take(rt), Ok((_, item)) if item == ITEM);
    }
    let now = Instant::now(rt).expect(rt, "there is a clock");
    let deadline = now
        .checked_add(Duration::from_secs(60))
        .expect(rt, "there is such a time");
    matches!(handle.take_until(rt, deadline), Ok(Awaited::Taken(_, item)) if item == ITEM)
}

// The first takes; the second counts an event once the first looks: whether that is owed a wake then. It pushes the item.
fn takes_or_pushes<R: Abort + Clock + Wait>(
    rt: &R,
    queue: &Queue<PausedStore<'_>>,
    newcomer: Newcomer,
    told: &Told,
    has_deadline: bool,
) -> bool {
    let is_first = newcomer.id() == 1;
    let mut handle = queue.enter(newcomer);
    if is_first {
        return takes(rt, &mut handle, has_deadline);
    }
    wait_for(&told.has_looked);
    queue.waiters().count(1);
    let is_owed = queue.waiters().owes_wake();
    told.may_end.store(true, Ordering::SeqCst);
    handle.push(rt, ITEM).is_ok() && is_owed
}

fn take_beside_an_event<R: Abort + Clock + Threads + Wait + Sync>(
    rt: &R,
    alloc: Global,
    has_deadline: bool,
) {
    let told = Told {
        has_popped: AtomicBool::new(false),
        has_looked: AtomicBool::new(false),
        may_end: AtomicBool::new(false),
    };
    let store = PausedStore {
        inner: Leftist::new(alloc),
        told: &told,
    };
    let Ok((queue, newcomers)) = Queue::with_store(alloc, &[1, 2], store, 100) else {
        panic!(rt; "there is such a queue")
    };
    let went = thread::map_vec(
        rt,
        newcomers,
        &|newcomer: Newcomer| takes_or_pushes(rt, &queue, newcomer, &told, has_deadline),
    );
    let Ok(went) = went else {
        panic!(rt; "there is memory")
    };
    assert!(rt; went[0] && went[1]);
    drop(went);
    drop(queue);
}

// The look behind which it sleeps comes behind its announcement: so whoever pushes behind that look owes it a wake.
#[test]
fn a_take_is_announced_before_it_looks_again(rt: HostRuntime) -> Result<(), Fail> {
    take_beside_an_event(&rt, rt.alloc(), false);
    take_beside_an_event(&rt, rt.alloc(), true);
    Ok(())
}

const TRIALS: u32 = 10_000;

const TIMES: u32 = 2;

// How many looks one waits in a trial who is to come neither early nor late.
const EARLIEST: u32 = 40;

// What a thread does at each queue.
#[derive(Clone, Copy, PartialEq)]
enum Part {
    Shuts,
    Waits,
}

// To how many trials two threads have come, both together, at many queues, one after another.
#[derive(Drop)]
struct Trials {
    came: AtomicU32,
}

impl Trials {
    // Comes to this trial as the other does, the first being 1, and goes on a little later in some.
    fn come(&self, trial: u32, later: u32) {
        self.came.fetch_add(1, Ordering::SeqCst);
        for tried in 1..PATIENCE {
            if self.came.load(Ordering::SeqCst) >= 2 * trial {
                break;
            }
            if tried % 1_000 == 0 {
                thread::yield_now();
            }
        }
        for _ in 0..later {
            self.came.load(Ordering::SeqCst);
        }
    }

    // Shuts the queue: that it was open.
    fn shuts(&self, trial: u32, queue: &Queue<Heap>, newcomer: Newcomer) -> bool {
        let mut member = queue.join(newcomer);
        self.come(trial, EARLIEST + trial % 4);
        for _ in 0..PATIENCE {
            if let Some(answer) = queue.carry_out_shut(&mut member) {
                return matches!(answer, Answer::Entered(_, _));
            }
        }
        false
    }

    // Begins a wait, and looks: whether it would sleep, as the queue was open, until an event is counted, which is the first.
    fn waits(&self, trial: u32, later: u32, queue: &Queue<Heap>, newcomer: Newcomer) -> bool {
        let mut member = queue.join(newcomer);
        self.come(trial, later);
        let seen = queue.waiters().begin_wait();
        for _ in 0..PATIENCE {
            if let Some(looked) = queue.take_first(&mut member, Wanted::Anything) {
                return looked == Looked::Nothing && seen == 0;
            }
        }
        false
    }
}

// Plays its part at each queue: in which trials it shut the queue, or would sleep. Who was in time begins a little later in the
// next trial, and who was not a little earlier, so that both are at it at once in most.
fn played<R: Abort>(
    rt: &R,
    alloc: Global,
    queues: &[Queue<Heap>],
    trials: &Trials,
    side: (Part, Vec<Newcomer>),
) -> Vec<bool> {
    let (part, newcomers) = side;
    let mut told = Vec::new(alloc);
    let (mut trial, mut later) = (0, EARLIEST);
    for newcomer in newcomers {
        let queue = &queues[trial as usize];
        trial += 1;
        let is_so = match part {
            Part::Shuts => trials.shuts(trial, queue, newcomer),
            Part::Waits => trials.waits(trial, later, queue, newcomer),
        };
        later = if is_so {
            later + 1
        } else {
            later.saturating_sub(1)
        };
        told.push(is_so).ok().expect(rt, "there is memory");
    }
    told
}

// No wait is missed by one who shuts meanwhile.
fn shut_beside<R: Abort + Threads + Sync>(rt: &R, alloc: Global) {
    let mut queues = Vec::new(alloc);
    let (mut shutting, mut waiting) = (Vec::new(alloc), Vec::new(alloc));
    for _ in 0..TRIALS {
        let Ok((queue, mut newcomers)) = Queue::new(alloc, &[1, 2], 1) else {
            panic!(rt; "there is such a queue")
        };
        for side in [&mut shutting, &mut waiting] {
            let newcomer = newcomers.pop().expect(rt, "there is one");
            side.push(newcomer).ok().expect(rt, "there is memory");
        }
        queues.push(queue).ok().expect(rt, "there is memory");
    }
    let trials = Trials {
        came: AtomicU32::new(0),
    };
    let mut sides = Vec::new(alloc);
    for side in [(Part::Shuts, shutting), (Part::Waits, waiting)] {
        sides.push(side).ok().expect(rt, "there is memory");
    }
    let told = thread::map_vec(
        rt,
        sides,
        &|side: (Part, Vec<Newcomer>)| played(rt, alloc, queues.as_slice(), &trials, side),
    );
    let Ok(told) = told else {
        panic!(rt; "there is memory")
    };
    for at in 0..queues.len() {
        assert!(rt; told[0][at]);
        assert!(rt; !told[1][at] || queues[at].waiters().begin_wait() == 1);
    }
    drop(told);
    drop(queues);
}

// Who is announced, and then finds the queue open, is counted by the shut that comes.
#[test]
fn a_shut_counts_all_who_saw_the_queue_open(rt: HostRuntime) -> Result<(), Fail> {
    for _ in 0..TIMES {
        shut_beside(&rt, rt.alloc());
    }
    Ok(())
}
