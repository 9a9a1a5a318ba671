// A queue that is shut while a push is under way, which pauses in its store: what has the lock is carried out before the shut.
use crate::common::{item, wait_for};
use flat_queue::{CallError, Newcomer, Queue};
use leftist_heap::{Leftist, Store};
use pq_book::Entry;
use pq_types::{Answer, Refusal, Request};
use std::alloc::Global;
use std::process::Abort;
use std::sync::Wait;
use std::sync::atomic::{AtomicBool, Ordering};
use std::test::Fail;
use std::thread;
use std::time::{Clock, Duration};

// What threads tell each other: that a push or a look for the least item has begun, whichever pauses, and that it may end.
#[derive(Drop)]
struct Told {
    pauses_pushes: bool,
    has_begun: AtomicBool,
    may_end: AtomicBool,
}

impl Told {
    fn new(pauses_pushes: bool) -> Told {
        Told {
            pauses_pushes,
            has_begun: AtomicBool::new(false),
            may_end: AtomicBool::new(false),
        }
    }

    // Says that it has begun, and waits until it may end.
    fn pause(&self) {
        self.has_begun.store(true, Ordering::SeqCst);
        wait_for(&self.may_end);
    }
}

// A store whose pushes, or looks for the least item, don't end before another thread says so.
#[derive(Drop)]
struct PausedStore<'a> {
    inner: Leftist<Entry, Global>,
    told: &'a Told,
}

impl Store<Entry> for PausedStore<'_> {
    ghost content = { λ s. s.inner };

    fn push(&mut self, item: Entry) -> Result<(), Entry> {
        if self.told.pauses_pushes {
            self.told.pause();
        }
        Store::push(&mut self.inner, item)
    }

    fn pop(&mut self) -> Option<Entry> {
        Store::pop(&mut self.inner)
    }

    fn least(&self) -> Option<&Entry> {
        if !self.told.pauses_pushes {
            self.told.pause();
        }
        Store::least(&self.inner)
    }

    fn len(&self) -> usize {
        Store::len(&self.inner)
    }

    fn is_empty(&self) -> bool {
        Store::is_empty(&self.inner)
    }
}

fn paused<'a, R: Abort>(
    rt: &R,
    alloc: Global,
    told: &'a Told,
    ids: &[u64],
) -> (Queue<PausedStore<'a>>, Vec<Newcomer>) {
    let store = PausedStore {
        inner: Leftist::new(alloc),
        told,
    };
    let Ok(opened) = Queue::with_store(alloc, ids, store, 100) else {
        panic!(rt; "there is such a queue")
    };
    opened
}

// The first pushes. The second finds the lock held once that has begun, shuts the queue behind it, and then takes: it gets the
// item, and is told the end behind that.
fn pushes_or_shuts<R: Abort + Wait>(
    rt: &R,
    queue: &Queue<PausedStore<'_>>,
    newcomer: Newcomer,
    told: &Told,
) -> bool {
    let is_first = newcomer.id() == 1;
    let mut handle = queue.enter(newcomer);
    if is_first {
        return handle.push(rt, item(5, 1)) == Ok(1);
    }
    let mut member = handle.into_member();
    wait_for(&told.has_begun);
    let is_held = queue.carry_out_shut(&mut member).is_none();
    told.may_end.store(true, Ordering::SeqCst);
    let mut handle = queue.seat(member);
    is_held
        && handle.shut(rt) == Ok(2)
        && matches!(handle.take_or_end(rt), Ok(Some((_, taken))) if taken == item(5, 1))
        && handle.take_or_end(rt) == Ok(None)
        && handle.push(rt, item(6, 2)) == Err(CallError::Refused(Refusal::Shut))
}

#[test]
fn a_shut_waits_for_a_push_that_has_the_lock(rt: HostRuntime) -> Result<(), Fail> {
    let told = Told::new(true);
    let (queue, newcomers) = paused(&rt, rt.alloc(), &told, &[1, 2]);
    let went = thread::map_vec(
        &rt,
        newcomers,
        &|newcomer: Newcomer| pushes_or_shuts(&rt, &queue, newcomer, &told),
    );
    let Ok(went) = went else {
        panic!(&rt; "there is memory")
    };
    assert!(&rt; went[0] && went[1]);
    drop(went);
    drop(queue);
    Ok(())
}

// What each of three threads does that meet at a queue.
#[derive(Clone, Copy)]
enum Side {
    Pushes,
    Shuts,
    Waits,
}

// Plays its part, and waits before that, but for the one that pushes, until that has begun.
fn meets<R: Clock + Wait>(
    rt: &R,
    queue: &Queue<PausedStore<'_>>,
    newcomer: Newcomer,
    told: &Told,
    side: Side,
) -> bool {
    let mut member = queue.join(newcomer);
    if let Side::Pushes = side {
        let answer = queue.carry_out(&mut member, Request::Push(item(5, 1)));
        return matches!(answer, Some(Answer::Entered(2, _)));
    }
    wait_for(&told.has_begun);
    if let Side::Shuts = side {
        let shut = queue.shut(rt, &mut member);
        let taken = queue.take_or_end(rt, &mut member);
        return shut == Ok(3) && taken == Ok(Some((4, item(5, 1))));
    }
    thread::sleep(rt, Duration::from_millis(50));
    told.may_end.store(true, Ordering::SeqCst);
    true
}

// One that has the lock carries its push out behind the others' requests, and before the shut that waits for the lock.
#[test]
fn who_has_the_lock_pushes_before_the_queue_is_shut(rt: HostRuntime) -> Result<(), Fail> {
    let told = Told::new(false);
    let (queue, mut newcomers) = paused(&rt, rt.alloc(), &told, &[1, 2, 3, 4]);
    let mut member = queue.join(newcomers.pop().expect(&rt, "there is one"));
    queue.post(&mut member, Request::Least);
    let mut sides = Vec::new(rt.alloc());
    for side in [Side::Pushes, Side::Shuts, Side::Waits] {
        let newcomer = newcomers.pop().expect(&rt, "there is one");
        sides
            .push((side, newcomer))
            .ok()
            .expect(&rt, "there is memory");
    }
    let went = thread::map_vec(
        &rt,
        sides,
        &|(side, newcomer): (Side, Newcomer)| meets(&rt, &queue, newcomer, &told, side),
    );
    let Ok(went) = went else {
        panic!(&rt; "there is memory")
    };
    assert!(&rt; went[0] && went[1] && went[2]);
    drop(went);
    drop(member);
    drop(queue);
    Ok(())
}
