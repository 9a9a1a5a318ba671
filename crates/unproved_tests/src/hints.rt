// The hint that somebody has posted, where one posts while another sweeps.
use crate::common::{item, opened, wait_for};
use flat_queue::{Newcomer, Queue, Wanted};
use leftist_heap::{Leftist, Store};
use pq_book::Entry;
use pq_types::Request;
use std::alloc::Global;
use std::process::Abort;
use std::sync::atomic::{AtomicBool, Ordering};
use std::test::Fail;
use std::thread;
use std::thread::Threads;

// What two threads tell each other: that a sweep has come to its pop, and that somebody has posted then.
#[derive(Drop)]
struct Told {
    pops: AtomicBool,
    posted: AtomicBool,
}

// A store that doesn't end a pop before somebody has posted, and so has set the hint.
#[derive(Drop)]
struct PausedStore<'a> {
    inner: Leftist<Entry, Global>,
    told: &'a Told,
}

impl Store<Entry> for PausedStore<'_> {
    ghost content = { λ s. s.inner };

    fn push(&mut self, item: Entry) -> Result<(), Entry> {
        Store::push(&mut self.inner, item)
    }

    fn pop(&mut self) -> Option<Entry> {
        self.told.pops.store(true, Ordering::SeqCst);
        wait_for(&self.told.posted);
        Store::pop(&mut self.inner)
    }

    fn least(&self) -> Option<&Entry> {
        Store::least(&self.inner)
    }

    fn len(&self) -> usize {
        Store::len(&self.inner)
    }

    fn is_empty(&self) -> bool {
        Store::is_empty(&self.inner)
    }
}

// The first sweeps and pops, and the second posts meanwhile: whether the hint is set behind the sweep.
fn sweeps_or_posts<R: Abort>(
    rt: &R,
    queue: &Queue<PausedStore<'_>>,
    newcomer: Newcomer,
    told: &Told,
    follows_trail: bool,
) -> bool {
    let is_first = newcomer.id() == 1;
    let mut member = queue.join(newcomer);
    if !is_first {
        wait_for(&told.pops);
        queue.post(&mut member, Request::Least);
        told.posted.store(true, Ordering::SeqCst);
        drop(member);
        return true;
    }
    queue.post(&mut member, Request::Pop);
    let round = if follows_trail {
        queue.try_trail_round(&mut member)
    } else {
        queue.try_round(&mut member)
    };
    assert!(rt; round.is_some());
    drop(member);
    queue.hint().is_set()
}

fn posted_during_a_sweep<R: Abort + Threads + Sync>(rt: &R, alloc: Global, follows_trail: bool) {
    let told = Told {
        pops: AtomicBool::new(false),
        posted: AtomicBool::new(false),
    };
    let store = PausedStore {
        inner: Leftist::new(alloc),
        told: &told,
    };
    let Ok((queue, newcomers)) = Queue::with_store(alloc, &[1, 2], store, 4) else {
        panic!(rt; "there is such a queue")
    };
    let set = thread::map_vec(
        rt,
        newcomers,
        &|newcomer: Newcomer| sweeps_or_posts(rt, &queue, newcomer, &told, follows_trail),
    );
    let Ok(set) = set else {
        panic!(rt; "there is memory")
    };
    assert!(rt; set[0] && set[1]);
    drop(set);
    drop(queue);
}

// A sweep clears the hint before its scan: so a post that is made behind that, which its scan may miss, leaves it set.
#[test]
fn a_post_during_a_sweep_leaves_the_hint_set(rt: HostRuntime) -> Result<(), Fail> {
    posted_during_a_sweep(&rt, rt.alloc(), false);
    posted_during_a_sweep(&rt, rt.alloc(), true);
    Ok(())
}

// Whoever had posted before a lead began, and so set the hint, has its answer when that ends, whatever the leader does.
#[test]
fn each_lead_answers_who_had_posted(rt: HostRuntime) -> Result<(), Fail> {
    let (queue, mut newcomers) = opened(&rt, rt.alloc(), &[1, 2]);
    let mut member = queue.join(newcomers.pop().expect(&rt, "there is one"));
    let mut other = queue.join(newcomers.pop().expect(&rt, "there is one"));
    for kind in 0..6 {
        queue.post(&mut other, Request::Push(item(3, 1)));
        let led = match kind {
            0 => queue.try_call(&mut member, Request::Least).is_some(),
            1 => queue.take_first(&mut member, Wanted::Nothing).is_some(),
            2 => queue.count_items(&mut member).is_some(),
            3 => queue.peek(&mut member).is_some(),
            4 => queue.carry_out_pushes(&mut member, &[item(4, 1)]).is_some(),
            _ => queue.try_trail_round(&mut member).is_some(),
        };
        assert!(&rt; led && queue.look(&mut other).is_some());
    }
    Ok(())
}

// The lead under way when somebody posts may leave that request; the next one answers it.
#[test]
fn one_lead_at_most_leaves_a_post(rt: HostRuntime) -> Result<(), Fail> {
    let (queue, mut newcomers) = opened(&rt, rt.alloc(), &[1, 2]);
    let mut member = queue.join(newcomers.pop().expect(&rt, "there is one"));
    let mut other = queue.join(newcomers.pop().expect(&rt, "there is one"));
    let lead = queue.lead(&mut member).expect(&rt, "the lock is free");
    queue.post(&mut other, Request::Pop);
    queue.release(&mut member, lead);
    assert!(&rt; queue.look(&mut other).is_none());
    assert!(&rt; queue.count_items(&mut member).is_some() && queue.look(&mut other).is_some());
    Ok(())
}
