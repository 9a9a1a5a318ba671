// How often a waiting call asks its gate, and when.
ghost use Rattle.std.specs.Prelude.{⊤};

use crate::queue::{next, opened, push};
use flat_queue::{Called, Gate, Handle, Pending, Turn};
use leftist_heap::Store;
use pq_book::Entry;
use pq_types::{Item, Reply, Request};
use std::process::Abort;
use std::sync::Wait;
use std::sync::atomic::{AtomicU64, Ordering};
use std::test::Fail;

// Says so many times to lead, and then to give up.
#[derive(Drop)]
struct Counting {
    leads: u64,
    asked: AtomicU64,
}

impl Counting {
    fn new(leads: u64) -> Counting {
        Counting {
            leads,
            asked: AtomicU64::new(0),
        }
    }

    fn asked(&self) -> u64 {
        self.asked.load(Ordering::SeqCst)
    }
}

impl Gate for Counting {
    ghost may_answer = { λ _ _ _. ⊤ };

    fn turn(&self, _id: u64) -> Turn {
        if self.asked.fetch_add(1, Ordering::SeqCst) < self.leads {
            Turn::Lead
        } else {
            Turn::GiveUp
        }
    }
}

// The call, where it is pending.
fn pending_in<'q, S: Store<Entry>>(called: Called<'q, S>) -> Option<Pending<'q, S>> {
    match called {
        Called::Pending(pending) => Some(pending),
        other => {
            drop(other);
            None
        }
    }
}

// What the call was told, where it was answered.
fn told_in<S: Store<Entry>>(called: Called<'_, S>) -> Option<(u64, Reply)> {
    match called {
        Called::Answered(handle, number, reply) => {
            drop(handle);
            Some((number, reply))
        }
        other => {
            drop(other);
            None
        }
    }
}

const SIX: Item = Item {
    priority: 6,
    value: 0,
};

// By itself it asks once, for the round that answers it.
fn calls_alone<R: Abort + Wait, S: Store<Entry>>(rt: &R, handle: Handle<'_, S>) {
    let gate = Counting::new(9);
    let told = told_in(handle.call_by(rt, push(6, 0), &gate));
    assert!(rt; gate.asked() == 1);
    assert!(rt; told == Some((1, Reply::Pushed)));
}

// While another leads, an own request finds the lock held, and uses no serial. Each turn to lead is in
// vain too, and the first to give up is the last.
fn calls_beside_lead<'q, R: Abort + Wait, S: Store<Entry>>(
    rt: &R,
    mut handle: Handle<'q, S>,
    other: &mut Handle<'_, S>,
) -> Pending<'q, S> {
    let lead = other.lead().expect(rt, "the lock is free");
    assert!(rt; handle.try_call(Request::Pop).is_none());
    assert!(rt; handle.posts() == 0);
    let gate = Counting::new(2);
    let called = handle.call_by(rt, Request::Pop, &gate);
    other.release(lead);
    assert!(rt; gate.asked() == 3);
    pending_in(called).expect(rt, "it gives up")
}

// Where the answer is there it asks nobody.
fn waits_for_what_is_there<R: Abort + Wait, S: Store<Entry>>(rt: &R, pending: Pending<'_, S>) {
    assert!(rt; pending.posts() == 1);
    let gate = Counting::new(9);
    let told = told_in(pending.wait(rt, &gate));
    assert!(rt; gate.asked() == 0);
    assert!(rt; told == Some((2, Reply::Got(SIX))));
}

fn counts_turns<R: Abort + Wait, S: Store<Entry>>(
    rt: &R,
    handle: Handle<'_, S>,
    mut other: Handle<'_, S>,
) {
    let pending = calls_beside_lead(rt, handle, &mut other);
    assert!(rt; other.try_round().is_some());
    waits_for_what_is_there(rt, pending);
    assert!(rt; other.settle() == Some(2));
    drop(other);
}

// The first of these newcomers calls, then the second while the third leads.
#[test]
fn a_gate_is_asked_behind_each_look_in_vain(rt: HostRuntime) -> Result<(), Fail> {
    let (queue, mut newcomers) = opened(rt.alloc(), &[1, 2, 3], 4)?;
    calls_alone(&rt, queue.enter(next(&rt, &mut newcomers)));
    let second = queue.enter(next(&rt, &mut newcomers));
    let third = queue.enter(next(&rt, &mut newcomers));
    counts_turns(&rt, second, third);
    drop(queue);
    Ok(())
}
