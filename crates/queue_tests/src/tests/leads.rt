// What one finds that joins and posts while another leads.
ghost use Rattle.std.specs.Prelude.{◌≡◌};
ghost use Rattle.std.specs.List.{All};

use crate::tests::schedule::{Coming, Sitting, two_come};
use crate::tests::{closed, opened, push};
use flat_queue::{Called, Handle, Newcomer, Pending, Queue, Round};
use leftist_heap::Store;
use pq_book::Entry;
use pq_types::{GREATEST_SERIAL, Reply};
use std::process::Abort;
use std::test::Fail;

// While another leads, it settles nothing, posts, makes no round, and finds no answer.
fn posts_in_vain<'q, R: Abort, S: Store<Entry>>(
    rt: &R,
    mut handle: Handle<'q, S>,
) -> Pending<'q, S> {
    assert!(rt; handle.settle().is_none());
    assert!(rt; handle.posts() < GREATEST_SERIAL);
    let mut pending = handle.post(push(6, 0));
    assert!(rt; pending.try_round().is_none());
    pending
}

// What the call was told, where it was answered.
fn told_in<S: Store<Entry>>(called: Called<'_, S>) -> Option<(u64, Reply)> {
    match called {
        Called::Answered(handle, number, reply) => {
            drop(handle);
            Some((number, reply))
        }
        other => {
            drop(other);
            None
        }
    }
}

// The first leads before the second joins and posts, and makes its scan behind that.
fn leads_before<R: Abort, S: Store<Entry>>(rt: &R, first: Coming<'_, S>, second: Coming<'_, S>) {
    let Sitting { queue, mut member } = first.joins();
    let mut lead = queue.lead(&mut member).expect(rt, "the lock is free");
    let pending = posts_in_vain(rt, second.enters());
    let round = queue.sweep(&mut member, &mut lead);
    queue.release(&mut member, lead);
    drop(member);
    assert!(rt;
        round
            == Round {
                served: 1,
                doors: 3
            }
    );
    assert!(rt; told_in(pending.look()) == Some((1, Reply::Pushed)));
}

// The first of these newcomers leads before the second joins, and the queue is closed then.
fn leads_and_closes<R: Abort, S: Store<Entry>>(rt: &R, queue: Queue<S>, newcomers: Vec<Newcomer>)
    requires { All (λ n. n.queue ≡ queue) newcomers.items }
{
    let (first, second) = two_come(rt, &queue, newcomers);
    leads_before(rt, first, second);
    drop(closed(rt, queue, 1));
}

// The lead is taken before another has joined, and the scan that begins then finds it.
#[test]
fn a_leader_serves_one_that_joined_after_it_led(rt: HostRuntime) -> Result<(), Fail> {
    let (queue, newcomers) = opened(rt.alloc(), &[1, 2], 1)?;
    leads_and_closes(&rt, queue, newcomers);
    Ok(())
}
