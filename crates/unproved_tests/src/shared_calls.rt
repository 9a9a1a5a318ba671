// Calls of a shared handle in steps: beside a lead that is kept, which answers what was posted, and where the queue is shut.
use crate::common::{Heap, item, shared};
use flat_queue::{Handle, Newcomer, Queue};
use pq_types::{Answer, Refusal, Reply, Request};
use queue_pool::{SharedHandle, Undone};
use std::alloc::Global;
use std::process::Abort;
use std::sync::Arc;
use std::test::Fail;

// A try of a push beside a lead, its post, then steps that wait for its answer: the other's round gives that.
fn steps_beside_a_lead<R: Abort>(
    rt: &R,
    handle: &mut SharedHandle<Heap>,
    leader: &mut Handle<'_, Heap>,
) {
    let push = Request::Push(item(5, 1));
    let lead = leader.lead().expect(rt, "the lock is free");
    assert!(rt; handle.try_call(push) == Err(Undone::LockHeld) && handle.is_idle());
    assert!(rt; handle.step_answer() == Err(Undone::Idle));
    assert!(rt; handle.post(push).is_ok() && !handle.is_idle());
    assert!(rt;
        handle.try_call(push) == Err(Undone::Waits) && handle.post(push) == Err(Undone::Waits)
    );
    assert!(rt; handle.step_answer() == Err(Undone::LockHeld));
    leader.release(lead);
    assert!(rt; leader.try_round().is_some());
    let pushed = Answer::Entered(1, Reply::Pushed);
    assert!(rt; handle.step_answer() == Ok(pushed) && handle.is_idle());
    assert!(rt; handle.step_answer() == Err(Undone::Idle));
}

// A pop that is posted beside a lead, of which nobody makes a round: the next step does, and the one behind it has the
// answer. A peek is then entered at once.
fn steps_by_itself<R: Abort>(
    rt: &R,
    handle: &mut SharedHandle<Heap>,
    leader: &mut Handle<'_, Heap>,
) {
    let lead = leader.lead().expect(rt, "the lock is free");
    assert!(rt; handle.post(Request::Pop).is_ok());
    leader.release(lead);
    assert!(rt; handle.step_answer() == Err(Undone::Led) && !handle.is_idle());
    let popped = Answer::Entered(2, Reply::Got(item(5, 1)));
    assert!(rt; handle.step_answer() == Ok(popped));
    let none = Answer::Entered(3, Reply::Empty);
    assert!(rt; handle.try_call(Request::Least) == Ok(none));
}

// A push is refused in a queue that is shut, one that was posted too; a pop is not. Another shut is refused.
fn steps_where_it_is_shut<R: Abort>(
    rt: &R,
    handle: &mut SharedHandle<Heap>,
    leader: &mut Handle<'_, Heap>,
) {
    let push = Request::Push(item(5, 1));
    let refused = Answer::Refused(Refusal::Shut.padded());
    let lead = leader.lead().expect(rt, "the lock is free");
    assert!(rt; handle.try_shut() == Err(Undone::LockHeld));
    assert!(rt; handle.try_call(push) == Err(Undone::LockHeld) && handle.post(push).is_ok());
    assert!(rt; handle.try_shut() == Err(Undone::Waits));
    leader.release(lead);
    assert!(rt; handle.step_answer() == Err(Undone::Led));
    assert!(rt; handle.step_answer() == Ok(refused));
    assert!(rt; handle.try_shut() == Ok(refused));
    assert!(rt; handle.try_call(push) == Ok(refused) && handle.is_idle());
    let none = Answer::Entered(5, Reply::Empty);
    assert!(rt; handle.try_call(Request::Pop) == Ok(none));
}

// What the steps come to in a queue with room for five lines, whose members are this handle and the other that joins.
fn steps<R: Abort>(rt: &R, queue: &Queue<Heap>, handle: &mut SharedHandle<Heap>, other: Newcomer) {
    let mut leader = queue.enter(other);
    steps_beside_a_lead(rt, handle, &mut leader);
    steps_by_itself(rt, handle, &mut leader);
    let shut = Answer::Entered(4, Reply::Empty);
    assert!(rt; handle.try_shut() == Ok(shut));
    steps_where_it_is_shut(rt, handle, &mut leader);
    assert!(rt; handle.try_call(Request::Pop) == Ok(Answer::BookFull));
    assert!(rt; handle.try_shut() == Ok(Answer::BookFull));
    drop(leader);
}

#[test]
fn a_shared_handle_makes_its_calls_in_steps(rt: HostRuntime) -> Result<(), Fail> {
    let Ok((queue, mut newcomers)) = Queue::new(rt.alloc(), &[1, 2], 5) else {
        panic!(rt; "there is such a queue")
    };
    let Ok(queue) = Arc::new(rt.alloc(), queue) else {
        panic!(rt; "there is memory")
    };
    let other = newcomers.pop().expect(&rt, "there is a second");
    let mut handle = shared(&rt, rt.alloc(), &queue, newcomers);
    steps(&rt, &queue, &mut handle, other);
    drop(handle);
    drop(queue);
    Ok(())
}
