// What stands beside a queue: who waits for an item.
use crate::queue::{Heap, next, opened};
use flat_queue::{CallError, Queue};
use pq_types::{Answer, Item, Refusal, Reply};
use std::test::Fail;

// A shut is an event for all who are announced, and wakes them itself; by a step of its member it is owed to them. One that is
// refused is none, but where the journal is full.
#[test]
fn a_shut_wakes_all_who_wait(rt: HostRuntime) -> Result<(), Fail> {
    for steps in [false, true] {
        let (queue, mut newcomers) = opened(rt.alloc(), &[1], 2)?;
        let mut member = queue.join(next(&rt, &mut newcomers));
        let waiters = queue.waiters();
        let seen = waiters.begin_wait();
        waiters.begin_wait();
        if steps {
            let shut = Some(Answer::Entered(1, Reply::Empty));
            assert!(&rt; queue.carry_out_shut(&mut member) == shut && waiters.owed_wakes() == 2);
        } else {
            assert!(&rt; queue.shut(&rt, &mut member) == Ok(1) && waiters.owed_wakes() == 0);
        }
        assert!(&rt; waiters.begin_wait() == seen + 1);
        let refused = Some(Answer::Refused(Refusal::Shut.padded()));
        assert!(&rt; queue.carry_out_shut(&mut member) == refused && waiters.owed_wakes() == 0);
        assert!(&rt; queue.pop(&rt, &mut member) == Ok((2, None)));
        assert!(&rt; waiters.owed_wakes() == 0 && waiters.begin_wait() == seen + 2);
        assert!(&rt; queue.carry_out_shut(&mut member) == Some(Answer::BookFull));
        assert!(&rt; waiters.owed_wakes() == 4 && waiters.begin_wait() == seen + 3);
        drop(member);
        drop(queue);
    }
    Ok(())
}

// Serials are spent by shuts too.
#[test]
fn a_shut_uses_a_serial(rt: HostRuntime) -> Result<(), Fail> {
    let (queue, mut newcomers) = opened(rt.alloc(), &[1], 4)?;
    let mut member = queue.join(next(&rt, &mut newcomers));
    let item = Item {
        priority: 5,
        value: 1,
    };
    assert!(&rt; queue.shut(&rt, &mut member) == Ok(1) && member.posts() == 1);
    let refused = Err(CallError::Refused(Refusal::Shut));
    assert!(&rt; queue.shut(&rt, &mut member) == refused && member.posts() == 2);
    let refused = Err(CallError::Refused(Refusal::Shut));
    assert!(&rt; queue.push(&rt, &mut member, item) == refused && member.posts() == 3);
    Ok(())
}
