// How the queue of a pool is closed: no clause says that it ever is.
use flat_queue::Queue;
use leftist_heap::Leftist;
use pq_book::{Book, Entry};
use pq_types::{Answer, Item, Refusal, Reply, Request};
use queue_pool::{Pool, SharedHandle, StillOpen};
use std::alloc::Global;
use std::process::Abort;
use std::sync::Arc;
use std::test::Fail;

type Heap = Leftist<Entry, Global>;

// The pool of a queue for the comers of these ids.
fn pool_of<R: Abort>(rt: &R, alloc: Global, ids: &[u64]) -> Pool<Heap> {
    let Ok((queue, newcomers)) = Queue::new(alloc, ids, 16) else {
        panic!(rt; "there is such a queue")
    };
    let Ok(queue) = Arc::new(alloc, queue) else {
        panic!(rt; "there is memory")
    };
    let Ok(pool) = Pool::of(alloc, queue, newcomers) else {
        panic!(rt; "there is memory")
    };
    pool
}

// A member that comes out.
fn taken<R: Abort>(rt: &R, pool: &mut Pool<Heap>) -> SharedHandle<Heap> {
    let Ok(member) = pool.take() else {
        panic!(rt; "a member comes out")
    };
    member
}

// Posts a push, is answered by a round of its own, and is idle again.
fn pushes<R: Abort>(rt: &R, member: &mut SharedHandle<Heap>) {
    let item = Item {
        priority: 5,
        value: 1,
    };
    assert!(rt; member.post(Request::Push(item)).is_ok());
    assert!(rt; member.try_trail_round().is_some());
    drop(member.look());
    assert!(rt; member.is_idle());
}

// How many lines the queue has that is closed.
fn lines_of<R: Abort>(rt: &R, closed: Result<Book<Heap, Global>, StillOpen<Heap>>) -> u64 {
    match closed {
        Ok(book) => {
            let lines = book.len();
            drop(book);
            lines
        }
        Err(StillOpen::Missing(pool)) => {
            drop(pool);
            panic!(rt; "all are back")
        }
        Err(StillOpen::Shared(pool)) => {
            drop(pool);
            panic!(rt; "nobody shares it")
        }
    }
}

// The pool whose queue stays open, as one of its comers is not inside; or as another shares it.
fn still_open<R: Abort>(
    rt: &R,
    closed: Result<Book<Heap, Global>, StillOpen<Heap>>,
    is_missing: bool,
) -> Pool<Heap> {
    match closed {
        Err(StillOpen::Missing(pool)) => {
            assert!(rt; is_missing);
            pool
        }
        Err(StillOpen::Shared(pool)) => {
            assert!(rt; !is_missing);
            pool
        }
        Ok(book) => {
            drop(book);
            panic!(rt; "it is not to be closed")
        }
    }
}

// A pool whose members are all back is closed, and none while one is out.
#[test]
fn a_pool_is_closed_once_all_are_back(rt: HostRuntime) -> Result<(), Fail> {
    let mut pool = pool_of(&rt, rt.alloc(), &[1, 2]);
    let mut member = taken(&rt, &mut pool);
    pushes(&rt, &mut member);
    let mut pool = still_open(&rt, pool.close(), true);
    pool.give_back(member);
    assert!(&rt; lines_of(&rt, pool.close()) == 1);
    Ok(())
}

// Also with members that wait: a post that was answered has its line, and one that wasn't has none.
#[test]
fn a_pool_is_closed_with_members_that_wait(rt: HostRuntime) -> Result<(), Fail> {
    let push = Request::Push(Item {
        priority: 5,
        value: 1,
    });
    for (served, lines) in [(false, 0), (true, 1)] {
        let mut pool = pool_of(&rt, rt.alloc(), &[1, 2, 3]);
        let (mut member, mut other) = (taken(&rt, &mut pool), taken(&rt, &mut pool));
        assert!(&rt; member.post(push).is_ok());
        assert!(&rt; !served || other.try_trail_round().is_some());
        pool.give_back(member);
        pool.give_back(other);
        assert!(&rt; lines_of(&rt, pool.close()) == lines);
    }
    Ok(())
}

// A member that is dropped outside never comes back: the queue stays open, and the others go on.
#[test]
fn a_pool_is_not_closed_without_a_member_that_was_dropped(rt: HostRuntime) -> Result<(), Fail> {
    let mut pool = pool_of(&rt, rt.alloc(), &[1, 2]);
    drop(taken(&rt, &mut pool));
    let mut pool = still_open(&rt, pool.close(), true);
    let mut other = taken(&rt, &mut pool);
    pushes(&rt, &mut other);
    pool.give_back(other);
    assert!(&rt; pool.out() == 1);
    drop(still_open(&rt, pool.close(), true));
    Ok(())
}

// Nor is one while another shares its queue, though all are inside.
#[test]
fn a_pool_is_not_closed_while_another_shares_its_queue(rt: HostRuntime) -> Result<(), Fail> {
    let (queue, newcomers) = Queue::new(rt.alloc(), &[1, 2], 16)?;
    let Ok(queue) = Arc::new(rt.alloc(), queue) else {
        panic!(&rt; "there is memory")
    };
    let share = queue.clone()?;
    let pool = Pool::of(rt.alloc(), queue, newcomers)?;
    let pool = still_open(&rt, pool.close(), false);
    drop(share);
    assert!(&rt; lines_of(&rt, pool.close()) == 0);
    Ok(())
}

// Each push of a shared handle is refused, posted and at once, and nothing else is; what was posted before the shut is carried out
// before that.
#[test]
fn a_shut_queue_refuses_pushes_alone(rt: HostRuntime) {
    let mut pool = pool_of(&rt, rt.alloc(), &[1, 2]);
    let (mut member, mut other) = (taken(&rt, &mut pool), taken(&rt, &mut pool));
    let push = Request::Push(Item {
        priority: 5,
        value: 1,
    });
    let entered = |number, reply| Ok(Answer::Entered(number, reply));
    let refused = Answer::Refused(Refusal::Shut.padded());
    assert!(&rt; other.post(push).is_ok());
    assert!(&rt; member.try_shut() == entered(2, Reply::Empty));
    assert!(&rt; member.try_call(push) == Ok(refused));
    assert!(&rt; member.post(push).is_ok() && member.try_trail_round().is_some());
    assert!(&rt; member.look() == Ok(refused));
    assert!(&rt;
        member.try_call(Request::Least)
            == entered(
                3,
                Reply::Least(Item {
                    priority: 5,
                    value: 1
                })
            )
    );
    assert!(&rt; other.look() == Ok(Answer::Entered(1, Reply::Pushed)));
    assert!(&rt; member.post(Request::Pop).is_ok() && other.try_trail_round().is_some());
    assert!(&rt;
        member.look()
            == Ok(Answer::Entered(
                4,
                Reply::Got(Item {
                    priority: 5,
                    value: 1
                })
            ))
    );
}
