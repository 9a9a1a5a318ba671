// A look at the first item under the lock takes that out where it is wanted, and else writes no line.
use flat_queue::{Looked, Newcomer, Queue, Wanted};
use leftist_heap::Leftist;
use pq_book::Entry;
use pq_types::{Item, Request};
use std::alloc::Global;
use std::process::Abort;
use std::test::Fail;

type Heap = Leftist<Entry, Global>;

fn item(priority: u32, value: u32) -> Item {
    Item { priority, value }
}

fn opened<R: Abort>(rt: &R, alloc: Global, ids: &[u64]) -> (Queue<Heap>, Vec<Newcomer>) {
    let Ok(opened) = Queue::lasting(alloc, ids, Leftist::new(alloc)) else {
        panic!(rt; "there is such a queue")
    };
    opened
}

#[test]
fn a_look_takes_what_is_wanted(rt: HostRuntime) -> Result<(), Fail> {
    let (queue, mut newcomers) = opened(&rt, rt.alloc(), &[1]);
    let mut member = queue.join(newcomers.pop().expect(&rt, "there is one"));
    assert!(&rt; queue.take_first(&mut member, Wanted::Anything) == Some(Looked::Nothing));
    assert!(&rt; queue.push(&rt, &mut member, item(5, 1)) == Ok(1));
    assert!(&rt; queue.push(&rt, &mut member, item(7, 2)) == Ok(2));
    for wanted in [Wanted::Nothing, Wanted::UpTo(4)] {
        assert!(&rt; queue.take_first(&mut member, wanted) == Some(Looked::Stays(item(5, 1))));
    }
    assert!(&rt; queue.settle(&mut member) == Some(2) && member.posts() == 2);
    let taken = queue.take_first(&mut member, Wanted::UpTo(5));
    assert!(&rt; taken == Some(Looked::Taken(3, item(5, 1))));
    let left = queue.take_first(&mut member, Wanted::UpTo(6));
    assert!(&rt; left == Some(Looked::Stays(item(7, 2))));
    let taken = queue.take_first(&mut member, Wanted::Anything);
    assert!(&rt; taken == Some(Looked::Taken(4, item(7, 2))) && member.posts() == 4);
    Ok(())
}

// The same of wide items, whose priorities have more than 32 bits.
#[test]
fn a_look_takes_wide_items(rt: HostRuntime) -> Result<(), Fail> {
    const FAR: Item<u64> = Item {
        priority: 1 << 40,
        value: 1,
    };
    let (queue, mut newcomers) = Queue::wide(rt.alloc(), &[4], 8)?;
    let mut member = queue.join(newcomers.pop().expect(&rt, "there is one"));
    assert!(&rt; queue.push(&rt, &mut member, FAR) == Ok(1));
    let left = queue.take_first(&mut member, Wanted::UpTo((1 << 40) - 1));
    assert!(&rt; left == Some(Looked::Stays(FAR)));
    let taken = queue.take_first(&mut member, Wanted::UpTo(1 << 40));
    assert!(&rt; taken == Some(Looked::Taken(2, FAR)));
    drop(member);
    drop(queue);
    Ok(())
}

#[test]
fn a_look_says_that_the_journal_is_full(rt: HostRuntime) -> Result<(), Fail> {
    let Ok((queue, mut newcomers)) = Queue::new(rt.alloc(), &[1], 1) else {
        panic!(&rt; "there is such a queue")
    };
    let mut member = queue.join(newcomers.pop().expect(&rt, "there is one"));
    assert!(&rt; queue.push(&rt, &mut member, item(1, 1)) == Ok(1));
    let waiters = queue.waiters();
    waiters.begin_wait();
    for wanted in [Wanted::Nothing, Wanted::Anything] {
        assert!(&rt; queue.take_first(&mut member, wanted) == Some(Looked::BookFull));
        assert!(&rt; waiters.owed_wakes() == 1);
    }
    waiters.end_wait();
    Ok(())
}

// Of a queue that is shut it says so exactly where no item is left; and that the journal is full, where it is.
#[test]
fn a_look_says_that_the_queue_is_over(rt: HostRuntime) -> Result<(), Fail> {
    let Ok((queue, mut newcomers)) = Queue::new(rt.alloc(), &[1], 4) else {
        panic!(&rt; "there is such a queue")
    };
    let mut member = queue.join(newcomers.pop().expect(&rt, "there is one"));
    assert!(&rt; queue.push(&rt, &mut member, item(5, 1)) == Ok(1));
    assert!(&rt; queue.shut(&rt, &mut member) == Ok(2));
    let left = queue.take_first(&mut member, Wanted::UpTo(4));
    assert!(&rt; left == Some(Looked::Stays(item(5, 1))));
    let taken = queue.take_first(&mut member, Wanted::Anything);
    assert!(&rt; taken == Some(Looked::Taken(3, item(5, 1))));
    for wanted in [Wanted::Nothing, Wanted::UpTo(4), Wanted::Anything] {
        assert!(&rt; queue.take_first(&mut member, wanted) == Some(Looked::Over));
    }
    assert!(&rt; queue.pop(&rt, &mut member) == Ok((4, None)));
    assert!(&rt; queue.take_first(&mut member, Wanted::Anything) == Some(Looked::BookFull));
    Ok(())
}

// It serves who has posted, and counts whom that may wake; and where the lock is held it does nothing.
#[test]
fn a_look_serves_who_has_posted(rt: HostRuntime) -> Result<(), Fail> {
    let (queue, mut newcomers) = opened(&rt, rt.alloc(), &[1, 2]);
    let mut member = queue.join(newcomers.pop().expect(&rt, "there is one"));
    let mut other = queue.join(newcomers.pop().expect(&rt, "there is one"));
    let waiters = queue.waiters();
    waiters.begin_wait();
    queue.post(&mut other, Request::Push(item(3, 1)));
    let left = queue.take_first(&mut member, Wanted::Nothing);
    assert!(&rt; left == Some(Looked::Stays(item(3, 1))) && waiters.owed_wakes() == 1);
    assert!(&rt; queue.look(&mut other).is_some() && queue.settle(&mut member) == Some(1));
    let lead = queue.lead(&mut other).expect(&rt, "the lock is free");
    assert!(&rt; queue.take_first(&mut member, Wanted::Anything).is_none());
    queue.release(&mut other, lead);
    waiters.end_wait();
    Ok(())
}
