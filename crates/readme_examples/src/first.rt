// A first program: two threads push items into one queue, and then all come out, the least first.
use flat_queue::{CallError, Handle, Newcomer, Queue, QueueError};
use leftist_heap::Leftist;
use pq_book::Entry;
use pq_types::Item;
use std::alloc::{AllocError, AllocFailed, Global};
use std::sync::Wait;
use std::thread;
use std::thread::Threads;
use thiserror::Error;

/// Why the program has ended early.
#[derive(Clone, Copy, Debug, Error)]
pub enum RunError {
    #[error("{0}")]
    Queue(#[from] QueueError),
    #[error("{0}")]
    Call(#[from] CallError),
    #[error("no memory")]
    NoMemory,
}

impl From<AllocError> for RunError {
    fn from(_refused: AllocError) -> RunError {
        RunError::NoMemory
    }
}

impl From<AllocFailed<u32>> for RunError {
    fn from(_refused: AllocFailed<u32>) -> RunError {
        RunError::NoMemory
    }
}

type Member<'q> = Handle<'q, Leftist<Entry, Global>>;

// What each thread does: it pushes three items, and hands its member back.
fn push_three<'q, R: Wait>(rt: &R, mut member: Member<'q>) -> Result<Member<'q>, CallError> {
    for priority in [30, 10, 20] {
        member.push(rt, Item { priority, value: 7 })?;
    }
    Ok(member)
}

// Takes three items out, and tells their priorities.
fn take_three<R: Wait>(
    rt: &R,
    mut member: Member<'_>,
    told: &mut Vec<u32>,
) -> Result<(), RunError> {
    for _ in 0..3 {
        if let (_, Some(item)) = member.pop(rt)? {
            told.push(item.priority)?;
        }
    }
    Ok(())
}

// The same by each of these members.
fn take_all<R: Wait>(
    rt: &R,
    alloc: Global,
    members: Vec<Result<Member<'_>, CallError>>,
) -> Result<Vec<u32>, RunError> {
    let mut told = Vec::new(alloc);
    for member in members {
        take_three(rt, member?, &mut told)?;
    }
    Ok(told)
}

/// Two threads push three items each: the priorities of all, in the order in which they come out.
pub fn run<R: Threads + Wait + Sync>(rt: &R, alloc: Global) -> Result<Vec<u32>, RunError> {
    let (queue, newcomers) = Queue::lasting(alloc, &[1, 2], Leftist::new(alloc))?;
    let push = |newcomer: Newcomer| { push_three(rt, queue.enter(newcomer)) };
    let members = thread::map_vec(rt, newcomers, &push)?;
    take_all(rt, alloc, members)
}
