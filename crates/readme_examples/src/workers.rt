// The workers of a scheduler: each runs the task that is due first, until nothing is left to run.
ghost use Rattle.std.specs.Prelude.{◌≡◌, [], IfOk};
ghost use Rattle.std.specs.List.{All};
ghost use Rattle.readme_examples.specs.Workers.{taken_out};

use flat_queue::{CallError, Handle, Member, Newcomer, Queue};
use leftist_heap::Leftist;
use pq_book::Entry;
use pq_types::Item;
use std::alloc::{AllocError, AllocFailed, Global};
use std::sync::Wait;
use std::thread;
use std::thread::Threads;
use thiserror::Error;

type Heap = Leftist<Entry, Global>;

/// Why a worker has ended before all was run.
#[derive(Clone, Copy, Debug, Error)]
pub enum WorkError {
    #[error("{0}")]
    Call(#[from] CallError),
    #[error("no memory")]
    NoMemory,
}

impl From<AllocFailed<Item>> for WorkError {
    fn from(_refused: AllocFailed<Item>) -> WorkError {
        WorkError::NoMemory
    }
}

/// A worker that has ended: what it is to the queue, and the tasks that it ran, in their order.
#[derive(Drop)]
pub struct WorkDone {
    pub member: Member<Heap>,
    pub tasks: Vec<Item>,
}

/// The task that comes after this one, a second later: a task's priority is when it is due, and its
/// value how often it is still to be run after that.
pub fn next_run(task: Item) -> Option<Item> {
    let priority = task.priority.checked_add(1000)?;
    let value = task.value.checked_sub(1)?;
    Some(Item { priority, value })
}

// Puts a task in, and runs whatever is due first until nothing is left: the tasks that were run, in their order.
#[tactic(auto, using(crate::proofs::TakenOut::after_push, crate::proofs::TakenOut::after_pop, crate::proofs::TakenOut::after_empty_pop))]
fn run_from<R: Wait>(
    rt: &R,
    alloc: Global,
    handle: &mut Handle<'_, Heap>,
    first: Item,
) -> Result<Vec<Item>, WorkError>
    requires { handle.old.pen.mine ≡ [] }
    ensures queue { IfOk result (λ _. handle.new.queue ≡ handle.old.queue) }
    ensures tasks { IfOk result (λ tasks. tasks.items ≡ taken_out handle.new.pen.mine) }
{
    let mut tasks = Vec::new(alloc);
    handle.push(rt, first)?;
    while let (_, Some(task)) = handle.pop(rt)? {
        tasks.push(task)?;
        if let Some(next) = next_run(task) {
            handle.push(rt, next)?;
        }
    }
    Ok(tasks)
}

/// What each thread does: it joins, puts a task in, and runs whatever is due first until nothing is
/// left. What it ran is what its own pops took out of the queue.
pub fn work<R: Wait>(
    rt: &R,
    alloc: Global,
    queue: &Queue<Heap>,
    newcomer: Newcomer,
    first: Item,
) -> Result<WorkDone, WorkError>
    requires { newcomer.queue ≡ queue.now }
    ensures queue { IfOk result (λ worked. worked.member.queue ≡ queue.now) }
    ensures tasks { IfOk result (λ worked. worked.tasks.items ≡ taken_out worked.member.pen.mine) }
{
    let mut handle = queue.enter(newcomer);
    let tasks = run_from(rt, alloc, &mut handle, first)?;
    let member = handle.into_member();
    Ok(WorkDone { member, tasks })
}

// A worker whose first task is due at its id, and is run four times: what it is to the queue, and the tasks that it ran.
fn work_from_id<R: Wait>(
    rt: &R,
    alloc: Global,
    queue: &Queue<Heap>,
    newcomer: Newcomer,
) -> Result<(Member<Heap>, Vec<Item>), WorkError>
    requires { newcomer.queue ≡ queue.now }
{
    let first = Item {
        priority: (newcomer.id() % 1000) as u32,
        value: 3,
    };
    let WorkDone { member, tasks } = work(rt, alloc, queue, newcomer, first)?;
    Ok((member, tasks))
}

/// All these workers at work, each in a thread of its own: what each is to the queue, and the tasks that it ran.
pub fn all_work<R: Threads + Wait + Sync>(
    rt: &R,
    alloc: Global,
    queue: &Queue<Heap>,
    newcomers: Vec<Newcomer>,
) -> Result<Vec<Result<(Member<Heap>, Vec<Item>), WorkError>>, AllocError>
    requires { All (λ n. n.queue ≡ queue.now) newcomers.items }
{
    thread::map_vec(
        rt,
        newcomers,
        &|newcomer: Newcomer| { work_from_id(rt, alloc, queue, newcomer) },
    )
}
