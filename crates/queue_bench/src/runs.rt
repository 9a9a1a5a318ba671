// A run of each kind.
ghost use Rattle.std.specs.Prelude.{◌≡◌, [], IfOk};
ghost use Rattle.std.specs.List.{All};

use crate::audit::{Ended, end_of};
use crate::callers::{BookCaller, Poster};
use crate::error::BenchError;
use crate::load::Load;
use crate::ordered_book::OrderedBook;
use crate::rounds::{RoundCounts, Rounder};
use crate::start_line::StartLine;
use crate::words::{Kind, Trial};
use crate::work::{Worked, work};
use flat_queue::{Newcomer, Queue, QueueError};
use leftist_heap::{NoPlaces, Store, TicketHeap};
use pq_book::Entry;
use std::alloc::{AllocError, Global};
use std::sync::{Mutex, Wait};
use std::thread;
use std::thread::Threads;
use std::time::Clock;

/// Runs the load on what the kind says, each worker in a thread of its own.
pub fn run<R: Threads + Wait + Clock + Sync>(
    rt: &R,
    alloc: Global,
    trial: Trial<'_>,
) -> Result<Ended, BenchError> {
    match TicketHeap::with_capacity(alloc, NoPlaces, trial.load.items as usize) {
        Ok(heap) if trial.kind == Kind::MutexBook => run_book(rt, alloc, heap, trial),
        Ok(heap) => run_queue(rt, alloc, heap, trial),
        Err(_) => Err(BenchError::NoMemory),
    }
}

// A queue over this empty store for the comers of these ids, and a newcomer for each: a lasting one where
// the kind says so, else one with a line for each call of the load.
fn opened<S: Store<Entry>>(
    alloc: Global,
    ids: &[u64],
    store: S,
    trial: Trial<'_>,
) -> Result<(Queue<S>, Vec<Newcomer>), QueueError>
    requires { S.content store ≡ [] }
    ensures { IfOk result (λ made. All (λ n. n.queue ≡ made.0) made.1.items) }
{
    if trial.kind == Kind::ArrayLasting {
        return Queue::lasting(alloc, ids, store);
    }
    Queue::with_store(alloc, ids, store, trial.load.calls)
}

// A run of the members of a queue over this empty store, whose ids are 1, 2, 3 and so on.
fn run_queue<S: Store<Entry> + Send, R: Threads + Wait + Clock + Sync>(
    rt: &R,
    alloc: Global,
    store: S,
    trial: Trial<'_>,
) -> Result<Ended, BenchError>
    requires { S.content store ≡ [] }
{
    let ids: Vec<u64> = (1..=u64::from(trial.load.workers))
        .collect(alloc)
        .map_err(|_| BenchError::NoMemory)?;
    match opened(alloc, ids.as_slice(), store, trial) {
        Ok((queue, newcomers)) => run_opened(rt, queue, newcomers, trial),
        Err(error) => Err(BenchError::Queue(error)),
    }
}

// A run of the members of this queue.
fn run_opened<S: Store<Entry> + Send, R: Threads + Wait + Clock + Sync>(
    rt: &R,
    queue: Queue<S>,
    newcomers: Vec<Newcomer>,
    trial: Trial<'_>,
) -> Result<Ended, BenchError>
    requires { All (λ n. n.queue ≡ queue) newcomers.items }
{
    match members_work(rt, &queue, newcomers, trial) {
        Ok(workers) => closed(queue, workers, trial.load),
        Err(_) => Err(BenchError::NoMemory),
    }
}

// The end of a run at this queue, whose workers ended so. The audit of a lasting queue is that of one whose journal is kept
// whole: how many lines the journal had in all, and what is left in the store, against what was pushed and what came out.
fn closed<S: Store<Entry>>(
    queue: Queue<S>,
    workers: Vec<Result<Worked, BenchError>>,
    load: Load,
) -> Result<Ended, BenchError> {
    match queue.close() {
        Ok(book) => end_of(workers, book, load),
        Err(_) => Err(BenchError::LockHeld),
    }
}

// Each newcomer joins and works, in a thread of its own.
fn members_work<S: Store<Entry> + Send, R: Threads + Wait + Clock + Sync>(
    rt: &R,
    queue: &Queue<S>,
    newcomers: Vec<Newcomer>,
    trial: Trial<'_>,
) -> Result<Vec<Result<Worked, BenchError>>, AllocError>
    requires { All (λ n. n.queue ≡ queue.now) newcomers.items }
{
    let line = StartLine::new(trial.load.workers);
    thread::map_vec(
        rt,
        newcomers,
        &|newcomer: Newcomer| { member_works(rt, queue, newcomer, &line, trial) },
    )
}

// The newcomer joins, and calls as the kind says.
fn member_works<S: Store<Entry>, R: Wait + Clock>(
    rt: &R,
    queue: &Queue<S>,
    newcomer: Newcomer,
    line: &StartLine,
    trial: Trial<'_>,
) -> Result<Worked, BenchError>
    requires { newcomer.queue ≡ queue.now }
{
    let worker = (newcomer.id().wrapping_sub(1) % 64) as u32;
    let mut handle = queue.enter(newcomer).resting(trial.rest);
    match trial.kind {
        Kind::ArrayPosts => work(rt, &mut Poster { handle }, line, worker, trial.load),
        Kind::ArrayRounds => {
            let mut rounder = Rounder {
                handle: Some(handle),
                counts: RoundCounts::NONE,
            };
            work(rt, &mut rounder, line, worker, trial.load)
        }
        _ => work(rt, &mut handle, line, worker, trial.load),
    }
}

// A run of those that share a Book over this empty store under a lock.
fn run_book<S: Store<Entry> + Send, R: Threads + Wait + Clock + Sync>(
    rt: &R,
    alloc: Global,
    store: S,
    trial: Trial<'_>,
) -> Result<Ended, BenchError>
    requires { S.content store ≡ [] }
{
    match OrderedBook::new(alloc, store, trial.load.calls) {
        Ok(book) => run_shared_book(rt, alloc, Mutex::new(book), trial),
        Err(error) => Err(BenchError::Book(error)),
    }
}

// A run of those that share this Book.
fn run_shared_book<S: Store<Entry> + Send, R: Threads + Wait + Clock + Sync>(
    rt: &R,
    alloc: Global,
    book: Mutex<OrderedBook<S>>,
    trial: Trial<'_>,
) -> Result<Ended, BenchError> {
    let load = trial.load;
    let line = StartLine::new(load.workers);
    let works = |worker: usize| {
        let place = (worker % 64) as u16;
        let mut caller = BookCaller { book: &book, place };
        work(rt, &mut caller, &line, u32::from(place), load)
    };
    match thread::map_indices(rt, alloc, load.workers as usize, &works) {
        Ok(workers) => end_of(workers, book.into_inner().into_book(), load),
        Err(_) => Err(BenchError::NoMemory),
    }
}
