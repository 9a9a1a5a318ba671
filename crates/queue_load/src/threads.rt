// The workers of a load in threads of their own.
ghost use Rattle.std.specs.Prelude.{◌≡◌, ◌≤◌, ◌⊎◌, ℕ, length, IfOk, IfErr, IfSome, vec_len};
ghost use Rattle.flat_queue.specs.Members.{HasRoomForAll};
ghost use Rattle.queue_load.specs.Asks.{may_give_up};
ghost use Rattle.queue_load.specs.Load.{AreStates, AreWorked};
ghost use Rattle.program_words.specs.Lines.{each_of};
ghost use Rattle.program_words.specs.declared.plan.TheConstants.{MOST_WORKERS};
ghost use Rattle.queue_load.specs.Jobs.{HaveDone, HaveTasks, MayAllDo};
ghost use Rattle.queue_load.specs.Lines.{MayPostAll};
ghost use Rattle.queue_load.specs.Worker.{HasWorked, StandsAt, known_of};

use crate::asks::Load;
use crate::load_faults::LoadError;
use crate::worker::{EndedWorker, WorkerState, work};
use flat_queue::Gate;
use leftist_heap::Store;
use pq_book::Entry;
use pq_types::Part;
use program_words::MOST_WORKERS;
use std::alloc::{AllocError, Global};
use std::snapshot::Snapshot;
use std::sync::Wait;
use std::thread;
use std::thread::{Promise, PromisedHandle, Scope, Threads};

/// What each of many workers does, from a state of its own on. The threads are generic in it, so that their proofs take no
/// state apart.
pub trait Job<T, W> {
    /// The worker of this number may do it from this state on.
    ghost may_do: { Self → ℕ → T → Type 0 };

    /// What the worker of this number has come to from this state on.
    ghost has_done: { Self → ℕ → T → W → Type 0 };

    /// Has the worker of this number do it.
    fn run(&self, worker: u64, state: T) -> W
        requires { may_do self.now worker state }
        ensures { has_done self.now worker state result };
}

/// What the thread of a worker is to do, and from which state on.
#[derive(Drop)]
pub struct Task<'a, J, T> {
    job: &'a J,
    worker: u64,
    state: Snapshot<T>,
}

impl<'a, T, W, J: Job<T, W>> Promise<W> for Task<'a, J, T> {
    ghost kept_by = { λ task worked. J.has_done task.job.now task.worker task.state.value worked };
}

// Starts the thread of a worker; none where the start is refused.
fn start<'s, E, T: Send + Drop + 's, W: Send + Drop + 's, J: Job<T, W> + Sync>(
    scope: &Scope<'s, E>,
    state: T,
    task: Task<'s, J, T>,
) -> Option<PromisedHandle<W, Task<'s, J, T>>>
    requires may { J.may_do task.job.now task.worker state }
    requires state { task.state.value ≡ state }
    ensures { IfSome result (λ started. started.promise ≡ task.entry) }
{
    let (job, worker) = (task.job, task.worker);
    scope.spawn_with(task, move || job.run(worker, state)).ok()
}

// Starts the threads of the workers in these states, one after another, until a start is refused.
fn start_all<'s, E, T: Send + Drop + 's, W: Send + Drop + 's, J: Job<T, W> + Sync>(
    scope: &Scope<'s, E>,
    alloc: Global,
    job: &'s J,
    states: Vec<T>,
) -> Result<Vec<PromisedHandle<W, Task<'s, J, T>>>, AllocError>
    requires may { MayAllDo (J.may_do job.now) states.items }
    requires few { length states.items ≤ MOST_WORKERS }
    ensures { IfOk result (λ started. HaveTasks job.now states.items started.items) }
{
    let mut started = Vec::with_capacity(alloc, states.len())?;
    let mut worker = 0u64;
    for state in states {
        worker += 1;
        let task = Task {
            job,
            worker,
            state: Snapshot::of(&state),
        };
        let Some(handle) = start(scope, state, task) else {
            break;
        };
        started.push(handle)?;
    }
    Ok(started)
}

// Joins these threads, and lets go of what they tell.
fn join_each<R: Threads, T: Drop, P: Promise<T>>(rt: &R, started: Vec<PromisedHandle<T, P>>) {
    for handle in started {
        drop(handle.join(rt));
    }
}

// Starts the threads of the workers in these states, and joins those that were started.
fn start_and_join<'s, E, R: Threads, T: Send + Drop + 's, W: Send + Drop + 's, J: Job<T, W> + Sync>(
    scope: &Scope<'s, E>,
    rt: &R,
    alloc: Global,
    job: &'s J,
    states: Vec<T>,
) -> Result<Vec<W>, AllocError>
    requires may { MayAllDo (J.may_do job.now) states.items }
    requires few { length states.items ≤ MOST_WORKERS }
    ensures { IfOk result (λ worked. HaveDone (J.has_done job.now) states.items worked.items) }
{
    let started = start_all(scope, alloc, job, states)?;
    match thread::join_promised(rt, started) {
        Ok(worked) => Ok(worked),
        Err(refused) => {
            join_each(rt, refused.value);
            Err(AllocError)
        }
    }
}

// Has the workers in these states do a job in threads of their own, and joins all threads that were started. `NoThread` where
// the start of one was refused.
fn all_do<R: Threads + Wait, T: Send + Drop, W: Send + Drop, J: Job<T, W> + Sync>(
    rt: &R,
    alloc: Global,
    job: &J,
    states: Vec<T>,
) -> Result<Vec<W>, LoadError>
    requires may { MayAllDo (J.may_do job.now) states.items }
    requires few { length states.items ≤ MOST_WORKERS }
    ensures all { IfOk result (λ worked. vec_len worked ≡ vec_len states) }
    ensures done { IfOk result (λ worked. HaveDone (J.has_done job.now) states.items worked.items) }
    ensures err { IfErr result (λ error. (error ≡ LoadError.NoThread) ⊎ (error ≡ LoadError.NoMemory)) }
{
    let count = states.len();
    let joined = thread::scope(
        thread::scope_env(),
        rt,
        |scope| -> Result<Vec<W>, AllocError>
            requires may { MayAllDo (J.may_do job.now) states.items }
            requires few { length states.items ≤ MOST_WORKERS }
            ensures { IfOk result (λ worked. HaveDone (J.has_done job.entry.now) states.items worked.items) }
        { start_and_join(scope, rt, alloc, job, states) },
    );
    match joined {
        Ok(worked) if worked.len() == count => Ok(worked),
        Ok(_) => Err(LoadError::NoThread),
        Err(AllocError) => Err(LoadError::NoMemory),
    }
}

/// A slice of a load: each worker goes on until it has made so many requests in all.
#[derive(Drop)]
pub struct Slice<'a, S: Store<Entry<P>>, R, G: Gate, P: Part = u32> {
    load: &'a Load<'a, S, R, G, P>,
    until: u64,
}

impl<'a, S: Store<Entry<P>>, R: Wait, G: Gate, P: Part> Job<WorkerState<S, P>, EndedWorker<S, P>>
    for Slice<'a, S, R, G, P> {
    ghost may_do = { λ slice worker state. StandsAt P.wide slice.load.now.queue.now worker slice.load.now.plan slice.until state
        × (worker ≤ MOST_WORKERS) × (slice.until ≤ each_of slice.load.now.plan)
        × MayPostAll slice.load.now.queue.now slice.load.now.plan };

    ghost has_done = { λ slice worker state worked.
        HasWorked P.wide (may_give_up G.may_answer slice.load.now.asks worker)
        (HasRoomForAll S.room slice.load.now.queue.now) slice.load.now.queue.now worker slice.load.now.plan slice.until
        (known_of state) worked };

    fn run(&self, worker: u64, state: WorkerState<S, P>) -> EndedWorker<S, P> {
        work(self.load, worker, state, self.until)
    }
}

/// Has each worker go on in a thread of its own until it has made so many requests in all, and joins all
/// threads that were started. They are told in the order of the states. `NoThread` where the start of one
/// was refused.
pub fn all_work<
    S: Store<Entry<P>> + Send,
    R: Threads + Wait + Sync,
    G: Gate + Sync,
    P: Part + Send,
>(
    load: &Load<'_, S, R, G, P>,
    states: Vec<WorkerState<S, P>>,
    until: u64,
) -> Result<Vec<EndedWorker<S, P>>, LoadError>
    requires states { AreStates P.wide load.now.queue.now load.now.plan until states.items }
    requires few_workers { length states.items ≤ MOST_WORKERS }
    requires until { until ≤ each_of load.now.plan }
    requires few { MayPostAll load.now.queue.now load.now.plan }
    ensures all { IfOk result (λ worked. vec_len worked ≡ vec_len states) }
    ensures worked { IfOk result (λ worked.
        AreWorked P.wide (may_give_up G.may_answer load.now.asks)
        (HasRoomForAll S.room load.now.queue.now) load.now.queue.now load.now.plan until states.items worked.items) }
    ensures err { IfErr result (λ error. (error ≡ LoadError.NoThread) ⊎ (error ≡ LoadError.NoMemory)) }
{
    all_do(load.rt, load.alloc, &Slice { load, until }, states)
}
