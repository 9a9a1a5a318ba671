// A load in slices: the workers go on until each has made so many requests, all are joined, and between
// two slices the journal is written down, and it is told how far the load is.
ghost use Rattle.std.specs.Prelude.{◌≡◌, ◌+◌, ◌<◌, ◌≤◌, ◌⊎◌, ℕ, length, IfOk, IfErr};
ghost use Rattle.flat_queue.specs.Members.{HasRoomForAll};
ghost use Rattle.program_words.specs.Lines.{each_of};
ghost use Rattle.queue_load.specs.Asks.{may_give_up};
ghost use Rattle.queue_load.specs.JournalWriter.{GoesOn};
ghost use Rattle.queue_load.specs.Lines.{MayPostAll};
ghost use Rattle.queue_load.specs.Load.{AreStates, HaveCome, HaveComeWithin, known_before, known_then};
ghost use Rattle.queue_load.specs.Watched.{AreOf, FailsSlices, IsSliceEnd, StillCome, share_of};

use crate::asks::Load;
use crate::journal_writer::{JournalWriter, write_down};
use crate::load::first_refusal;
use crate::load_faults::LoadError;
use crate::threads::all_work;
use crate::worker::{EndedWorker, WorkerState, states_of};
use flat_queue::{Gate, Queue};
use leftist_heap::Store;
use pq_book::Entry;
use pq_types::Part;
use program_words::Plan;
use std::alloc::Global;
use std::io::Write;
use std::sync::Wait;
use std::thread::Threads;

/// How many requests all workers make in a slice at most: as many as memory keeps lines of a long journal.
const SLICE: u64 = 65_536;

/// Who is told how far a load is.
pub trait Watch {
    /// The workers have made so many whole rounds of all.
    fn tell(&mut self, rounds: u64, all: u32)
        requires { rounds ≤ all };
}

/// Whoever is told nothing.
#[derive(Drop)]
pub struct Unwatched;

impl Watch for Unwatched {
    fn tell(&mut self, _rounds: u64, _all: u32) {}
}

/// Why a load failed; and where a worker was refused, all its workers as they ended, so that a caller can see how far each
/// has come.
#[derive(Drop)]
pub struct FailedLoad<S: Store<Entry<P>>, P: Part = u32> {
    pub error: LoadError,
    pub worked: Option<Vec<EndedWorker<S, P>>>,
}

impl<S: Store<Entry<P>>, P: Part> From<LoadError> for FailedLoad<S, P> {
    ghost use Rattle.std.specs.Prelude.{◌≡◌, None};

    ghost from_gives = { λ error failed. (failed.error ≡ error) × (failed.worked ≡ None) };

    fn from(cause: LoadError) -> FailedLoad<S, P> {
        FailedLoad {
            error: cause,
            worked: None,
        }
    }
}

/// How many requests each worker of this load makes in a slice, where it is written down or told how far it is.
pub fn share_of_slice(plan: Plan) -> u64
    ensures { result ≡ share_of plan }
{
    (SLICE / u64::from(plan.workers)).max(1)
}

// How many requests each worker has made in all at the end of the slice that begins behind so many.
fn slice_end(plan: Plan, slice: u64, made: u64) -> u64
    requires more { made < each_of plan }
    requires some { 0 < slice }
    ensures more { made < result }
    ensures most { result ≤ each_of plan }
    ensures next { (result ≡ each_of plan) ⊎ ((result ≡ made + slice) × (result < each_of plan)) }
{
    let all = plan.of_each();
    if slice < all - made {
        return made + slice;
    }
    all
}

// How many whole rounds are made behind so many requests of each worker.
#[tactic(auto, using(crate::proofs::Rounds::whole_rounds))]
fn rounds_made(plan: Plan, made: u64) -> u64
    requires { made ≤ each_of plan }
    ensures { result ≤ plan.rounds }
{
    made / u64::from(plan.pushes + plan.pops)
}

// Writes the journal down by the member of the first of these workers.
fn first_writes<S: Store<Entry<P>>, W: Write, P: Part>(
    alloc: Global,
    queue: &Queue<S, P>,
    worked: &mut Vec<EndedWorker<S, P>>,
    writing: JournalWriter,
    writer: &mut W,
) -> JournalWriter
    requires here { AreOf queue.now worked.old.items }
    ensures len { length worked.new.items ≡ length worked.old.items }
    ensures come { StillCome P.wide queue.now worked.old.items worked.new.items }
    ensures writes { GoesOn writing result (W.contents writer.old) (W.contents writer.new) (known_then worked.old.items)
        (known_then worked.new.items) }
{
    if worked.is_empty() {
        return writing;
    }
    write_down(alloc, queue, &mut worked[0].member, writing, writer)
}

// Has the workers go on until each has made so many requests in all, and then writes the journal down.
fn slice<
    S: Store<Entry<P>> + Send,
    R: Threads + Wait + Sync,
    G: Gate + Sync,
    W: Write,
    P: Part + Send,
>(
    load: &Load<'_, S, R, G, P>,
    states: Vec<WorkerState<S, P>>,
    until: u64,
    writing: JournalWriter,
    writer: &mut W,
) -> Result<(Vec<EndedWorker<S, P>>, JournalWriter), FailedLoad<S, P>>
    requires states { AreStates P.wide load.now.queue.now load.now.plan until states.items }
    requires count { length states.items ≡ load.now.plan.workers }
    requires until { until ≤ each_of load.now.plan }
    requires end { IsSliceEnd load.now.plan load.now.slice until }
    requires few { MayPostAll load.now.queue.now load.now.plan }
    ensures len { IfOk result (λ made. length made.0.items ≡ length states.items) }
    ensures come { IfOk result (λ made. HaveCome P.wide load.now.queue.now load.now.plan until made.0.items) }
    ensures writes { IfOk result (λ made.
        GoesOn writing made.1 (W.contents writer.old) (W.contents writer.new) (known_before states.items)
        (known_then made.0.items)) }
    ensures err { IfErr result (λ failed.
        FailsSlices P.wide (may_give_up G.may_answer load.now.asks)
        (HasRoomForAll S.room load.now.queue.now) load.now.plan load.now.slice failed.error failed.worked) }
{
    let mut worked = all_work(load, states, until)?;
    if let Some(error) = first_refusal(worked.as_slice()) {
        return Err(FailedLoad {
            error,
            worked: Some(worked),
        });
    }
    let writing = first_writes(load.alloc, load.queue, &mut worked, writing, writer);
    Ok((worked, writing))
}

// The next slice of these workers.
fn next_slice<
    S: Store<Entry<P>> + Send,
    R: Threads + Wait + Sync,
    G: Gate + Sync,
    W: Write,
    P: Part + Send,
>(
    load: &Load<'_, S, R, G, P>,
    worked: Vec<EndedWorker<S, P>>,
    until: u64,
    writing: JournalWriter,
    writer: &mut W,
) -> Result<(Vec<EndedWorker<S, P>>, JournalWriter), FailedLoad<S, P>>
    requires come { HaveComeWithin P.wide load.now.queue.now load.now.plan until worked.items }
    requires count { length worked.items ≡ load.now.plan.workers }
    requires until { until ≤ each_of load.now.plan }
    requires end { IsSliceEnd load.now.plan load.now.slice until }
    requires few { MayPostAll load.now.queue.now load.now.plan }
    ensures len { IfOk result (λ now. length now.0.items ≡ length worked.items) }
    ensures come { IfOk result (λ now. HaveCome P.wide load.now.queue.now load.now.plan until now.0.items) }
    ensures writes { IfOk result (λ now.
        GoesOn writing now.1 (W.contents writer.old) (W.contents writer.new) (known_then worked.items)
        (known_then now.0.items)) }
    ensures err { IfErr result (λ failed.
        FailsSlices P.wide (may_give_up G.may_answer load.now.asks)
        (HasRoomForAll S.room load.now.queue.now) load.now.plan load.now.slice failed.error failed.worked) }
{
    let Ok(states) = states_of(load.alloc, worked) else {
        return Err(FailedLoad::from(LoadError::NoMemory));
    };
    slice(load, states, until, writing, writer)
}

/// Has the workers make all their requests, slice by slice, and writes the journal down behind each
/// slice, as long as the writing doesn't fail. The error names the first worker that was refused.
pub fn all_slices<
    S: Store<Entry<P>> + Send,
    R: Threads + Wait + Sync,
    G: Gate + Sync,
    W: Write,
    V: Watch,
    P: Part + Send,
>(
    load: &Load<'_, S, R, G, P>,
    states: Vec<WorkerState<S, P>>,
    writing: JournalWriter,
    writer: &mut W,
    watch: &mut V,
) -> Result<(Vec<EndedWorker<S, P>>, JournalWriter), FailedLoad<S, P>>
    requires states { (until : ℕ) → AreStates P.wide load.now.queue.now load.now.plan until states.items }
    requires count { length states.items ≡ load.now.plan.workers }
    requires few { MayPostAll load.now.queue.now load.now.plan }
    requires some { 0 < load.now.slice }
    ensures len { IfOk result (λ made. length made.0.items ≡ length states.items) }
    ensures come { IfOk result (λ made. HaveCome P.wide load.now.queue.now load.now.plan (each_of load.now.plan) made.0.items) }
    ensures writes { IfOk result (λ made.
        GoesOn writing made.1 (W.contents writer.old) (W.contents writer.new) (known_before states.items)
        (known_then made.0.items)) }
    ensures err { IfErr result (λ failed.
        FailsSlices P.wide (may_give_up G.may_answer load.now.asks)
        (HasRoomForAll S.room load.now.queue.now) load.now.plan load.now.slice failed.error failed.worked) }
{
    let plan = load.plan;
    let all = plan.of_each();
    let mut made = slice_end(plan, load.slice, 0);
    let (mut worked, mut writing) = slice(load, states, made, writing, writer)?;
    while made < all {
        watch.tell(rounds_made(plan, made), plan.rounds);
        let until = slice_end(plan, load.slice, made);
        let (now, put) = next_slice(load, worked, until, writing, writer)?;
        worked = now;
        writing = put;
        made = until;
    }
    Ok((worked, writing))
}
