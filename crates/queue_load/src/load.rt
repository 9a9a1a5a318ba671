// `flatpq load`: workers in threads push and pop on one queue, which is then closed and audited.
ghost use Rattle.std.specs.Prelude.{◌≡◌, ◌+◌, ◌*◌, ◌<◌, ◌≤◌, ℕ, map, length, slice_get};
ghost use Rattle.std.specs.Prelude.{vec_len, [], false, Some, None, IfOk, IfErr, IfSome, IfNone};
ghost use Rattle.std.specs.List.{range_with_len};
ghost use Rattle.pq_book.specs.Book.{AllHaveRoom};
ghost use Rattle.flat_queue.specs.declared.gate.Turn.TheVariants.{GiveUp};
ghost use Rattle.flat_queue.specs.Closing.{ClosesAll};
ghost use Rattle.flat_queue.specs.Opening.{Opens};
ghost use Rattle.queue_load.specs.Load.{AreDone, AreShares, BeginsLoad, HaveCome, known_then, IsFirstRefusal};
ghost use Rattle.queue_load.specs.Load.{HasRefused, IsTotal, EndsLoad, FailsLoad, HasReport};
ghost use Rattle.program_words.specs.Lines.{each_of};
ghost use Rattle.queue_load.specs.Lines.{load_room};
ghost use Rattle.queue_load.specs.Tally.{IsSmall, all_together};
ghost use Rattle.queue_load.specs.Asks.{may_give_up};
ghost use Rattle.queue_load.specs.Watched.{EndsWith};

use crate::asks::{Asks, Order};
use crate::audit::report_of;
use crate::load_faults::LoadError;
use crate::report::Report;
use crate::slices::Unwatched;
use crate::tally::Tally;
use crate::watched::run_watched_of;
use crate::width::Width;
use crate::worker::{EndedWorker, WorkerState, states_of};
use desk_core::laws::law_calls_are_lines;
use flat_queue::{Gate, Member, Newcomer, Open, Queue};
use leftist_heap::{AnyStore, Store, StoreKind};
use pq_book::{Book, Entry};
use pq_types::Part;
use program_words::{MOST_WORKERS, Plan};
use std::alloc::{AllocError, Global};
use std::io;
use std::sync::Wait;
use std::thread::Threads;

// The ids of so many workers: 1, 2 and so on.
fn ids_of(alloc: Global, workers: u32) -> Result<Vec<u64>, AllocError>
    ensures { IfOk result (λ ids. ids.items ≡ range_with_len 1 workers) }
{
    let mut ids = Vec::with_capacity(alloc, workers as usize)?;
    for earlier in 0..workers {
        ids.push(u64::from(earlier) + 1)?;
    }
    Ok(ids)
}

// A queue over this empty store for the workers of this load, with room for the lines of all their
// requests, and a newcomer for each worker.
fn opened<S: Store<Entry<P>>, P: Width>(
    alloc: Global,
    plan: Plan,
    store: S,
) -> Result<(Queue<S, P>, Vec<Newcomer>), LoadError>
    requires store { S.content store ≡ [] }
    ensures ok { IfOk result (λ made. Opens (range_with_len 1 plan.workers) (load_room plan) made.0 made.1.items) }
    ensures err { IfErr result (λ error. error ≡ LoadError.NoMemory) }
{
    let Ok(ids) = ids_of(alloc, plan.workers) else {
        return Err(LoadError::NoMemory);
    };
    // With such ids and so many lines there is a queue wherever there is memory.
    match P::open(alloc, ids.as_slice(), store, plan.requests()) {
        Ok(made) => Ok(made),
        Err(_) => Err(LoadError::NoMemory),
    }
}

// The queue of this load over this empty store, and its workers, who are still to join.
pub(crate) fn begun<S: Store<Entry<P>>, P: Width>(
    alloc: Global,
    plan: Plan,
    store: S,
) -> Result<(Queue<S, P>, Vec<WorkerState<S, P>>), LoadError>
    requires store { S.content store ≡ [] }
    ensures ok { IfOk result (λ made. BeginsLoad P.wide plan made.0 made.1.items) }
    ensures err { IfErr result (λ error. error ≡ LoadError.NoMemory) }
{
    let (queue, newcomers) = opened(alloc, plan, store)?;
    match states_of(alloc, newcomers) {
        Ok(states) => Ok((queue, states)),
        Err(AllocError) => Err(LoadError::NoMemory),
    }
}

// Why the first worker that ended early did, and its id.
pub(crate) fn first_refusal<S: Store<Entry<P>>, P: Part>(
    worked: &[EndedWorker<S, P>],
) -> Option<LoadError>
    ensures some { IfSome result (λ error. IsFirstRefusal worked.now error) }
    ensures none { IfNone result ((i : ℕ) → ¬ HasRefused worked.now i) }
{
    for index in 0..worked.len() {
        if let Some(reason) = worked[index].refusal {
            let id = index as u64 + 1;
            return Some(LoadError::Worker { id, reason });
        }
    }
    None
}

// What these workers, 1 to the last, were answered all together.
fn total_of<S: Store<Entry<P>>, P: Part>(worked: &[EndedWorker<S, P>], plan: Plan) -> Tally
    requires shares { AreShares P.wide plan worked.now }
    requires few { length worked.now ≤ MOST_WORKERS }
    ensures total { IsTotal P.wide (length worked.now) plan result }
    ensures added { result ≡ all_together (map (λ w. w.tally) worked.now) }
    ensures small { IsSmall result }
{
    let mut total = Tally::default();
    for one in worked {
        total.add(&one.tally);
    }
    total
}

// The members of these workers, in their order.
fn members_of<S: Store<Entry<P>>, P: Part>(
    alloc: Global,
    worked: Vec<EndedWorker<S, P>>,
) -> Result<Vec<Member<S, P>>, AllocError>
    ensures { IfOk result (λ members. members.items ≡ map (λ w. w.member) worked.items) }
{
    worked
        .into_iter()
        .map(|worker| worker.member)
        .collect(alloc)
}

// Closes the queue with the members of all these workers.
fn closed<S: Store<Entry<P>>, P: Part>(
    alloc: Global,
    queue: Queue<S, P>,
    worked: Vec<EndedWorker<S, P>>,
    plan: Plan,
) -> Result<Book<S, Global, P>, LoadError>
    requires all { vec_len worked ≡ queue.comers }
    requires made { AreDone P.wide queue plan worked.items }
    ensures ok { IfOk result (λ book. ClosesAll queue (map (λ w. w.member) worked.items) book) }
    ensures err { IfErr result (λ error. error ≡ LoadError.NoMemory) }
{
    match members_of(alloc, worked) {
        Ok(members) => Ok(queue.close_all(members, Vec::new(alloc))),
        Err(AllocError) => Err(LoadError::NoMemory),
    }
}

// Closes the queue, whose workers have made all their requests: the report, the Book, where its journal
// is kept whole, and how many lines it has.
pub(crate) fn ended<S: Store<Entry<P>>, P: Part>(
    alloc: Global,
    queue: Queue<S, P>,
    worked: Vec<EndedWorker<S, P>>,
    plan: Plan,
) -> Result<(Report, Option<Book<S, Global, P>>, u64), LoadError>
    requires come { HaveCome P.wide queue plan (each_of plan) worked.items }
    requires count { length worked.items ≡ plan.workers }
    requires comers { queue.comers ≡ plan.workers }
    requires room { queue.room ≡ load_room plan }
    ensures ok { IfOk result (λ made. EndsWith P.wide plan (known_then worked.items) made.0 made.1 made.2) }
    ensures err { IfErr result (λ error. error ≡ LoadError.NoMemory) }
{
    law_calls_are_lines();
    let total = total_of(worked.as_slice(), plan);
    let book = closed(alloc, queue, worked, plan)?;
    let lines = book.len();
    let mut left = Some(book);
    let report = report_of(plan, &total, &mut left);
    Ok((report, left, lines))
}

/// Has the workers of this load, in threads of their own, push and pop on one queue over this empty
/// store, closes it, and reports what they were answered and what is left: the report, and the Book of the
/// queue, where its journal is kept whole. It is closed with the members of all workers: so each call that the report counts
/// stands in the Book's journal, on the line of its number, and the journal has no other line. It linearizes one history, which
/// has the beginnings and ends of all these calls (Herlihy and Wing 1990). The audit of a report is always ok. The items are of
/// this width.
///
/// The queue is a short one, with a line for each request, where these are 1,048,576 at most, else a
/// lasting one: then memory holds the last lines alone, and there is no Book.
///
/// An error that names a worker names one of them, with a reason that this worker may have: the first that was refused, as
/// `run_watched_of` says, which hands the workers back.
/// Its reason is that the gate gave up only where the gate may say so to that worker, and want of memory only where some
/// store lacks room for as many items as the queue has lines.
pub fn run_load_of<P: Width, S: Store<Entry<P>> + Send, R: Threads + Wait + Sync, G: Gate + Sync>(
    rt: &R,
    alloc: Global,
    plan: Plan,
    store: S,
    gate: &G,
) -> Result<(Report, Option<Book<S, Global, P>>), LoadError>
    requires store { S.content store ≡ [] }
    ensures report { IfOk result (λ made. HasReport P.wide plan made.0 made.1) }
    ensures error { IfErr result
        (FailsLoad (λ id. G.may_answer gate.now id GiveUp) (AllHaveRoom S.room (load_room plan)) plan) }
{
    run_whole(rt, alloc, plan, store, Asks::By(gate))
}

/// The same of narrow items.
pub fn run_load<S: Store<Entry> + Send, R: Threads + Wait + Sync, G: Gate + Sync>(
    rt: &R,
    alloc: Global,
    plan: Plan,
    store: S,
    gate: &G,
) -> Result<(Report, Option<Book<S, Global>>), LoadError>
    requires store { S.content store ≡ [] }
    ensures report { IfOk result (λ made. HasReport false plan made.0 made.1) }
    ensures error { IfErr result
        (FailsLoad (λ id. G.may_answer gate.now id GiveUp) (AllHaveRoom S.room (load_room plan)) plan) }
{
    run_load_of::<u32, S, R, G>(rt, alloc, plan, store, gate)
}

/// The report of a load over a store of this kind, of items of this width, whose workers make their requests by the ordinary
/// calls, and so never give up, and the Book of its queue, where its journal is kept whole. An error that names a worker
/// names one of them, and never says that its gate gave up.
pub fn load_report<R: Threads + Wait + Sync, P: Width>(
    rt: &R,
    alloc: Global,
    plan: Plan,
    kind: StoreKind,
) -> Result<(Report, Option<Book<AnyStore<Entry<P>, Global>, Global, P>>), LoadError>
    ensures { EndsLoad P.wide plan result }
{
    let asks: Asks<'_, Open> = Asks::AtOnce;
    run_whole(rt, alloc, plan, AnyStore::new(alloc, kind), asks)
}

// Runs a load in one slice, whose workers ask so.
#[tactic(auto, using(crate::proofs::Failing::fails_whole))]
fn run_whole<S: Store<Entry<P>> + Send, R: Threads + Wait + Sync, G: Gate + Sync, P: Width>(
    rt: &R,
    alloc: Global,
    plan: Plan,
    store: S,
    asks: Asks<'_, G>,
) -> Result<(Report, Option<Book<S, Global, P>>), LoadError>
    requires store { S.content store ≡ [] }
    ensures report { IfOk result (λ made. HasReport P.wide plan made.0 made.1) }
    ensures error { IfErr result
        (FailsLoad (may_give_up G.may_answer asks.entry) (AllHaveRoom S.room (load_room plan)) plan) }
{
    let order = Order {
        rt,
        alloc,
        plan,
        asks,
        slice: plan.of_each(),
    };
    match run_watched_of(order, store, false, &mut io::sink(), &mut Unwatched) {
        Ok((report, left, _)) => Ok((report, left)),
        Err(failed) => Err(failed.error),
    }
}
