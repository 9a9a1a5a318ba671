// A load that runs in slices, which may tell how far it is, and whose journal may be written while it runs.
ghost use Rattle.std.specs.Prelude.{◌≡◌, ◌<◌, [], false, IfOk, IfErr};
ghost use Rattle.pq_book.specs.Book.{AllHaveRoom};
ghost use Rattle.queue_load.specs.Asks.{may_give_up};
ghost use Rattle.queue_load.specs.Lines.{load_room};
ghost use Rattle.queue_load.specs.Watched.{EndsArchived, EndsWatched, FailsWatched};

use crate::asks::{Asks, Load, Order};
use crate::journal_writer::JournalWriter;
use crate::load::{begun, ended};
use crate::load_faults::LoadError;
use crate::report::Report;
use crate::slices::{FailedLoad, Watch, all_slices, share_of_slice};
use crate::width::Width;
use flat_queue::{Gate, Open};
use leftist_heap::{AnyStore, Store, StoreKind};
use pq_book::{Book, Entry};
use program_words::Plan;
use std::alloc::Global;
use std::io::Write;
use std::sync::Wait;
use std::thread::Threads;

/// Has the workers of this load push and pop, in slices: behind each slice all threads are joined. Where that is
/// asked for, the journal is then written down as far as it goes, a line each, so that all of it is written in the
/// end, however long it is; what can't be written makes no other load. And between two slices it is told how far the
/// load is. Comes to the report, the Book of the queue, where its journal is kept whole, and whether all of it is
/// written. An error that names a worker names the first that was refused, and hands back all workers as they ended.
pub fn run_watched_of<
    P: Width,
    S: Store<Entry<P>> + Send,
    R: Threads + Wait + Sync,
    G: Gate + Sync,
    W: Write,
    V: Watch,
>(
    order: Order<'_, R, G>,
    store: S,
    is_asked: bool,
    writer: &mut W,
    watch: &mut V,
) -> Result<(Report, Option<Book<S, Global, P>>, bool), FailedLoad<S, P>>
    requires store { S.content store ≡ [] }
    requires some { 0 < order.slice }
    ensures archived { IfOk result (EndsArchived P.wide order.entry.plan (W.contents writer.old) (W.contents writer.new)) }
    ensures error { IfErr result (λ failed.
        FailsWatched P.wide (may_give_up G.may_answer order.entry.asks)
        (AllHaveRoom S.room (load_room order.entry.plan)) order.entry.plan order.entry.slice failed.error failed.worked) }
{
    let plan = order.plan;
    let (queue, states) = begun(order.alloc, plan, store)?;
    let load = Load {
        rt: order.rt,
        alloc: order.alloc,
        queue: &queue,
        plan,
        asks: order.asks,
        slice: order.slice,
    };
    let writing = JournalWriter::begins(is_asked);
    let (worked, writing) = match all_slices(&load, states, writing, writer, watch) {
        Ok(made) => made,
        Err(failed) => return Err(failed),
    };
    let (report, left, lines) = ended(order.alloc, queue, worked, plan)?;
    Ok((report, left, writing.is_whole(lines)))
}

/// The same of narrow items.
pub fn run_watched<
    S: Store<Entry> + Send,
    R: Threads + Wait + Sync,
    G: Gate + Sync,
    W: Write,
    V: Watch,
>(
    order: Order<'_, R, G>,
    store: S,
    is_asked: bool,
    writer: &mut W,
    watch: &mut V,
) -> Result<(Report, Option<Book<S, Global>>, bool), FailedLoad<S>>
    requires store { S.content store ≡ [] }
    requires some { 0 < order.slice }
    ensures archived { IfOk result
        (EndsArchived false order.entry.plan (W.contents writer.old) (W.contents writer.new)) }
    ensures error { IfErr result (λ failed.
        FailsWatched false (may_give_up G.may_answer order.entry.asks)
        (AllHaveRoom S.room (load_room order.entry.plan)) order.entry.plan order.entry.slice failed.error failed.worked) }
{
    run_watched_of::<u32, S, R, G, W, V>(order, store, is_asked, writer, watch)
}

/// A load that is watched: its numbers, the kind of its store, and whether its journal is written while it runs.
#[derive(Drop)]
pub struct WatchedLoad<'a, R> {
    pub rt: &'a R,
    pub alloc: Global,
    pub plan: Plan,
    pub kind: StoreKind,
    pub is_written: bool,
}

/// `run_watched_of` over an empty store of the load's kind, of items of this width, where all workers make 65,536 requests in
/// a slice at most, by the ordinary calls, so that none ever gives up.
#[tactic(auto, using(crate::proofs::Failing::fails_open))]
pub fn watched_report<R: Threads + Wait + Sync, W: Write, V: Watch, P: Width>(
    load: WatchedLoad<'_, R>,
    writer: &mut W,
    watch: &mut V,
) -> Result<
    (
        Report,
        Option<Book<AnyStore<Entry<P>, Global>, Global, P>>,
        bool,
    ),
    LoadError,
>
    ensures { EndsWatched P.wide load.entry.plan (W.contents writer.old) (W.contents writer.new) result }
{
    let WatchedLoad {
        rt,
        alloc,
        plan,
        kind,
        is_written,
    } = load;
    let store = AnyStore::new(alloc, kind);
    let asks: Asks<'_, Open> = Asks::AtOnce;
    let order = Order {
        rt,
        alloc,
        plan,
        asks,
        slice: share_of_slice(plan),
    };
    match run_watched_of(order, store, is_written, writer, watch) {
        Ok(made) => Ok(made),
        Err(failed) => Err(failed.error),
    }
}
