// How a C program opens a queue.
ghost use Rattle.std.specs.Prelude.{◌≡◌, ◌<◌, ◌↔◌, ◌∷◌, [], Err, IfOk, IfErr, OnOk};
ghost use Rattle.pq_book.specs.Pages.{page_of, room_keeping};
ghost use Rattle.split_core.specs.Ids.{OpenGrid, IsFault};
ghost use Rattle.split_core.specs.declared.ids.IdError.{IdError};
ghost use Rattle.flat_queue.specs.Lengths.{room_of, terms_with, IsLength};
ghost use Rattle.flat_queue.specs.Opening.{Opens};
ghost use Rattle.split_core.specs.declared.places.TheConstants.{MAX_COMERS};
ghost use Rattle.queue_c.specs.Lengths.{bound_of, length_of};
ghost use Rattle.queue_c.specs.Threads.{ids_of, AreThreads};
ghost use Rattle.queue_c.specs.Values.{IsOpened};
ghost use Rattle.queue_c.specs.Openings.{AreInRange, HoldsOpened, OpenAnswers};
ghost use Rattle.queue_c.specs.Calls.{IsOneOf, Opening};
ghost use Rattle.queue_c.specs.declared.codes.TheConstants.{NO_HANDLE, NO_MEMORY, OK, OUT_OF_RANGE};

use crate::codes::{NO_HANDLE, NO_MEMORY, OK, OUT_OF_RANGE};
use crate::contents::{Contents, Heap, QueuePool};
use crate::handle::Handle;
use crate::length::{bound_of, length_of};
use crate::place::boxed;
use any_heap::AnyHeap;
use flat_queue::{Length, Newcomer, Queue, QueueError};
use queue_pool::Pool;
use split_core::places::MAX_COMERS;
use std::alloc::Global;
use std::sync::Arc;

// The queue over an empty heap, with a journal of this length and this bound, if it is to have one, and its newcomers.
fn new_queue(
    alloc: Global,
    ids: &[u64],
    length: Length,
    bound: Option<u64>,
    has_tickets: bool,
) -> Result<(Queue<Heap, u64>, Vec<Newcomer>), QueueError>
    ensures ok { IfOk result (λ r. Opens ids.now (room_of length) r.0 r.1.items) }
    ensures terms { IfOk result (λ r. r.0.terms ≡ terms_with length bound) }
    ensures opens { OnOk result (OpenGrid ids.now × IsLength length) }
    ensures comers { (e : IdError) → (result ≡ Err (QueueError.Comers e)) ↔ IsFault ids.now e }
    ensures lines { (result ≡ Err QueueError.LinesOutOfRange) ↔ (OpenGrid ids.now × (¬ (IsLength length))) }
    ensures memory { result ≡ Err QueueError.NoMemory → OpenGrid ids.now × IsLength length }
{
    let heap = AnyHeap::new(alloc, has_tickets);
    Queue::limited(alloc, ids, heap, length, bound)
}

// Its pool.
fn new_pool(
    alloc: Global,
    ids: &[u64],
    length: Length,
    bound: Option<u64>,
    has_tickets: bool,
) -> Result<QueuePool, QueueError>
    ensures ok { IfOk result (IsOpened ids.now length bound) }
    ensures opens { OnOk result (OpenGrid ids.now × IsLength length) }
    ensures comers { (e : IdError) → (result ≡ Err (QueueError.Comers e)) ↔ IsFault ids.now e }
    ensures lines { (result ≡ Err QueueError.LinesOutOfRange) ↔ (OpenGrid ids.now × (¬ (IsLength length))) }
    ensures memory { result ≡ Err QueueError.NoMemory → OpenGrid ids.now × IsLength length }
{
    let (queue, newcomers) = new_queue(alloc, ids, length, bound, has_tickets)?;
    let Ok(queue) = Arc::new(alloc, queue) else {
        return Err(QueueError::NoMemory);
    };
    match Pool::of(alloc, queue, newcomers) {
        Ok(pool) => Ok(pool),
        Err(_) => Err(QueueError::NoMemory),
    }
}

// The ids of as many threads as a queue may have.
fn all_ids() -> [u64; MAX_COMERS]
    ensures { result ≡ ids_of MAX_COMERS }
{
    let mut ids = [0u64; MAX_COMERS];
    for k in 0..MAX_COMERS {
        ids[k] = k as u64 + 1;
    }
    ids
}

// The pool of a queue for so many threads, whose ids are 1 to their number.
fn pool_for(
    alloc: Global,
    threads: u32,
    length: Length,
    bound: Option<u64>,
    has_tickets: bool,
) -> Result<QueuePool, u32>
    ensures opened { IfOk result (Opening (ids_of threads) length bound) }
    ensures in_range { OnOk result (AreThreads threads × IsLength length) }
    ensures codes { IfErr result (λ code. IsOneOf code (OUT_OF_RANGE ∷ NO_MEMORY ∷ [])) }
    ensures range { IfErr result (λ code. code ≡ OUT_OF_RANGE → ¬ (AreThreads threads × IsLength length)) }
    ensures memory { IfErr result (λ code. code ≡ NO_MEMORY → AreThreads threads × IsLength length) }
{
    let count = threads as usize;
    if count == 0 || count > MAX_COMERS {
        return Err(OUT_OF_RANGE);
    }
    let ids = all_ids();
    match new_pool(alloc, &ids[..count], length, bound, has_tickets) {
        Ok(pool) => Ok(pool),
        Err(QueueError::LinesOutOfRange) => Err(OUT_OF_RANGE),
        Err(QueueError::NoMemory) => Err(NO_MEMORY),
        Err(QueueError::Comers(_)) => unreachable!(),
    }
}

// The same on the heap, where there is a journal of this length.
fn open_boxed(
    alloc: Global,
    threads: u32,
    length: Option<Length>,
    bound: Option<u64>,
    has_tickets: bool,
) -> Result<Box<Contents, Global>, u32>
    ensures opened { IfOk result (λ b. HoldsOpened threads length bound (Some b.value)) }
    ensures in_range { OnOk result (AreInRange threads length) }
    ensures codes { IfErr result (λ code. IsOneOf code (OUT_OF_RANGE ∷ NO_MEMORY ∷ [])) }
    ensures range { IfErr result (λ code. code ≡ OUT_OF_RANGE → ¬ (AreInRange threads length)) }
    ensures memory { IfErr result (λ code. code ≡ NO_MEMORY → AreInRange threads length) }
{
    let Some(length) = length else {
        return Err(OUT_OF_RANGE);
    };
    match pool_for(alloc, threads, length, bound, has_tickets) {
        Ok(pool) => boxed(alloc, Contents::Queue(pool)),
        Err(code) => Err(code),
    }
}

/// Opens a queue of `threads` places for members, 1 to 64, over an array heap. How long its journal is, and what memory keeps of
/// it, two numbers say. Where `keeping` is 0 the journal lasts for years, and memory keeps its last `entries` lines, 16 to
/// 16,777,216. Where it is 1 it is so, and the queue refuses each request that would have memory forget a line before it is
/// archived, until an archive goes on. Where it is 2 the journal fills, with `entries` lines, 1 to 1,048,576. Unless `most` is
/// 0 the queue refuses each push while it has `most` items. By a refusal of these a request is answered under the lock. Unless
/// `tickets` is 0 the store keeps the places of tickets, so that a removal takes no longer than a pop.
/// Refusals, which leave the handle as it was: 42 where it isn't empty, 5 where a number is out of its range, 6 no memory.
#[unsafe(no_mangle)]
#[tactic(auto, unfolding(pq_book::specs::Pages::long_page, pq_book::specs::Pages::shortage))]
pub extern "C" fn pq_core_open(
    alloc: Global,
    threads: u32,
    keeping: u32,
    entries: u32,
    most: u64,
    tickets: u32,
    queue: &mut Handle,
) -> u32
    ensures answers { OpenAnswers threads (length_of keeping entries) (bound_of most) queue.old.value result queue.new.value }
    ensures kept { result ≡ OK → keeping < 2 → page_of (room_keeping entries) ≡ entries }
{
    if !queue.is_empty() {
        return NO_HANDLE;
    }
    let length = length_of(keeping, entries);
    match open_boxed(alloc, threads, length, bound_of(most), tickets != 0) {
        Ok(held) => {
            queue.put(held);
            OK
        }
        Err(code) => code,
    }
}
