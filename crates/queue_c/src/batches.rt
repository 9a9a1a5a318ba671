// How a C program puts many items into the queue under one lock, or takes many out.
ghost use Rattle.std.specs.Prelude.{◌≡◌, ◌≢◌, ◌≤◌, min, map, length, Some};
ghost use Rattle.queue_pool.specs.Shared.{TriesPushesBy, TriesPopsBy};
ghost use Rattle.queue_c.specs.Calls.{words_of_item};
ghost use Rattle.queue_c.specs.Plain.{plain_item};
ghost use Rattle.queue_c.specs.Batches.{GivesOutTried, PushManyAnswers, PopManyAnswers};
ghost use Rattle.queue_c.specs.declared.buffers.TheConstants.{MOST_MANY};
ghost use Rattle.queue_c.specs.declared.codes.TheConstants.{OK};

use crate::buffers::{MOST_MANY, first_of, hand_out, take_in};
use crate::calls::owes_wake;
use crate::codes::{LOCK_HELD, NO_HANDLE, OK, WAITS};
use crate::contents::{Contents, QueueMember};
use crate::handle::Handle;
use crate::plain::{PlainItem, no_item};
use crate::plain_batch::{PlainBatch, PlainPopped, tell_batch, tell_popped};
use flat_queue::{Batch, Popped};
use pq_types::Item;
use queue_pool::Undone;
use std::alloc::Global;

// Puts these items into the member's queue, from copies of its own.
fn push_all(member: &mut QueueMember, items: &[PlainItem]) -> Result<Batch, Undone>
    requires few { length items.now ≤ MOST_MANY }
    ensures tries { TriesPushesBy words_of_item member.old (map plain_item items.now) result member.new }
{
    let mut slots = [no_item(); MOST_MANY];
    let copies = &mut slots[..items.len()];
    take_in(items, copies);
    member.try_push_all(copies)
}

// Puts the first items into the queue, no more than one call takes in, and tells what the batch came to.
fn try_push_many(held: &mut Contents, items: &[PlainItem], told: &mut PlainBatch) -> u32
    ensures answers { PushManyAnswers items.now (Some held.old) result told.new (Some held.new) }
    ensures untold { result ≢ OK → told.new ≡ told.old }
{
    let Contents::Member(member, _) = held else {
        return NO_HANDLE;
    };
    match push_all(member, first_of(items)) {
        Ok(batch) => {
            *told = tell_batch(&batch, owes_wake(member));
            OK
        }
        Err(Undone::Waits) => WAITS,
        Err(_) => LOCK_HELD,
    }
}

/// Puts the first of `items` into the queue under one lock, 64 at most, at once where no other member leads, without a post: 0,
/// and it is told how many were entered, the number of the first one's journal line, behind which the others stand in the order
/// of the items, and what refused the next, if something did: 9 no memory, 10 the journal is full, 11 all serials are spent, 51
/// to 53 the queue's rules, as kinds 6 to 8 of an answer; and whether a wake is owed. 8 where another member led, and then
/// nothing was done. Refusals, which do nothing: 42 where the handle holds no member, 43 where the last request is not answered
/// yet. The pointer must not be null, where `count` is 0 neither.
#[unsafe(no_mangle)]
pub extern "C" fn pq_core_try_push_many(
    alloc: Global,
    member: &mut Handle,
    items: &[PlainItem],
    told: &mut PlainBatch,
) -> u32
    ensures answers { PushManyAnswers items.now member.old.value result told.new member.new.value }
    ensures untold { result ≢ OK → told.new ≡ told.old }
{
    let Some(mut held) = member.take(alloc) else {
        return NO_HANDLE;
    };
    let code = try_push_many(&mut held, items, told);
    member.put(held);
    code
}

// Takes the first items out of the member's queue up to this bound, and hands out copies of them.
fn pop_all(
    member: &mut QueueMember,
    bound: u64,
    items: &mut [PlainItem],
) -> Result<Popped<Item<u64>>, Undone>
    ensures tries { (slots : _) × (length slots ≡ min MOST_MANY (length items.old))
        × TriesPopsBy words_of_item bound member.old slots result member.new
        × GivesOutTried slots result items.old items.new }
{
    let mut slots = [no_item(); MOST_MANY];
    let copies = &mut slots[..MOST_MANY.min(items.len())];
    let tried = member.try_pop_all_up_to(bound, copies);
    if let Ok(popped) = &tried {
        hand_out(copies, popped.batch.done, items);
    }
    tried
}

// Takes the first items out of the queue up to this bound, into the buffer, and tells what the batch came to.
fn try_pop_many(
    held: &mut Contents,
    bound: u64,
    items: &mut [PlainItem],
    told: &mut PlainPopped,
) -> u32
    ensures answers { PopManyAnswers bound items.old items.new (Some held.old) result told.new (Some held.new) }
    ensures untold { result ≢ OK → (told.new ≡ told.old) × (items.new ≡ items.old) }
{
    let Contents::Member(member, _) = held else {
        return NO_HANDLE;
    };
    match pop_all(member, bound, items) {
        Ok(popped) => {
            *told = tell_popped(&popped, owes_wake(member));
            OK
        }
        Err(Undone::Waits) => WAITS,
        Err(_) => LOCK_HELD,
    }
}

/// Takes the first items out under one lock while their priorities are at most `bound`, 64 at most, and no more than the buffer
/// at `items` has room for, at once where no other member leads, without a post: 0, and the buffer has them, the first one first,
/// and behind them what it had; and it is told how many they are, the number of the first one's journal line, behind which the
/// others stand in their order, and what refused the next, if something did: 10 the journal is full, 11 all serials are spent, 52
/// memory would forget a line that is not archived; and whether a wake is owed; and the answer to a look after it: the first item
/// of those that stay, that none stays, or, of kind 6, that none stays and the queue is shut, or that the journal is full. What
/// stays has no line. 8 where another member led, and then nothing was done. Refusals, which do nothing: 42 where the handle holds no member, 43 where the last request is not answered
/// yet. Takes memory for the pushes of others alone. The
/// pointer must not be null, where the room is 0 neither.
#[unsafe(no_mangle)]
pub extern "C" fn pq_core_try_pop_many(
    alloc: Global,
    member: &mut Handle,
    bound: u64,
    items: &mut [PlainItem],
    told: &mut PlainPopped,
) -> u32
    ensures answers { PopManyAnswers bound items.old items.new member.old.value result told.new member.new.value }
    ensures untold { result ≢ OK → (told.new ≡ told.old) × (items.new ≡ items.old) }
{
    let Some(mut held) = member.take(alloc) else {
        return NO_HANDLE;
    };
    let code = try_pop_many(&mut held, bound, items, told);
    member.put(held);
    code
}
