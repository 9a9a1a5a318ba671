// What a C program is told of a batch.
ghost use Rattle.std.specs.Prelude.{◌≡◌};
ghost use Rattle.queue_c.specs.Batches.{refusal_code, told_batch, told_popped};

use crate::looking::told_as;
use crate::plain::{PlainAnswer, tell_answer};
use flat_queue::{Batch, CallError, Popped};
use pq_types::Item;

/// What a batch came to: how many of its requests were entered, the first ones; the number of the first one's journal line, each
/// further one having the next; the code of the refusal that ended it, 9 to 11 or 51 to 53, or 0; and, by 1, that a wake is owed
/// behind it to one who waits for an item.
#[repr(C)]
#[derive(Clone, Copy)]
pub struct PlainBatch {
    pub done: u64,
    pub first: u64,
    pub refused: u32,
    pub owes_wake: u32,
}

/// What a batch of pops came to, and the answer to a look after it: the first item of those that stay, that none stays, or that the
/// journal is full.
#[repr(C)]
#[derive(Clone, Copy)]
pub struct PlainPopped {
    pub batch: PlainBatch,
    pub next: PlainAnswer,
}

// The code of the refusal that ended a batch, or 0.
fn refusal_code(refused: Option<CallError>) -> u32
    ensures { result ≡ refusal_code refused }
{
    match refused {
        None => 0,
        Some(error) => error.code(),
    }
}

/// The batch for C, with this word on whether a wake is owed.
pub fn tell_batch(batch: &Batch, owes_wake: u32) -> PlainBatch
    ensures { result ≡ told_batch owes_wake batch.now }
{
    PlainBatch {
        done: batch.done as u64,
        first: batch.first,
        refused: refusal_code(batch.refused),
        owes_wake,
    }
}

/// The batch of pops for C, with this word on whether a wake is owed.
pub fn tell_popped(popped: &Popped<Item<u64>>, owes_wake: u32) -> PlainPopped
    ensures { result ≡ told_popped owes_wake popped.now }
{
    PlainPopped {
        batch: tell_batch(&popped.batch, owes_wake),
        next: tell_answer(&told_as(popped.next), owes_wake),
    }
}
