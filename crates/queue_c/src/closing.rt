// How a C program closes a queue.
ghost use Rattle.std.specs.Prelude.{◌≡◌, ◌≢◌, ◌↔◌, ◌⊎◌, ◌∷◌, [], map, Some, None, IfOk, IfErr, IsSome};
ghost use Rattle.pq_types.specs.Entry.{item_of};
ghost use Rattle.pq_book.specs.Parts.{AreParts};
ghost use Rattle.queue_pool.specs.StillOpen.{IsStillOpen};
ghost use Rattle.queue_c.specs.Handles.{queue_in, journal_in};
ghost use Rattle.queue_c.specs.Values.{IsClosed};
ghost use Rattle.queue_c.specs.Calls.{IsOneOf, HasOut, HasAllIn, Closing};
ghost use Rattle.queue_c.specs.declared.contents.Contents.TheVariants.{Queue};
ghost use Rattle.queue_c.specs.declared.codes.TheConstants.{MEMBERS_LEFT, NO_HANDLE, OK, UNKNOWN};

use crate::codes::{MEMBERS_LEFT, NO_HANDLE, OK, UNKNOWN};
use crate::contents::{CallResult, Contents, Heap, QueuePool};
use crate::handle::Handle;
use crate::journal::Journal;
use crate::place::set;
use pq_book::Book;
use queue_pool::StillOpen;
use std::alloc::Global;
use std::mem;

// What a Book leaves.
fn left_of(book: Book<Heap, Global, u64>) -> Journal
    ensures { (before : _) × (lines : _) × (content : _) × AreParts book content before lines
        × (result ≡ record { before = before; lines = lines; items = map item_of content }) }
{
    let (store, before, lines) = Book::take_parts(&mut Some(book));
    Journal::of(store, before, lines)
}

// What is left of a queue that is closed with all its members.
fn what_is_left(pool: QueuePool) -> Result<Journal, StillOpen<Heap, u64>>
    ensures ok { IfOk result (λ told. IsClosed pool told.before told.lines told.items) }
    ensures err { IfErr result (IsStillOpen pool) }
{
    match pool.close() {
        Ok(book) => Ok(left_of(book)),
        Err(open) => Err(open),
    }
}

// Closes the queue, whose members are all inside: what is closed, or else the queue.
fn close_whole(pool: QueuePool) -> CallResult
    ensures closed { result.code ≡ OK → Closing (Some pool) (journal_in (Some result.held)) }
    ensures kept { result.code ≢ OK → result.held ≡ Queue pool }
    ensures codes { IsOneOf result.code (OK ∷ UNKNOWN ∷ []) }
{
    match what_is_left(pool) {
        Ok(told) => CallResult {
            code: OK,
            held: Contents::Journal(told),
        },
        Err(StillOpen::Missing(pool) | StillOpen::Shared(pool)) => CallResult {
            code: UNKNOWN,
            held: Contents::Queue(pool),
        },
    }
}

// The same, where none is out.
fn close_queue(pool: QueuePool) -> CallResult
    ensures closed { result.code ≡ OK → Closing (Some pool) (journal_in (Some result.held)) }
    ensures kept { result.code ≢ OK → result.held ≡ Queue pool }
    ensures codes { IsOneOf result.code (OK ∷ MEMBERS_LEFT ∷ UNKNOWN ∷ []) }
    ensures members_left { (result.code ≡ MEMBERS_LEFT) ↔ HasOut (Some pool) }
    ensures strange { result.code ≡ UNKNOWN → HasAllIn (Some pool) }
{
    if pool.out() > 0 {
        return CallResult {
            code: MEMBERS_LEFT,
            held: Contents::Queue(pool),
        };
    }
    close_whole(pool)
}

// The same, of what is held.
fn close(held: &mut Contents) -> u32
    ensures closed { result ≡ OK → Closing (queue_in (Some held.old)) (journal_in (Some held.new)) }
    ensures kept { result ≢ OK → held.new ≡ held.old }
    ensures codes { IsOneOf result (OK ∷ MEMBERS_LEFT ∷ NO_HANDLE ∷ UNKNOWN ∷ []) }
    ensures no_queue { (result ≡ NO_HANDLE) ↔ (queue_in (Some held.old) ≡ None) }
    ensures members_left { (result ≡ MEMBERS_LEFT) ↔ HasOut (queue_in (Some held.old)) }
    ensures strange { result ≡ UNKNOWN → HasAllIn (queue_in (Some held.old)) }
{
    let CallResult { code, held: after } = match mem::replace(held, Contents::Vacant) {
        Contents::Queue(pool) => close_queue(pool),
        other => {
            set(held, other);
            return NO_HANDLE;
        }
    };
    set(held, after);
    code
}

/// Closes the queue, whose members are all inside, and gives its journal: it has exactly the calls of each idle member, and no
/// entry of another place. Refusals, which leave both handles as they were: 42 where the first holds no queue or the second
/// isn't empty; else 40 exactly where members are out; 45 where none is, and another shares the queue, or it has comers that were
/// never inside: no call for C lets that be.
#[unsafe(no_mangle)]
pub extern "C" fn pq_core_close(alloc: Global, queue: &mut Handle, journal: &mut Handle) -> u32
    ensures closed { result ≡ OK → Closing (queue_in queue.old.value) (journal_in journal.new.value) }
    ensures was_empty { result ≡ OK → journal.old.value ≡ None }
    ensures empty { result ≡ OK → queue.new.value ≡ None }
    ensures refused { result ≢ OK → journal.new.value ≡ journal.old.value }
    ensures kept { result ≢ OK → queue.new.value ≡ queue.old.value }
    ensures codes { IsOneOf result (OK ∷ MEMBERS_LEFT ∷ NO_HANDLE ∷ UNKNOWN ∷ []) }
    ensures no_handle { (result ≡ NO_HANDLE) ↔ (IsSome journal.old.value ⊎ (queue_in queue.old.value ≡ None)) }
    ensures members_left { (result ≡ MEMBERS_LEFT) ↔ ((journal.old.value ≡ None) × HasOut (queue_in queue.old.value)) }
    ensures strange { result ≡ UNKNOWN → HasAllIn (queue_in queue.old.value) }
{
    let Some(mut held) = queue.take_for(alloc, journal) else {
        return NO_HANDLE;
    };
    let code = close(&mut held);
    put_closed(code, held, queue, journal);
    code
}

/// Puts what a closing of this code has left in place of a queue into the one of two empty handles that is to have it.
pub fn put_closed(code: u32, left: Box<Contents, Global>, queue: &mut Handle, journal: &mut Handle)
    requires empty { (queue.old.value ≡ None) × (journal.old.value ≡ None) }
    ensures closed { code ≡ OK → (queue.new.value ≡ None) × (journal.new.value ≡ Some left.value) }
    ensures kept { code ≢ OK → queue.new.value ≡ Some left.value }
    ensures refused { code ≢ OK → journal.new.value ≡ None }
{
    if code == OK {
        journal.put(left);
    } else {
        queue.put(left);
    }
}
