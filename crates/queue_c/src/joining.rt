// How a C program makes a thread a member of its queue.
ghost use Rattle.std.specs.Prelude.{◌≡◌, ◌≢◌, ◌<◌, ◌↔◌, ◌⊎◌, ◌∷◌, [], Some, None, IfSome, IfOk, IfErr, IsSome};
ghost use Rattle.queue_pool.specs.Pool.{inside};
ghost use Rattle.queue_c.specs.Handles.{queue_in};
ghost use Rattle.queue_c.specs.Joining.{Joins};
ghost use Rattle.queue_c.specs.Calls.{IsOneOf, Joining, AllOut};
ghost use Rattle.queue_c.specs.declared.codes.TheConstants.{ALL_JOINED, NO_HANDLE, NO_MEMORY, OK};

use crate::codes::{ALL_JOINED, NO_HANDLE, NO_MEMORY, OK};
use crate::contents::{Contents, QueueMember, QueuePool};
use crate::handle::Handle;
use crate::place::{boxed, put};
use queue_pool::NotTaken;
use std::alloc::{Allocator, Global};

// A member out of the pool.
fn come_out(pool: &mut QueuePool) -> Result<QueueMember, u32>
    ensures joined { IfOk result (λ m. Joining (Some pool.old) (Some pool.new) (Some m)) }
    ensures refused { IfErr result (λ code. code ≢ ALL_JOINED → pool.new ≡ pool.old) }
    ensures codes { IfErr result (λ code. IsOneOf code (NO_MEMORY ∷ ALL_JOINED ∷ [])) }
    ensures all_out { IfErr result (λ code. code ≡ ALL_JOINED → AllOut (Some pool.old) (Some pool.new)) }
{
    match pool.take() {
        Ok(member) => Ok(member),
        Err(NotTaken::AllOut) => Err(ALL_JOINED),
        Err(NotTaken::TooMany) => Err(NO_MEMORY),
    }
}

// The same, of what is held: the member, which carries this number, on the heap. Memory is taken before it comes out, so that a
// refused one loses no comer.
fn join<A: Allocator>(alloc: A, held: &mut Contents, number: u64) -> Result<Box<Contents, A>, u32>
    ensures joined { IfOk result (λ b. Joins (Some held.old) number (Some held.new) (Some b.value)) }
    ensures refused { IfErr result (λ code. code ≢ ALL_JOINED → held.new ≡ held.old) }
    ensures codes { IfErr result (λ code. IsOneOf code (NO_MEMORY ∷ ALL_JOINED ∷ NO_HANDLE ∷ [])) }
    ensures no_queue { IfErr result (λ code. (code ≡ NO_HANDLE) ↔ (queue_in (Some held.old) ≡ None)) }
    ensures all_out { IfErr result (λ code. code ≡ ALL_JOINED → AllOut (queue_in (Some held.old)) (queue_in (Some held.new))) }
    ensures memory { IfErr result (λ code. code ≡ NO_MEMORY → IfSome (queue_in (Some held.old)) (λ o. 0 < inside o)) }
{
    let Contents::Queue(pool) = held else {
        return Err(NO_HANDLE);
    };
    if pool.inside() == 0 {
        return Err(ALL_JOINED);
    }
    match boxed(alloc, Contents::Vacant) {
        Ok(place) => match come_out(pool) {
            Ok(member) => Ok(put(place, Contents::Member(member, number))),
            Err(code) => Err(code),
        },
        Err(code) => Err(code),
    }
}

/// Makes the caller a member, which carries this number of the queue's: one that was given back, idle or answered
/// since, else the next comer, in the order of the ids, and else one that was given back waiting, by a round of its
/// own. Refusals, which leave the second handle as it was: 42 where the first holds no queue or the second isn't empty,
/// 6 no memory, and both leave the first as it was too; 41 where as many are out as there are ids, or wait still that
/// were given back so: these have looked in vain, and one of them has found the lock held. They may wait in another
/// order then.
#[unsafe(no_mangle)]
pub extern "C" fn pq_core_join(
    alloc: Global,
    queue: &mut Handle,
    member: &mut Handle,
    number: u64,
) -> u32
    ensures joined { result ≡ OK → Joins queue.old.value number queue.new.value member.new.value }
    ensures was_empty { result ≡ OK → member.old.value ≡ None }
    ensures refused { result ≢ OK → result ≢ ALL_JOINED → queue.new.value ≡ queue.old.value }
    ensures empty { result ≢ OK → member.new.value ≡ member.old.value }
    ensures codes { IsOneOf result (OK ∷ NO_MEMORY ∷ ALL_JOINED ∷ NO_HANDLE ∷ []) }
    ensures no_handle { (result ≡ NO_HANDLE) ↔ (IsSome member.old.value ⊎ (queue_in queue.old.value ≡ None)) }
    ensures all_out { result ≡ ALL_JOINED → AllOut (queue_in queue.old.value) (queue_in queue.new.value) }
    ensures memory { result ≡ NO_MEMORY → IfSome (queue_in queue.old.value) (λ o. 0 < inside o) }
{
    let Some(mut held) = queue.take_for(alloc, member) else {
        return NO_HANDLE;
    };
    let joined = join(alloc, &mut held, number);
    queue.put(held);
    match joined {
        Ok(joined) => {
            member.put(joined);
            OK
        }
        Err(code) => code,
    }
}
