// How a C program keeps an archive of a journal.
ghost use Rattle.std.specs.Prelude.{ℕ, ◌≡◌, ◌≢◌, ◌↔◌, ◌⊎◌, ◌∷◌, [], Some, None, Ok, IfOk, IfErr, IsSome};
ghost use Rattle.queue_c.specs.Handles.{member_in, owner_in};
ghost use Rattle.queue_c.specs.Copies.{Copies};
ghost use Rattle.queue_c.specs.Calls.{IsOneOf, Archiving, Copying, Exceeding, Forgetting, Lacking, Missing};
ghost use Rattle.queue_c.specs.declared.codes.TheConstants.{FORGOTTEN, LOCK_HELD, NO_HANDLE, NO_MEMORY, OK, OUT_OF_RANGE};

use crate::codes::{FORGOTTEN, LOCK_HELD, NO_HANDLE, NO_MEMORY, OK, OUT_OF_RANGE};
use crate::contents::{Contents, QueueMember};
use crate::handle::Handle;
use crate::journal::Journal;
use crate::place::{boxed, put};
use flat_queue::ArchiveError;
use pq_types::{Item, Line};
use std::alloc::Global;

// Brings an empty archive of the member's journal up to date from so many lines on, and answers the code.
fn bring_up_to_date(member: &mut QueueMember, archived: u64, lines: &mut Vec<Line<u64>>) -> u32
    requires empty { lines.old.items ≡ [] }
    ensures copied { result ≡ OK
        → (count : ℕ) × Archiving (Some member.old) archived lines.new.items (Ok count) (Some member.new) }
    ensures codes { IsOneOf result (OK ∷ NO_MEMORY ∷ LOCK_HELD ∷ FORGOTTEN ∷ OUT_OF_RANGE ∷ []) }
    ensures memory { result ≡ NO_MEMORY → Lacking (Some member.old) archived (Some member.new) }
    ensures misses { result ≡ LOCK_HELD → Missing (Some member.old) (Some member.new) }
    ensures forgotten { result ≡ FORGOTTEN → Forgetting (Some member.old) archived (Some member.new) }
    ensures ahead { result ≡ OUT_OF_RANGE → Exceeding (Some member.old) archived (Some member.new) }
{
    match member.archive(archived, lines) {
        None => LOCK_HELD,
        Some(Err(ArchiveError::Forgotten)) => FORGOTTEN,
        Some(Err(ArchiveError::NoMemory)) => NO_MEMORY,
        Some(Err(ArchiveError::Ahead)) => OUT_OF_RANGE,
        Some(Ok(_)) => OK,
    }
}

// The lines of the member's journal behind the first so many.
fn copy_lines(alloc: Global, member: &mut QueueMember, archived: u64) -> Result<Journal, u32>
    ensures copied { IfOk result (λ told. Copying (Some member.old) archived (Some told) (Some member.new)) }
    ensures codes { IfErr result (λ code. IsOneOf code (NO_MEMORY ∷ LOCK_HELD ∷ FORGOTTEN ∷ OUT_OF_RANGE ∷ [])) }
    ensures memory { IfErr result (λ code. code ≡ NO_MEMORY → Lacking (Some member.old) archived (Some member.new)) }
    ensures misses { IfErr result (λ code. code ≡ LOCK_HELD → Missing (Some member.old) (Some member.new)) }
    ensures forgotten { IfErr result (λ code. code ≡ FORGOTTEN → Forgetting (Some member.old) archived (Some member.new)) }
    ensures ahead { IfErr result (λ code. code ≡ OUT_OF_RANGE → Exceeding (Some member.old) archived (Some member.new)) }
{
    let mut lines = Vec::new(alloc);
    let code = bring_up_to_date(member, archived, &mut lines);
    if code != OK {
        return Err(code);
    }
    Ok(Journal::copied(alloc, archived, lines))
}

// The same, of what is held, on the heap. Memory for that is taken before the member leads.
fn archive(alloc: Global, held: &mut Contents, archived: u64) -> Result<Box<Contents, Global>, u32>
    ensures copied { IfOk result (λ b. Copies (Some held.old) archived (Some b.value) (Some held.new)) }
    ensures codes { IfErr result (λ code. IsOneOf code (NO_MEMORY ∷ LOCK_HELD ∷ NO_HANDLE ∷ FORGOTTEN ∷ OUT_OF_RANGE ∷ [])) }
    ensures memory { IfErr result (λ code. code ≡ NO_MEMORY
        → Lacking (member_in (Some held.old)) archived (member_in (Some held.new))) }
    ensures misses { IfErr result (λ code. code ≡ LOCK_HELD
        → Missing (member_in (Some held.old)) (member_in (Some held.new))) }
    ensures forgotten { IfErr result (λ code. code ≡ FORGOTTEN
        → Forgetting (member_in (Some held.old)) archived (member_in (Some held.new))) }
    ensures ahead { IfErr result (λ code. code ≡ OUT_OF_RANGE
        → Exceeding (member_in (Some held.old)) archived (member_in (Some held.new))) }
    ensures no_member { IfErr result (λ code. (code ≡ NO_HANDLE) ↔ (member_in (Some held.old) ≡ None)) }
    ensures refused { IfErr result (λ code. code ≡ NO_HANDLE → held.new ≡ held.old) }
    ensures owner { owner_in (Some held.new) ≡ owner_in (Some held.old) }
{
    let Contents::Member(member, _) = held else {
        return Err(NO_HANDLE);
    };
    match boxed(alloc, Contents::Vacant) {
        Ok(place) => match copy_lines(alloc, member, archived) {
            Ok(told) => Ok(put(place, Contents::Journal(told))),
            Err(code) => Err(code),
        },
        Err(code) => Err(code),
    }
}

/// Says that the first so many lines of the journal are archived, and copies those that come next: 0, and the second handle has
/// them. From then on the journal may have as many lines beyond the first ones as memory keeps, where the queue refuses what
/// would have memory forget others. Refusals, which leave that handle as it was: 42 where the first holds no member or the
/// second isn't empty, 8 where another member led, 5 where the journal has fewer lines than that, and then nothing was said, 49
/// where the first of these lines is no longer in memory, 6 no memory. Takes memory for the lines alone.
#[unsafe(no_mangle)]
pub extern "C" fn pq_core_archive(
    alloc: Global,
    member: &mut Handle,
    archived: u64,
    journal: &mut Handle,
) -> u32
    ensures copied { result ≡ OK → Copies member.old.value archived journal.new.value member.new.value }
    ensures was_empty { result ≡ OK → journal.old.value ≡ None }
    ensures codes { IsOneOf result (OK ∷ NO_MEMORY ∷ LOCK_HELD ∷ NO_HANDLE ∷ FORGOTTEN ∷ OUT_OF_RANGE ∷ []) }
    ensures memory { result ≡ NO_MEMORY → Lacking (member_in member.old.value) archived (member_in member.new.value) }
    ensures misses { result ≡ LOCK_HELD → Missing (member_in member.old.value) (member_in member.new.value) }
    ensures forgotten { result ≡ FORGOTTEN → Forgetting (member_in member.old.value) archived (member_in member.new.value) }
    ensures ahead { result ≡ OUT_OF_RANGE → Exceeding (member_in member.old.value) archived (member_in member.new.value) }
    ensures no_handle { (result ≡ NO_HANDLE) ↔ (IsSome journal.old.value ⊎ (member_in member.old.value ≡ None)) }
    ensures refused { result ≡ NO_HANDLE → member.new.value ≡ member.old.value }
    ensures untold { result ≢ OK → journal.new.value ≡ journal.old.value }
    ensures owner { owner_in member.new.value ≡ owner_in member.old.value }
{
    let Some(mut held) = member.take_for(alloc, journal) else {
        return NO_HANDLE;
    };
    let copied = archive(alloc, &mut held, archived);
    member.put(held);
    match copied {
        Ok(copied) => {
            journal.put(copied);
            OK
        }
        Err(code) => code,
    }
}
