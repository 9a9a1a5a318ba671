// How a C program gives a member back to the queue.
ghost use Rattle.std.specs.Prelude.{◌≡◌, ◌≢◌, ◌<◌, ◌↔◌, ◌⊎◌, ◌∷◌, [], Some, None};
ghost use Rattle.queue_c.specs.Handles.{queue_in, member_in};
ghost use Rattle.queue_c.specs.Numbers.{NamesOne, CarriesAnother};
ghost use Rattle.queue_c.specs.Calls.{IsOneOf, Returning};
ghost use Rattle.queue_c.specs.declared.contents.Contents.TheVariants.{Member};
ghost use Rattle.queue_c.specs.declared.codes.TheConstants.{NO_HANDLE, OK, UNKNOWN};

use crate::codes::{NO_HANDLE, OK, UNKNOWN};
use crate::contents::{CallResult, Contents, QueueMember, QueuePool};
use crate::handle::Handle;
use crate::place::set;
use std::alloc::Global;
use std::mem;

// Puts the member of the queue of this number into its pool: nothing, or else the member, where none of them is out.
fn give_back_member(opened: &mut QueuePool, member: QueueMember, number: u64) -> CallResult
    requires queue { member.queue ≡ opened.old.queue }
    ensures returned { result.code ≡ OK → Returning (Some opened.old) (Some member) (Some opened.new) }
    ensures refused { result.code ≢ OK → (opened.new ≡ opened.old) × (result.held ≡ Member member number) }
    ensures codes { IsOneOf result.code (OK ∷ UNKNOWN ∷ []) }
{
    if opened.out() == 0 {
        return CallResult {
            code: UNKNOWN,
            held: Contents::Member(member, number),
        };
    }
    opened.give_back(member);
    CallResult {
        code: OK,
        held: Contents::Vacant,
    }
}

// The same of what is held, where the member carries this number. What held it is vacant then.
fn give_back_held(held: &mut Contents, number: u64, returned: &mut Contents) -> u32
    requires number_names_one_queue { NamesOne (Some held.old) number (Some returned.old) }
    ensures returned { result ≡ OK
        → Returning (queue_in (Some held.old)) (member_in (Some returned.old)) (queue_in (Some held.new)) }
    ensures refused { result ≢ OK → (held.new ≡ held.old) × (returned.new ≡ returned.old) }
    ensures of_another { CarriesAnother (Some held.old) number (Some returned.old) → result ≡ UNKNOWN }
    ensures codes { IsOneOf result (OK ∷ NO_HANDLE ∷ UNKNOWN ∷ []) }
    ensures no_handle { (result ≡ NO_HANDLE)
        ↔ ((queue_in (Some held.old) ≡ None) ⊎ (member_in (Some returned.old) ≡ None)) }
{
    let Contents::Queue(opened) = held else {
        return NO_HANDLE;
    };
    let CallResult { code, held: after } = match mem::replace(returned, Contents::Vacant) {
        Contents::Member(member, owner) => {
            if owner != number {
                CallResult {
                    code: UNKNOWN,
                    held: Contents::Member(member, owner),
                }
            } else {
                give_back_member(opened, member, number)
            }
        }
        other => CallResult {
            code: NO_HANDLE,
            held: other,
        },
    };
    set(returned, after);
    code
}

/// Gives the member back to its queue, for a later `pq_core_join` to hand out: with a request out as well, whose
/// answer it is asked for then. The second handle is empty afterwards. Refusals, which leave both handles as they
/// were: 42 where the first holds no queue or the second no member, 45 where the member joined under another number,
/// as one of another queue did. Each queue has to have a number of its own. Takes no memory.
#[unsafe(no_mangle)]
pub extern "C" fn pq_core_give_back(
    alloc: Global,
    queue: &mut Handle,
    member: &mut Handle,
    number: u64,
) -> u32
    requires number_names_one_queue { NamesOne queue.old.value number member.old.value }
    ensures returned { result ≡ OK
        → Returning (queue_in queue.old.value) (member_in member.old.value)
        (queue_in queue.new.value) }
    ensures empty { result ≡ OK → member.new.value ≡ None }
    ensures refused { result ≢ OK → (queue.new.value ≡ queue.old.value) × (member.new.value ≡ member.old.value) }
    ensures of_another { CarriesAnother queue.old.value number member.old.value → result ≡ UNKNOWN }
    ensures codes { IsOneOf result (OK ∷ NO_HANDLE ∷ UNKNOWN ∷ []) }
    ensures no_handle { (result ≡ NO_HANDLE)
        ↔ ((queue_in queue.old.value ≡ None) ⊎ (member_in member.old.value ≡ None)) }
{
    let Some(mut held) = queue.take(alloc) else {
        return NO_HANDLE;
    };
    let Some(mut returned) = member.take(alloc) else {
        queue.put(held);
        return NO_HANDLE;
    };
    let code = give_back_held(&mut held, number, &mut returned);
    queue.put(held);
    if code != OK {
        member.put(returned);
    }
    code
}
