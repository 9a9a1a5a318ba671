// What a C program does with a member.
ghost use Rattle.std.specs.Prelude.{◌≡◌, ◌≢◌, ◌<◌, Some, IfSome};
ghost use Rattle.std.specs.Option.{MatchOption};
ghost use Rattle.pq_types.specs.Item.{item};
ghost use Rattle.split_grid.specs.Opening.{places_of};
ghost use Rattle.queue_c.specs.Plain.{request_of};
ghost use Rattle.queue_c.specs.Handles.{member_in};
ghost use Rattle.queue_c.specs.Asking.{PostAnswers};
ghost use Rattle.queue_c.specs.declared.codes.TheConstants.{NO_HANDLE, OK};

use crate::codes::{NO_HANDLE, OK, POSTS_SPENT, UNKNOWN, WAITS};
use crate::contents::Contents;
use crate::handle::Handle;
use crate::plain::request_of;
use pq_types::Item;
use queue_pool::Undone;
use std::alloc::Global;

fn place(held: &Contents, place: &mut u32) -> u32
    ensures place { MatchOption (member_in (Some held.now)) (result ≡ NO_HANDLE) (λ m.
        (result ≡ OK) × (place.new ≡ m.pen.place)) }
    ensures within { IfSome (member_in (Some held.now)) (λ m. place.new < places_of m.queue.comers) }
    ensures untold { result ≢ OK → place.new ≡ place.old }
{
    let Contents::Member(member, _) = held else {
        return NO_HANDLE;
    };
    *place = u32::from(member.place());
    OK
}

/// Tells the place at which the member posts, as its journal lines have it, below n(n + 1)/2 for the
/// n ids of its queue; 42 where the handle holds no member.
#[unsafe(no_mangle)]
pub extern "C" fn pq_core_place(alloc: Global, member: &mut Handle, at: &mut u32) -> u32
    ensures place { MatchOption (member_in member.old.value) (result ≡ NO_HANDLE) (λ m.
        (result ≡ OK) × (at.new ≡ m.pen.place)) }
    ensures within { IfSome (member_in member.old.value) (λ m. at.new < places_of m.queue.comers) }
    ensures same { member.new.value ≡ member.old.value }
    ensures untold { result ≢ OK → at.new ≡ at.old }
{
    let Some(held) = member.take(alloc) else {
        return NO_HANDLE;
    };
    let code = place(&held, at);
    member.put(held);
    code
}

// Posts the request of this number, with this item where it is a push.
fn post(held: &mut Contents, number: u32, item: Item<u64>) -> u32
    ensures answers { PostAnswers (Some held.old) (request_of number item) result (Some held.new) }
{
    let Contents::Member(member, _) = held else {
        return NO_HANDLE;
    };
    let Some(request) = request_of(number, item) else {
        return UNKNOWN;
    };
    match member.post(request) {
        Ok(()) => OK,
        Err(Undone::Spent) => POSTS_SPENT,
        Err(_) => WAITS,
    }
}

/// Posts a request: 0 a push of this item, 1 a pop. Refusals, which post nothing: 42
/// where the handle holds no member, 45 where there is no such request, 43 where the last one is not
/// answered yet, 11 where all posts are spent. The queue's rules refuse it by its answer.
#[unsafe(no_mangle)]
pub extern "C" fn pq_core_post(
    alloc: Global,
    member: &mut Handle,
    request: u32,
    priority: u64,
    value: u64,
) -> u32
    ensures answers { PostAnswers member.old.value (request_of request (item priority value)) result member.new.value }
{
    let Some(mut held) = member.take(alloc) else {
        return NO_HANDLE;
    };
    let code = post(&mut held, request, Item { priority, value });
    member.put(held);
    code
}
