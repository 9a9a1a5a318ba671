// How a C program takes an item, or pushes one, that it may wait for: a list under the queue's lock has those who wait, and their
// caller sleeps.
ghost use Rattle.std.specs.Prelude.{◌≡◌, ◌≢◌, ◌<◌, Some, IfSome};
ghost use Rattle.pq_types.specs.Item.{item};
ghost use Rattle.queue_c.specs.WaitSteps.{number_of, patience_of, wait_of, room_wait};
ghost use Rattle.queue_c.specs.WaitSteps.{TakeOrWaitAnswers, PushOrWaitAnswers, LeaveAnswers, WakesAnswers};
ghost use Rattle.queue_c.specs.declared.codes.TheConstants.{ENTERED, OK, WATCHES};

use crate::calls::owes_wake;
use crate::codes::{ENTERED, LOCK_HELD, NO_HANDLE, OK, POSTS_SPENT, UNKNOWN, WAITS, WATCHES};
use crate::contents::Contents;
use crate::handle::Handle;
use crate::looking::told_as;
use crate::plain::{PlainAnswer, tell_answer};
use flat_queue::{Entry, Patience, PushedOr, RoomWait, Wanted};
use pq_types::{Answer, Item, Refusal};
use queue_pool::Undone;
use std::alloc::Global;

// One that waits has a number below this.
const NUMBERS: u32 = 64;

// The number of one that waits, where it is one.
fn number_of(number: u32) -> Option<u8>
    ensures number { result ≡ number_of number }
    ensures below { IfSome result (λ n. n < 64) }
{
    if number < NUMBERS {
        Some(number as u8)
    } else {
        None
    }
}

// How one waits that says this, where there is such a way: 0 not at all, 1 for any item, 2 for what is due, 3 as a listener up to
// this priority, 4 for what is due by an alarm.
fn patience_of(wants: u32, priority: u64) -> Option<Patience>
    ensures { result ≡ patience_of wants priority }
{
    match wants {
        0 => Some(Patience::Leaves),
        1 => Some(Patience::Any),
        2 => Some(Patience::Due),
        3 => Some(Patience::UpTo(priority)),
        4 => Some(Patience::Alarm),
        _ => None,
    }
}

// The number and the way of one that waits so, if there are such.
fn wait_of(number: u32, wants: u32, priority: u64) -> Option<(u8, Patience)>
    ensures wait { result ≡ wait_of number wants priority }
    ensures below { IfSome result (λ wait. wait.0 < 64) }
{
    match (number_of(number), patience_of(wants, priority)) {
        (Some(number), Some(patience)) => Some((number, patience)),
        _ => None,
    }
}

// How a push waits for room: as a thread, or as a listener.
fn room_wait(listens: u32) -> RoomWait
    ensures { result ≡ room_wait listens }
{
    match listens {
        0 => RoomWait::Sleeps,
        _ => RoomWait::Listens,
    }
}

// Takes the first item out up to this priority, or has this number wait, and tells what it looked at.
fn take_or_wait(
    held: &mut Contents,
    number: u32,
    priority: u64,
    wants: u32,
    answer: &mut PlainAnswer,
) -> u32
    ensures answers { TakeOrWaitAnswers (Some held.old) priority (wait_of number wants priority)
        result answer.new (Some held.new) }
    ensures untold { result ≢ OK → result ≢ ENTERED → result ≢ WATCHES → answer.new ≡ answer.old }
{
    let Contents::Member(member, _) = held else {
        return NO_HANDLE;
    };
    let Some((number, patience)) = wait_of(number, wants, priority) else {
        return UNKNOWN;
    };
    match member.take_or_wait(number, Wanted::UpTo(priority), patience) {
        Ok((seen, entry)) => {
            *answer = tell_answer(&told_as(seen), owes_wake(member));
            match entry {
                Entry::Out => OK,
                Entry::Waits => ENTERED,
                Entry::Watches => WATCHES,
            }
        }
        Err(Undone::Waits) => WAITS,
        Err(Undone::Spent) => POSTS_SPENT,
        Err(_) => LOCK_HELD,
    }
}

/// Takes whoever waits under this number, below 64, out of the list, and the first item out of the queue where its priority is at
/// most this one; where it takes none, has this number wait again, at once where no other member leads, without a post. 0: nobody
/// waits under this number, and the answer is told as by `pq_core_try_pop_or_look`; 15: it waits, and may sleep until its number
/// is handed out by `pq_core_take_wakes`; 16: so it does, but comes back by itself when the first item is due, or has its alarm
/// ring then. It waits for `wants`: 0 not at all, 1 any item, 2 what is due, 3 an item up to this priority, as a listener, 4 what
/// is due, by an alarm. 8 where another member led, and then nothing was done. Refusals, which do nothing: 42 where the handle
/// holds no member, 45 where there is no such number or `wants`, 43 where the last request is not answered yet, 11 where all
/// posts are spent. Takes memory for the pushes of others alone.
#[unsafe(no_mangle)]
pub extern "C" fn pq_core_take_or_wait(
    alloc: Global,
    member: &mut Handle,
    number: u32,
    priority: u64,
    wants: u32,
    answer: &mut PlainAnswer,
) -> u32
    ensures answers { TakeOrWaitAnswers member.old.value priority (wait_of number wants priority)
        result answer.new member.new.value }
    ensures untold { result ≢ OK → result ≢ ENTERED → result ≢ WATCHES → answer.new ≡ answer.old }
{
    let Some(mut held) = member.take(alloc) else {
        return NO_HANDLE;
    };
    let code = take_or_wait(&mut held, number, priority, wants, answer);
    member.put(held);
    code
}

// Pushes this item, or has this number wait for room, and tells the answer: that the queue is full, where it waits.
fn push_or_wait(
    held: &mut Contents,
    number: u32,
    item: Item<u64>,
    listens: u32,
    answer: &mut PlainAnswer,
) -> u32
    ensures answers { PushOrWaitAnswers (Some held.old) (number_of number) item (room_wait listens)
        result answer.new (Some held.new) }
    ensures untold { result ≢ OK → result ≢ ENTERED → answer.new ≡ answer.old }
{
    let Contents::Member(member, _) = held else {
        return NO_HANDLE;
    };
    let Some(number) = number_of(number) else {
        return UNKNOWN;
    };
    match member.push_or_wait(number, item, room_wait(listens)) {
        Ok(PushedOr::Answered(told)) => {
            *answer = tell_answer(&told, owes_wake(member));
            OK
        }
        Ok(PushedOr::Waits) => {
            *answer = tell_answer(&Answer::Refused(Refusal::Full.padded()), owes_wake(member));
            ENTERED
        }
        Err(Undone::Waits) => WAITS,
        Err(Undone::Spent) => POSTS_SPENT,
        Err(_) => LOCK_HELD,
    }
}

/// The same of a push, which waits for room where the queue has as many items as its bound: by `listens` 0 as a thread, else as a
/// listener. 0: nobody waits under this number, and the answer is told, which is never of kind 8; 15: it waits, and the answer is
/// of kind 8. Codes, and what they mean of the call, as of `pq_core_take_or_wait`. Takes memory where the store has to grow.
#[unsafe(no_mangle)]
pub extern "C" fn pq_core_push_or_wait(
    alloc: Global,
    member: &mut Handle,
    number: u32,
    priority: u64,
    value: u64,
    listens: u32,
    answer: &mut PlainAnswer,
) -> u32
    ensures answers { PushOrWaitAnswers member.old.value (number_of number) (item priority value) (room_wait listens)
        result answer.new member.new.value }
    ensures untold { result ≢ OK → result ≢ ENTERED → answer.new ≡ answer.old }
{
    let Some(mut held) = member.take(alloc) else {
        return NO_HANDLE;
    };
    let code = push_or_wait(&mut held, number, Item { priority, value }, listens, answer);
    member.put(held);
    code
}

// Takes those who wait under these numbers out of the list.
fn leave(held: &mut Contents, numbers: u64) -> u32
    ensures answers { LeaveAnswers (Some held.old) numbers result (Some held.new) }
{
    let Contents::Member(member, _) = held else {
        return NO_HANDLE;
    };
    if member.leave(numbers) { OK } else { LOCK_HELD }
}

/// Takes those who wait under these numbers, the bits of a mask, out of the list, at once where no other member leads, and serves
/// nobody: 0; 8 where another member led, and then nothing was done; 42 where the handle holds no member. Takes no memory.
#[unsafe(no_mangle)]
pub extern "C" fn pq_core_leave(alloc: Global, member: &mut Handle, numbers: u64) -> u32
    ensures answers { LeaveAnswers member.old.value numbers result member.new.value }
{
    let Some(mut held) = member.take(alloc) else {
        return NO_HANDLE;
    };
    let code = leave(&mut held, numbers);
    member.put(held);
    code
}

// Hands out whom the calls of the member have woken.
fn take_wakes(held: &mut Contents) -> u64
    ensures { WakesAnswers (Some held.old) result (Some held.new) }
{
    let Contents::Member(member, _) = held else {
        return 0;
    };
    member.take_wakes()
}

/// Hands out the numbers of those whom the calls of this member have woken since it was called last, as the bits of a mask: the
/// caller wakes them. 0 where the handle holds no member. It is called behind each call that may have carried a request out.
#[unsafe(no_mangle)]
pub extern "C" fn pq_core_take_wakes(alloc: Global, member: &mut Handle) -> u64
    ensures { WakesAnswers member.old.value result member.new.value }
{
    let Some(mut held) = member.take(alloc) else {
        return 0;
    };
    let wakes = take_wakes(&mut held);
    member.put(held);
    wakes
}
