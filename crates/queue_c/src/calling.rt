// How a C program makes a call: it tries to carry its request out, and where it has posted it, goes on in steps. Its caller rests
// between them.
ghost use Rattle.std.specs.Prelude.{◌≡◌, ◌≢◌, Ok, Some, IfSome};
ghost use Rattle.pq_types.specs.Item.{item};
ghost use Rattle.pq_types.specs.declared.answer.Answer.TheVariants.{Entered};
ghost use Rattle.pq_types.specs.declared.answer.Reply.TheVariants.{Pushed, Got};
ghost use Rattle.pq_types.specs.declared.request.Request.TheVariants.{Push, Pop};
ghost use Rattle.queue_c.specs.Calls.{SaysOwed};
ghost use Rattle.queue_c.specs.Plain.{plain_item};
ghost use Rattle.queue_c.specs.Calling.{IsTold, TryCallAnswers, StepAnswerAnswers};
ghost use Rattle.queue_c.specs.declared.codes.TheConstants.{OK, TOLD};

use crate::calls::owes_wake;
use crate::codes::{IDLE, LOCK_HELD, NO_HANDLE, OK, POSTS_SPENT, TOLD, WAITS};
use crate::contents::{Contents, QueueMember};
use crate::handle::Handle;
use crate::plain::{PlainAnswer, PlainItem, tell_answer, tell_item};
use pq_types::{Answer, Item, Reply, Request};
use queue_pool::Undone;
use std::alloc::Global;

// What a call comes to.
type Tried = Result<Answer<Item<u64>>, Undone>;

// The code of what a call came to, and its answer, if it has one.
#[cold]
#[inline(never)]
fn tell(member: &QueueMember, tried: Tried, answer: &mut PlainAnswer) -> u32
    ensures told { IsTold tried result answer.new }
    ensures owes { result ≡ TOLD → SaysOwed answer.new.owes_wake (Some member.now) }
    ensures untold { result ≢ TOLD → answer.new ≡ answer.old }
{
    match tried {
        Ok(found) => {
            *answer = tell_answer(&found, owes_wake(member));
            TOLD
        }
        Err(Undone::Waits) => WAITS,
        Err(Undone::Spent) => POSTS_SPENT,
        Err(_) => LOCK_HELD,
    }
}

// The same by a copy, so that a call leaves in registers what it came to where it needs none of this.
#[inline(always)]
fn tell_other(member: &QueueMember, tried: &Tried, answer: &mut PlainAnswer) -> u32
    ensures told { IsTold tried.now result answer.new }
    ensures owes { result ≡ TOLD → SaysOwed answer.new.owes_wake (Some member.now) }
    ensures untold { result ≢ TOLD → answer.new ≡ answer.old }
{
    let other = *tried;
    tell(member, other, answer)
}

// The line of a push that was entered.
#[inline(always)]
fn pushed(tried: &Tried) -> Option<u64>
    ensures { IfSome result (λ line. tried.now ≡ Ok (Entered line Pushed)) }
{
    if let Ok(Answer::Entered(line, Reply::Pushed)) = tried {
        return Some(*line);
    }
    None
}

// The line and the item of a pop that took one out.
#[inline(always)]
fn popped(tried: &Tried) -> Option<(u64, Item<u64>)>
    ensures { IfSome result (λ told. tried.now ≡ Ok (Entered told.0 (Got told.1))) }
{
    if let Ok(Answer::Entered(line, Reply::Got(item))) = tried {
        return Some((*line, *item));
    }
    None
}

#[inline(always)]
fn push(held: &mut Contents, item: Item<u64>, answer: &mut PlainAnswer) -> u32
    ensures answers { TryCallAnswers (Some held.old) (Push item) Pushed result answer.new (Some held.new) }
    ensures line { result ≡ OK → answer.new ≡ record answer.old { line = answer.new.line } }
    ensures untold { result ≢ OK → result ≢ TOLD → answer.new ≡ answer.old }
{
    let Contents::Member(member, _) = held else {
        return NO_HANDLE;
    };
    let tried = member.try_call(Request::Push(item));
    if let Some(line) = pushed(&tried) {
        if owes_wake(member) == 0 {
            answer.line = line;
            return OK;
        }
    }
    tell_other(member, &tried, answer)
}

#[inline(always)]
fn pop(held: &mut Contents, first: &mut PlainItem, answer: &mut PlainAnswer) -> u32
    ensures answers { TryCallAnswers (Some held.old) Pop (Got (plain_item first.new)) result answer.new (Some held.new) }
    ensures line { result ≡ OK → answer.new ≡ record answer.old { line = answer.new.line } }
    ensures untold { result ≢ OK → result ≢ TOLD → answer.new ≡ answer.old }
    ensures first { result ≢ OK → first.new ≡ first.old }
{
    let Contents::Member(member, _) = held else {
        return NO_HANDLE;
    };
    let tried = member.try_call(Request::Pop);
    if let Some((line, item)) = popped(&tried) {
        if owes_wake(member) == 0 {
            *first = tell_item(&item);
            answer.line = line;
            return OK;
        }
    }
    tell_other(member, &tried, answer)
}

/// A push of this item, carried out where no other member leads, without a post: 0 where it is entered, and no wake is owed behind
/// it, and then the line of the answer is told alone; 14 where the whole answer is told, and by that whether a wake is owed; 8 where
/// another member led, and then nothing was done. Refusals, which do nothing: 42 where the handle holds no member, 43 where the last
/// request is not answered yet, 11 where all posts are spent. Takes memory where the store has to grow.
#[unsafe(no_mangle)]
pub extern "C" fn pq_core_try_push(
    alloc: Global,
    member: &mut Handle,
    priority: u64,
    value: u64,
    answer: &mut PlainAnswer,
) -> u32
    ensures answers { TryCallAnswers member.old.value (Push (item priority value)) Pushed result answer.new member.new.value }
    ensures line { result ≡ OK → answer.new ≡ record answer.old { line = answer.new.line } }
    ensures untold { result ≢ OK → result ≢ TOLD → answer.new ≡ answer.old }
{
    let Some(mut held) = member.take(alloc) else {
        return NO_HANDLE;
    };
    let code = push(&mut held, Item { priority, value }, answer);
    member.put(held);
    code
}

/// A pop, as `pq_core_try_push`: 0 where it took an item out, which is told. Takes memory for the pushes of others alone.
#[unsafe(no_mangle)]
pub extern "C" fn pq_core_try_pop(
    alloc: Global,
    member: &mut Handle,
    first: &mut PlainItem,
    answer: &mut PlainAnswer,
) -> u32
    ensures answers { TryCallAnswers member.old.value Pop (Got (plain_item first.new)) result answer.new member.new.value }
    ensures line { result ≡ OK → answer.new ≡ record answer.old { line = answer.new.line } }
    ensures untold { result ≢ OK → result ≢ TOLD → answer.new ≡ answer.old }
    ensures first { result ≢ OK → first.new ≡ first.old }
{
    let Some(mut held) = member.take(alloc) else {
        return NO_HANDLE;
    };
    let code = pop(&mut held, first, answer);
    member.put(held);
    code
}

// Looks for the answer to the request that was posted, and tells it; else tries a round.
fn step_answer(held: &mut Contents, answer: &mut PlainAnswer) -> u32
    ensures answers { StepAnswerAnswers (Some held.old) result answer.new (Some held.new) }
    ensures untold { result ≢ OK → answer.new ≡ answer.old }
{
    let Contents::Member(member, _) = held else {
        return NO_HANDLE;
    };
    match member.step_answer() {
        Ok(found) => {
            *answer = tell_answer(&found, 0);
            OK
        }
        Err(Undone::Idle) => IDLE,
        Err(Undone::LockHeld) => LOCK_HELD,
        Err(_) => WAITS,
    }
}

/// The next step of a call that has posted. It looks for the answer to the last request, and where there is none makes a round,
/// where no other member leads: 0 where the answer is told; 43 where it found none and made a round, behind which the next step
/// has the answer; 8 where it found none and another member led, and then it makes the next step soon; 44 where no request is
/// out, 42 where the handle holds no member. Behind a round it may owe a wake. Takes memory for the pushes of others alone.
#[unsafe(no_mangle)]
pub extern "C" fn pq_core_step_answer(
    alloc: Global,
    member: &mut Handle,
    answer: &mut PlainAnswer,
) -> u32
    ensures answers { StepAnswerAnswers member.old.value result answer.new member.new.value }
    ensures untold { result ≢ OK → answer.new ≡ answer.old }
{
    let Some(mut held) = member.take(alloc) else {
        return NO_HANDLE;
    };
    let code = step_answer(&mut held, answer);
    member.put(held);
    code
}
