// How a C program shuts a queue.
ghost use Rattle.std.specs.Prelude.{◌≡◌, ◌≢◌, Some};
ghost use Rattle.queue_c.specs.Shutting.{ShutAnswers};
ghost use Rattle.queue_c.specs.declared.codes.TheConstants.{OK};

use crate::calls::owes_wake;
use crate::codes::{LOCK_HELD, NO_HANDLE, OK, POSTS_SPENT, WAITS};
use crate::contents::Contents;
use crate::handle::Handle;
use crate::plain::{PlainAnswer, tell_answer};
use queue_pool::Undone;
use std::alloc::Global;

// Shuts the member's queue, and tells the answer.
fn try_shut(held: &mut Contents, answer: &mut PlainAnswer) -> u32
    ensures answers { ShutAnswers (Some held.old) result answer.new (Some held.new) }
    ensures untold { result ≢ OK → answer.new ≡ answer.old }
{
    let Contents::Member(member, _) = held else {
        return NO_HANDLE;
    };
    match member.try_shut() {
        Ok(told) => {
            *answer = tell_answer(&told, owes_wake(member));
            OK
        }
        Err(Undone::Waits) => WAITS,
        Err(Undone::Spent) => POSTS_SPENT,
        Err(_) => LOCK_HELD,
    }
}

/// Shuts the queue for good at once where no other member leads, without a post: 0, and the answer is told: of kind 3, with its
/// line, where the queue is shut now; of kind 6 exactly where it was shut; of kind 7 where its line would have memory forget one
/// that is not archived; of kind 4 where the journal is full; and whether a wake is owed behind it, to all who wait for an item; 8
/// where another member led, and then nothing was done. Refusals, which do nothing: 42 where the handle holds no member, 43 where the
/// last request is not answered yet, 11 where all posts are spent. Takes memory for the pushes of others alone.
#[unsafe(no_mangle)]
pub extern "C" fn pq_core_try_shut(
    alloc: Global,
    member: &mut Handle,
    answer: &mut PlainAnswer,
) -> u32
    ensures answers { ShutAnswers member.old.value result answer.new member.new.value }
    ensures untold { result ≢ OK → answer.new ≡ answer.old }
{
    let Some(mut held) = member.take(alloc) else {
        return NO_HANDLE;
    };
    let code = try_shut(&mut held, answer);
    member.put(held);
    code
}
