// How a C program peeks at the first item.
ghost use Rattle.std.specs.Prelude.{◌≡◌, ◌≢◌, Some};
ghost use Rattle.queue_c.specs.Plain.{plain_item, told_answer};
ghost use Rattle.queue_c.specs.Peeking.{PeekAnswers, seen_as};
ghost use Rattle.queue_c.specs.declared.codes.TheConstants.{OK, TOLD};

use crate::calls::owes_wake;
use crate::codes::{LOCK_HELD, NO_HANDLE, OK, TOLD, WAITS};
use crate::contents::Contents;
use crate::handle::Handle;
use crate::plain::{PlainAnswer, PlainItem, tell_answer, tell_item};
use flat_queue::Peeked;
use pq_types::{Answer, Item, Reply};
use queue_pool::Undone;
use std::alloc::Global;

// All that was seen, with this word on whether a wake is owed.
#[cold]
#[inline(never)]
fn tell_seen(seen: &Peeked<Item<u64>>, owes: u32) -> PlainAnswer
    ensures { result ≡ told_answer owes (seen_as seen.now) }
{
    let reply = match seen.first {
        Some(item) => Reply::Least(item),
        None => Reply::Empty,
    };
    tell_answer(&Answer::Entered(seen.entries, reply), owes)
}

#[inline(always)]
fn peek(held: &mut Contents, first: &mut PlainItem, answer: &mut PlainAnswer) -> u32
    ensures answers { PeekAnswers (Some held.old) result (plain_item first.new) answer.new (Some held.new) }
    ensures line { result ≡ OK → answer.new ≡ record answer.old { line = answer.new.line } }
    ensures untold { result ≢ OK → result ≢ TOLD → answer.new ≡ answer.old }
    ensures first { result ≢ OK → first.new ≡ first.old }
{
    let Contents::Member(member, _) = held else {
        return NO_HANDLE;
    };
    match member.try_peek() {
        Ok(seen) => {
            let owes = owes_wake(member);
            if let Some(item) = seen.first {
                if owes == 0 {
                    *first = tell_item(&item);
                    answer.line = seen.entries;
                    return OK;
                }
            }
            *answer = tell_seen(&seen, owes);
            TOLD
        }
        Err(Undone::Waits) => WAITS,
        Err(_) => LOCK_HELD,
    }
}

/// Looks at the first item, at once where no other member leads, and without a request, so without a line of the journal. 0 where
/// there is one, and no wake is owed behind it: then the item is told, and by the line of the answer how many lines the journal has.
/// 14 where the whole answer is told: that to a least, but that its line is as said, and whether a wake is owed. 8 where another
/// member led, and then nothing was done. Refusals, which do nothing: 42 where the handle holds no member, 43 where the last
/// request is not answered yet. Takes memory for the pushes of others alone.
#[unsafe(no_mangle)]
pub extern "C" fn pq_core_try_peek(
    alloc: Global,
    member: &mut Handle,
    first: &mut PlainItem,
    answer: &mut PlainAnswer,
) -> u32
    ensures answers { PeekAnswers member.old.value result (plain_item first.new) answer.new member.new.value }
    ensures line { result ≡ OK → answer.new ≡ record answer.old { line = answer.new.line } }
    ensures untold { result ≢ OK → result ≢ TOLD → answer.new ≡ answer.old }
    ensures first { result ≢ OK → first.new ≡ first.old }
{
    let Some(mut held) = member.take(alloc) else {
        return NO_HANDLE;
    };
    let code = peek(&mut held, first, answer);
    member.put(held);
    code
}
