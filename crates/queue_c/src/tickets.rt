// How a C program uses the ticket of an item: it removes the item, or moves it to another priority.
ghost use Rattle.std.specs.Prelude.{◌≡◌, ◌≢◌, Some};
ghost use Rattle.queue_c.specs.Tickets.{TicketAnswers, RemoveAnswers, RescheduleAnswers};
ghost use Rattle.queue_c.specs.declared.codes.TheConstants.{OK};

use crate::calls::owes_wake;
use crate::codes::{LOCK_HELD, NO_HANDLE, OK, POSTS_SPENT, WAITS};
use crate::contents::Contents;
use crate::handle::Handle;
use crate::plain::{PlainAnswer, tell_answer};
use pq_types::Ticketed;
use queue_pool::Undone;
use std::alloc::Global;

// Uses the ticket, and tells the answer.
fn use_held(held: &mut Contents, ticketed: Ticketed<u64>, answer: &mut PlainAnswer) -> u32
    ensures answers { TicketAnswers (Some held.old) ticketed result answer.new (Some held.new) }
    ensures untold { result ≢ OK → answer.new ≡ answer.old }
{
    let Contents::Member(member, _) = held else {
        return NO_HANDLE;
    };
    match member.try_ticket(ticketed) {
        Ok(found) => {
            *answer = tell_answer(&found, owes_wake(member));
            OK
        }
        Err(Undone::Waits) => WAITS,
        Err(Undone::Spent) => POSTS_SPENT,
        Err(_) => LOCK_HELD,
    }
}

// The same, of what the handle holds.
fn use_ticket(
    alloc: Global,
    member: &mut Handle,
    ticketed: Ticketed<u64>,
    answer: &mut PlainAnswer,
) -> u32
    ensures answers { TicketAnswers member.old.value ticketed result answer.new member.new.value }
    ensures untold { result ≢ OK → answer.new ≡ answer.old }
{
    let Some(mut held) = member.take(alloc) else {
        return NO_HANDLE;
    };
    let code = use_held(&mut held, ticketed, answer);
    member.put(held);
    code
}

/// Takes the item out that has this ticket, the number of the line that put it in, at once where no other member leads, without a
/// post: 0, and the answer is told, that of a pop which got it, or which found nothing where it no longer waits, or that the
/// journal is full, or that the queue's rules refuse it; and whether a wake is owed behind it; 8 where another member led, and
/// then nothing was done. Refusals, which do nothing: 42 where the handle holds no member, 43 where the last request is not
/// answered yet, 11 where all posts are spent. Takes memory for the pushes of others alone.
#[unsafe(no_mangle)]
pub extern "C" fn pq_core_try_remove(
    alloc: Global,
    member: &mut Handle,
    ticket: u64,
    answer: &mut PlainAnswer,
) -> u32
    ensures answers { RemoveAnswers member.old.value ticket result answer.new member.new.value }
    ensures untold { result ≢ OK → answer.new ≡ answer.old }
{
    use_ticket(alloc, member, Ticketed::remove(ticket), answer)
}

/// Moves the item with this ticket to this priority, behind all items of that priority, else as `pq_core_try_remove`: the answer
/// is that of a pop which got the item, as it was, and the line is the item's new ticket; or it is that no memory was left, and
/// then the item stays as it was. Takes memory where the store has to grow. It is let through where the queue is shut.
#[unsafe(no_mangle)]
pub extern "C" fn pq_core_try_reschedule(
    alloc: Global,
    member: &mut Handle,
    ticket: u64,
    priority: u64,
    answer: &mut PlainAnswer,
) -> u32
    ensures answers { RescheduleAnswers member.old.value ticket priority result answer.new member.new.value }
    ensures untold { result ≢ OK → answer.new ≡ answer.old }
{
    use_ticket(
        alloc,
        member,
        Ticketed::reschedule(ticket, priority),
        answer,
    )
}
