// How a C program counts the items.
ghost use Rattle.std.specs.Prelude.{◌≡◌, ◌≢◌, Some};
ghost use Rattle.queue_c.specs.Asking.{CountAnswers};
ghost use Rattle.queue_c.specs.Counting.{counts_of};
ghost use Rattle.queue_c.specs.declared.codes.TheConstants.{OK};

use crate::calls::owes_wake;
use crate::codes::{LOCK_HELD, NO_HANDLE, OK, WAITS};
use crate::contents::Contents;
use crate::handle::Handle;
use queue_pool::Undone;
use std::alloc::Global;

// Counts the items, and tells how many there are, how many there were at the peak, and whether a wake is owed.
fn try_count(held: &mut Contents, count: &mut u64, peak: &mut u64, owes: &mut u32) -> u32
    ensures answers { CountAnswers (Some held.old) result (counts_of count.new peak.new) owes.new (Some held.new) }
    ensures untold { result ≢ OK → (count.new ≡ count.old) × (peak.new ≡ peak.old) × (owes.new ≡ owes.old) }
{
    let Contents::Member(member, _) = held else {
        return NO_HANDLE;
    };
    match member.try_count() {
        Ok(counts) => {
            *count = counts.items;
            *peak = counts.peak;
            *owes = owes_wake(member);
            OK
        }
        Err(Undone::Waits) => WAITS,
        Err(_) => LOCK_HELD,
    }
}

/// Tells how many items the queue has, and the most that waited at once since it was opened, at once where no other member
/// leads: 0, and whether a wake is owed behind it; 8 where another member led, and then nothing was done. Refusals, which do
/// nothing: 42 where the handle holds no member, 43 where the last request is not answered yet. Takes memory for the pushes of
/// others alone.
#[unsafe(no_mangle)]
pub extern "C" fn pq_core_try_count(
    alloc: Global,
    member: &mut Handle,
    count: &mut u64,
    peak: &mut u64,
    owes: &mut u32,
) -> u32
    ensures answers { CountAnswers member.old.value result (counts_of count.new peak.new) owes.new member.new.value }
    ensures untold { result ≢ OK → (count.new ≡ count.old) × (peak.new ≡ peak.old) × (owes.new ≡ owes.old) }
{
    let Some(mut held) = member.take(alloc) else {
        return NO_HANDLE;
    };
    let code = try_count(&mut held, count, peak, owes);
    member.put(held);
    code
}
