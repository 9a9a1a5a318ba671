// What each call of a member comes to, in the numbers for C.
ghost use Rattle.std.specs.Prelude.{Some};
ghost use Rattle.queue_c.specs.Calls.{SaysOwed};

use crate::contents::QueueMember;

/// Whether one who waits at its queue is owed a wake behind what it carried out: 1 where the member has woken one of the list,
/// else 0.
pub fn owes_wake(member: &QueueMember) -> u32
    ensures owes { SaysOwed result (Some member.now) }
{
    u32::from(member.owes_wakes())
}
