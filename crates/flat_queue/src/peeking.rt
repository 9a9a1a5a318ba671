// How a member looks at the first item under the lock, and leaves it there.
ghost use Rattle.std.specs.Prelude.{◌≡◌, true, length, IfSome, IfNone};
ghost use Rattle.pq_types.specs.History.{left};
ghost use Rattle.leftist_heap.specs.Store.{first_of};
ghost use Rattle.desk_core.specs.Words.{word_number};
ghost use Rattle.announce_board.specs.Tokens.{is_idle};
ghost use Rattle.flat_queue.specs.Turns.{FindsLockHeld};
ghost use Rattle.flat_queue.specs.Peeking.{PeeksBy};

use crate::member::Member;
use crate::queue::Queue;
use announce_board::Lead;
use leftist_heap::Store;
use pq_book::Entry;
use pq_types::{Item, Part};

/// What a peek finds: the first item, where there is one, and how many lines the journal has then.
#[derive(Clone, Copy, Debug, PartialEq, Eq)]
pub struct Peeked<I = Item> {
    pub first: Option<I>,
    pub entries: u64,
}

impl<S: Store<Entry<P>>, P: Part> Queue<S, P> {
    /// The idle member looks at the first item, if it finds the lock free: it leads, serves the others where the hint says that
    /// somebody has posted, tells what is first then, and releases. It makes no request of its own, so that it looks beside a
    /// full journal, in a queue that is shut, and with all serials used. `None` only where it found the lock held. It wakes
    /// nobody: its caller does, by `owed_wakes` or `wake_owed` of the `waiters`. Takes memory for the pushes of others alone,
    /// and never waits.
    #[inline(always)]
    pub fn peek(&self, member: &mut Member<S, P>) -> Option<Peeked<Item<P>>>
        requires queue { member.old.queue ≡ self.now }
        requires idle { is_idle member.old.pen.standing ≡ true }
        ensures peeks { IfSome result (λ seen. PeeksBy (word_number P.wide) member.old seen member.new) }
        ensures held { IfNone result (FindsLockHeld member.old member.new) }
    {
        let mut lead = self.lead(member)?;
        self.serve_others(member, &mut lead);
        let seen = seen_by(&lead);
        self.release(member, lead);
        Some(seen)
    }
}

// The first item that the journal in the leader's hand leaves, and how many lines it has.
#[inline(always)]
fn seen_by<S: Store<Entry<P>>, P: Part>(lead: &Lead<S, P>) -> Peeked<Item<P>>
    ensures first { result.first ≡ first_of (left lead.now.book.journal) }
    ensures entries { result.entries ≡ length lead.now.book.journal }
{
    let first = lead.first();
    let entries = lead.lines();
    Peeked { first, entries }
}
