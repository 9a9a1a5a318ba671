// How a member counts the items under the lock.
ghost use Rattle.std.specs.Prelude.{◌≡◌, true, length, IfSome, IfNone};
ghost use Rattle.pq_types.specs.History.{left};
ghost use Rattle.pq_book.specs.Peak.{IsPeak};
ghost use Rattle.desk_core.specs.Words.{word_number};
ghost use Rattle.announce_board.specs.Tokens.{is_idle};
ghost use Rattle.flat_queue.specs.Turns.{FindsLockHeld};
ghost use Rattle.flat_queue.specs.Counting.{CountsBy};

use crate::member::Member;
use crate::queue::Queue;
use announce_board::Lead;
use leftist_heap::Store;
use pq_book::Entry;
use pq_types::Part;

/// How many items a queue has, and the peak: the most that waited at once since it was opened.
#[derive(Clone, Copy, Debug, PartialEq, Eq)]
pub struct Counts {
    pub items: u64,
    pub peak: u64,
}

impl<S: Store<Entry<P>>, P: Part> Queue<S, P> {
    /// The idle member counts the items, if it finds the lock free: it leads, serves the others where the hint says that somebody
    /// has posted, counts what the queue has then and had at most, and releases. It makes no request of its own, so that it
    /// counts beside a full journal too. `None` only where it found the lock held. It wakes nobody: its caller does, by `owed_wakes` or
    /// `wake_owed` of the `waiters`. Takes memory for the pushes of others alone, and never waits.
    pub fn count_items(&self, member: &mut Member<S, P>) -> Option<Counts>
        requires queue { member.old.queue ≡ self.now }
        requires idle { is_idle member.old.pen.standing ≡ true }
        ensures counts { IfSome result (λ counts. CountsBy (word_number P.wide) member.old counts member.new) }
        ensures held { IfNone result (FindsLockHeld member.old member.new) }
    {
        let mut lead = self.lead(member)?;
        self.serve_others(member, &mut lead);
        let counts = counts_of(&lead);
        self.release(member, lead);
        Some(counts)
    }
}

// What the journal in the leader's hand leaves, and the most that it has left at once.
fn counts_of<S: Store<Entry<P>>, P: Part>(lead: &Lead<S, P>) -> Counts
    ensures items { result.items ≡ length (left lead.now.book.journal) }
    ensures peak { IsPeak lead.now.book.journal result.peak }
{
    let items = lead.items();
    let peak = lead.peak_items();
    Counts { items, peak }
}
