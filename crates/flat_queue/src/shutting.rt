// How a member shuts its queue, by an entry of the journal that it makes under the lock.
ghost use Rattle.std.specs.Prelude.{◌≡◌, ◌≢◌, ◌<◌, true, None, Some, IfSome, IfNone};
ghost use Rattle.pq_types.specs.declared.journal.TheConstants.{GREATEST_NUMBER};
ghost use Rattle.pq_types.specs.Operation.{Shuts};
ghost use Rattle.desk_core.specs.Words.{word_number};
ghost use Rattle.announce_board.specs.Asking.{IsAnswerBy};
ghost use Rattle.announce_board.specs.Slots.{MeetsTerms};
ghost use Rattle.announce_board.specs.Tokens.{IsLeadOf, is_idle};
ghost use Rattle.flat_queue.specs.Members.{pen_of};
ghost use Rattle.flat_queue.specs.Turns.{FindsLockHeld};
ghost use Rattle.flat_queue.specs.OwnRequest.{ReleasesOperation};
ghost use Rattle.flat_queue.specs.Shutting.{CarriesOutShut, TellsShut, ended_shut, MissesThenShutsBy, ShutsBy};

use crate::error::CallError;
use crate::handle::Handle;
use crate::member::Member;
use crate::others::Served;
use crate::queue::Queue;
use announce_board::Lead;
use leftist_heap::Store;
use pq_book::Entry;
use pq_types::{Answer, Item, Part};
use std::sync::Wait;

impl<S: Store<Entry<P>>, P: Part> Queue<S, P> {
    /// Shuts the queue for good: the number of the shut's journal line. Behind that line no push is entered, and no other shut:
    /// both are refused, also one that was posted before. What waits stays, and goes out as it did. All who wait for an item are
    /// woken; those that heed the end are told it once nothing is left. The idle member waits until it has the lock, as a call
    /// rests, serves the others and shuts, all under the one lock. It posts nothing. Takes memory for the pushes of others alone.
    ///
    /// Refusals: `Refused(Shut)` (51) where the queue was shut, `Refused(Unarchived)` (52) and `BookFull` (10): the shut has no
    /// line. `Spent` (11): all serials have been used, and nothing was done. Never `NoMemory`, and it never gives up.
    #[tactic(auto, using(crate::proofs::Shuttings::unshut_spent))]
    pub fn shut<R: Wait>(&self, rt: &R, member: &mut Member<S, P>) -> Result<u64, CallError>
        requires queue { member.old.queue ≡ self.now }
        requires idle { is_idle member.old.pen.standing ≡ true }
        ensures { ShutsBy (word_number P.wide) member.old result member.new }
    {
        if member.posts() >= self.most_posts() {
            return Err(CallError::Spent);
        }
        end_shut(self.wait_and_shut(rt, member))
    }

    // The member tries until it finds the lock free, and shuts the queue.
    fn wait_and_shut<R: Wait>(&self, rt: &R, member: &mut Member<S, P>) -> Answer<Item<P>>
        requires queue { member.old.queue ≡ self.now }
        requires idle { is_idle member.old.pen.standing ≡ true }
        requires few { member.old.pen.posts < GREATEST_NUMBER }
        ensures { MissesThenShutsBy (word_number P.wide) member.old result member.new }
    {
        let mut rests = member.rest().of_tries();
        for _ in rt.forever() {
            if let Some(answer) = self.carry_out_shut(member) {
                self.waiters.wake_owed();
                return answer;
            }
            rests.rest(rt, self.joined());
        }
        unreachable!()
    }

    /// The idle member shuts the queue, as `shut` does, if it finds the lock free, and wakes nobody: its caller does, by
    /// `owed_wakes` or `wake_owed` of the `waiters`. The answer: `Entered` with `Empty`; or `Refused(Shut)` exactly where the queue
    /// was shut; or `BookFull`, or `Refused(Unarchived)`. `None` only where it found the lock held. Takes memory for the pushes of
    /// others alone, and never waits.
    pub fn carry_out_shut(&self, member: &mut Member<S, P>) -> Option<Answer<Item<P>>>
        requires queue { member.old.queue ≡ self.now }
        requires idle { is_idle member.old.pen.standing ≡ true }
        requires few { member.old.pen.posts < GREATEST_NUMBER }
        ensures carries { IfSome result (λ answer. CarriesOutShut (word_number P.wide) member.old answer member.new) }
        ensures tells { IfSome result (λ answer. TellsShut answer member.new.pen.known) }
        ensures held { IfNone result (FindsLockHeld member.old member.new) }
    {
        let mut lead = self.lead(member)?;
        let served = self.serve_others(member, &mut lead);
        Some(self.release_shut(member, lead, served))
    }

    // The idle leader, to which nothing is due, releases the lock with a shut, behind the requests of the others. It counts all who
    // wait for an item, as they look for the end.
    fn release_shut(
        &self,
        member: &mut Member<S, P>,
        lead: Lead<S, P>,
        _served: Served,
    ) -> Answer<Item<P>>
        requires queue { member.old.queue ≡ self.now }
        requires lead { IsLeadOf (pen_of member.old) lead }
        requires terms { MeetsTerms self.now.terms lead.book }
        requires due { member.old.pen.due ≡ None }
        requires idle { is_idle member.old.pen.standing ≡ true }
        requires few { member.old.pen.posts < GREATEST_NUMBER }
        ensures releases { ReleasesOperation member.old Shuts result member.new }
        ensures answers { IsAnswerBy self.now.room Shuts result }
    {
        let answer = self.desk.release_shut(&mut member.pen, lead);
        self.waiters.count_shut(&answer);
        answer
    }
}

impl<'q, S: Store<Entry<P>>, P: Part> Handle<'q, S, P> {
    /// Shuts the queue for good, as `Queue::shut` does: the number of the shut's journal line. It waits until it has the lock, and
    /// posts nothing. Refusals: `Refused(Shut)` (51) where the queue was shut, `Refused(Unarchived)` (52), `BookFull` (10),
    /// `Spent` (11).
    pub fn shut<R: Wait>(&mut self, rt: &R) -> Result<u64, CallError>
        ensures { ShutsBy (word_number P.wide) self.old result self.new }
    {
        self.queue.shut(rt, &mut self.member)
    }
}

// What an answer comes to as the end of such a call.
fn end_shut<P: Part>(answer: Answer<Item<P>>) -> Result<u64, CallError>
    ensures { result ≡ ended_shut answer }
{
    match answer {
        Answer::Entered(number, _) => Ok(number),
        Answer::BookFull => Err(CallError::BookFull),
        Answer::NoMemory => Err(CallError::NoMemory),
        Answer::Refused(refusal) => Err(CallError::Refused(refusal.why())),
    }
}
