// A call whose request is chosen under the lock, by the first item of the queue.
ghost use Rattle.std.specs.Prelude.{◌≡◌, ◌<◌, true, Some, IfSome, IfNone};
ghost use Rattle.pq_types.specs.declared.journal.TheConstants.{GREATEST_NUMBER};
ghost use Rattle.desk_core.specs.Words.{word_number};
ghost use Rattle.pq_types.specs.History.{left};
ghost use Rattle.leftist_heap.specs.Store.{first_of};
ghost use Rattle.announce_board.specs.Tokens.{is_idle};
ghost use Rattle.flat_queue.specs.Turns.{FindsLockHeld};
ghost use Rattle.flat_queue.specs.UpTo.{request_up_to, told_up_to, ended_up_to, CarriesOutUpToBy};
ghost use Rattle.flat_queue.specs.UpTo.{TellsUpTo, MissesThenCarriesOutBy, PopsUpToBy};

use crate::error::CallError;
use crate::member::Member;
use crate::queue::Queue;
use announce_board::Lead;
use leftist_heap::Store;
use pq_book::Entry;
use pq_types::{Answer, Item, Part, Reply, Request};
use std::sync::Wait;

/// What a call found that takes the first item out where its priority is at most a bound.
#[derive(Clone, Copy, Debug, PartialEq, Eq)]
pub enum UpTo<I = Item> {
    /// It took this item out: its priority is at most the bound.
    Got(I),
    /// This item is the first, and stays there: its priority is above the bound.
    Later(I),
    /// There is no item.
    Empty,
}

impl<S: Store<Entry<P>>, P: Part> Queue<S, P> {
    /// Takes the first item out of the queue where its priority is at most this one, and else tells it:
    /// the number of the journal line, which is a pop's, or a least's where the item stays. The idle
    /// member waits until it has the lock, as a call rests, looks at the first item and carries the one
    /// request out, all under the one lock; so no item comes between. It posts nothing: nobody else
    /// carries its request out. Takes memory for the pushes of others alone.
    ///
    /// Refusals: `BookFull` (10): the request has no line. `Spent` (11): all serials have been used, and
    /// nothing was done. Never `NoMemory`, and it never gives up.
    #[tactic(auto, using(crate::proofs::UpTos::popped_spent))]
    pub fn pop_up_to<R: Wait>(
        &self,
        rt: &R,
        member: &mut Member<S, P>,
        priority: P,
    ) -> Result<(u64, UpTo<Item<P>>), CallError>
        requires queue { member.old.queue ≡ self.now }
        requires idle { is_idle member.old.pen.standing ≡ true }
        ensures { PopsUpToBy (word_number P.wide) (P.number priority) member.old result member.new }
    {
        if member.posts() >= self.most_posts() {
            return Err(CallError::Spent);
        }
        end_up_to(self.wait_and_carry_out(rt, member, priority))
    }

    // The member tries until it finds the lock free, and carries out what the first item asks for.
    fn wait_and_carry_out<R: Wait>(
        &self,
        rt: &R,
        member: &mut Member<S, P>,
        priority: P,
    ) -> Answer<Item<P>>
        requires queue { member.old.queue ≡ self.now }
        requires idle { is_idle member.old.pen.standing ≡ true }
        requires few { member.old.pen.posts < GREATEST_NUMBER }
        ensures { MissesThenCarriesOutBy (word_number P.wide) (P.number priority) member.old result member.new }
    {
        let mut rests = member.rest().of_tries();
        for _ in rt.forever() {
            if let Some(answer) = self.carry_out_up_to(member, priority) {
                self.waiters.wake_owed();
                return answer;
            }
            rests.rest(rt, self.joined());
        }
        unreachable!()
    }

    /// The idle member takes the first item out, or tells it, as `pop_up_to` does, and wakes nobody: its caller does, by
    /// `owed_wakes` or `wake_owed` of the `waiters`. The answer; `None` only where it found the lock held. Takes memory
    /// for the pushes of others alone, and never waits.
    pub fn carry_out_up_to(&self, member: &mut Member<S, P>, priority: P) -> Option<Answer<Item<P>>>
        requires queue { member.old.queue ≡ self.now }
        requires idle { is_idle member.old.pen.standing ≡ true }
        requires few { member.old.pen.posts < GREATEST_NUMBER }
        ensures carries { IfSome result (λ answer.
            CarriesOutUpToBy (word_number P.wide) (P.number priority) member.old answer member.new) }
        ensures tells { IfSome result (λ answer. TellsUpTo (P.number priority) answer) }
        ensures held { IfNone result (FindsLockHeld member.old member.new) }
    {
        let mut lead = self.lead(member)?;
        let served = self.serve_others(member, &mut lead);
        let request = choose(&lead, priority);
        Some(self.release_with(member, lead, request, served))
    }
}

// The request that the first item asks for.
fn choose<S: Store<Entry<P>>, P: Part>(lead: &Lead<S, P>, priority: P) -> Request<Item<P>>
    ensures { result ≡ request_up_to (P.number priority) (first_of (left lead.now.book.journal)) }
{
    match lead.first() {
        None => Request::Pop,
        Some(item) => request_at(item, priority),
    }
}

// The same, where there is one.
fn request_at<P: Part>(item: Item<P>, priority: P) -> Request<Item<P>>
    ensures { result ≡ request_up_to (P.number priority) (Some item) }
{
    if item.priority.as_u64() <= priority.as_u64() {
        Request::Pop
    } else {
        Request::Least
    }
}

// What an answer comes to as the end of such a call.
fn end_up_to<P: Part>(answer: Answer<Item<P>>) -> Result<(u64, UpTo<Item<P>>), CallError>
    ensures { result ≡ ended_up_to answer }
{
    match answer {
        Answer::Entered(number, reply) => Ok((number, told_of(reply))),
        Answer::BookFull => Err(CallError::BookFull),
        Answer::NoMemory => Err(CallError::NoMemory),
        Answer::Refused(refusal) => Err(CallError::Refused(refusal.why())),
    }
}

// What such a call tells of a reply.
fn told_of<P: Part>(reply: Reply<Item<P>>) -> UpTo<Item<P>>
    ensures { result ≡ told_up_to reply }
{
    match reply {
        Reply::Got(item) => UpTo::Got(item),
        Reply::Least(item) => UpTo::Later(item),
        Reply::Pushed | Reply::Empty => UpTo::Empty,
    }
}
