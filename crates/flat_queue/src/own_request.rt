// How a member that finds the lock free carries its own request out: it posts nothing.
ghost use Rattle.std.specs.Prelude.{◌≡◌, ◌≢◌, ◌<◌, true, Some, None, IfSome, IfNone, IsErrOf};
ghost use Rattle.pq_types.specs.declared.journal.TheConstants.{GREATEST_NUMBER};
ghost use Rattle.desk_core.specs.Words.{word_number};
ghost use Rattle.announce_board.specs.Asking.{IsAnswerTo};
ghost use Rattle.announce_board.specs.Slots.{MeetsTerms};
ghost use Rattle.announce_board.specs.Tokens.{IsLeadOf, is_idle};
ghost use Rattle.flat_queue.specs.Limits.{most_posts};
ghost use Rattle.flat_queue.specs.Members.{HasRoomForAll, pen_of};
ghost use Rattle.flat_queue.specs.Calling.{MakesCall};
ghost use Rattle.flat_queue.specs.Memory.{HasSpareRoom};
ghost use Rattle.flat_queue.specs.Turns.{FindsLockHeld};
ghost use Rattle.flat_queue.specs.CallSteps.{FitsStage, HasComeToBy};
ghost use Rattle.flat_queue.specs.OwnRequest.{ReleasesWith, CarriesOutBy, EntersAtOnceBy, TriesOrWaitsBy, EntersOrWaitsBy};

use crate::call_steps::{CallStage, CallStepped, Then, end_of};
use crate::calling::end;
use crate::error::CallError;
use crate::gate::Open;
use crate::member::Member;
use crate::others::Served;
use crate::queue::Queue;
use announce_board::Lead;
use leftist_heap::Store;
use pq_book::Entry;
use pq_types::{Answer, Item, Part, Reply, Request};
use std::sync::Wait;

impl<S: Store<Entry<P>>, P: Part> Queue<S, P> {
    /// The idle member carries its own request out, if it finds the lock free: it leads, serves the
    /// others where the hint says that somebody has posted, and releases the lock with its request,
    /// all without a post. The number of the journal line, and the reply. `None` only where it found
    /// the lock held: then nothing was done, and the member may post. Takes memory for pushes alone,
    /// and never waits.
    ///
    /// Refusals: `NoMemory` (9), to a push alone, and `BookFull` (10): the request has no line.
    /// `Spent` (11): all serials have been used, and nothing was done. Never `NoMemory` over stores
    /// that all have room for as many items as the journal has lines, as `ReservedHeap`; nor while they all have room for one
    /// item more than the journal leaves that the member knows then.
    #[inline(always)]
    pub fn try_call(
        &self,
        member: &mut Member<S, P>,
        request: Request<Item<P>>,
    ) -> Option<Result<(u64, Reply<Item<P>>), CallError>>
        requires queue { member.old.queue ≡ self.now }
        requires idle { is_idle member.old.pen.standing ≡ true }
        ensures called { IfSome result (λ told.
            MakesCall (EntersAtOnceBy (word_number P.wide)) (λ t. t)
            (HasRoomForAll S.room self.now) member.old request told member.new) }
        ensures spare { HasSpareRoom S.room member.new.pen.known
            → IfSome result (λ told. ¬ (IsErrOf told CallError.NoMemory)) }
        ensures held { IfNone result (FindsLockHeld member.old member.new) }
        ensures few { IfNone result (member.old.pen.posts < most_posts self.now.room) }
    {
        if member.posts() >= self.most_posts() {
            return Some(Err(CallError::Spent));
        }
        let answer = self.carry_out(member, request)?;
        self.waiters.wake_owed();
        Some(end(Some(answer)))
    }

    /// Carries the request out at once; or, where it finds the lock held, tries again, or posts it and waits for the answer.
    #[inline(always)]
    #[tactic(auto, using(crate::proofs::OwnRequests::entered_now, crate::proofs::OwnRequests::tried_behind))]
    pub(crate) fn enter_or_wait<R: Wait>(
        &self,
        rt: &R,
        member: &mut Member<S, P>,
        request: Request<Item<P>>,
    ) -> Result<(u64, Reply<Item<P>>), CallError>
        requires queue { member.old.queue ≡ self.now }
        requires idle { is_idle member.old.pen.standing ≡ true }
        ensures { MakesCall (EntersOrWaitsBy (word_number P.wide)) (λ told. told)
            (HasRoomForAll S.room self.now) member.old request result member.new }
    {
        let asked = request;
        if let Some(told) = self.try_call(member, asked) {
            return told;
        }
        self.try_or_wait(rt, member, request)
    }

    // The member found the lock held. It tries again behind short pauses, as often as its rest says, and posts nothing meanwhile, as a
    // request that a thread carries out itself takes a fraction of one that another thread serves. Then it posts and waits.
    #[inline(never)]
    fn try_or_wait<R: Wait>(
        &self,
        rt: &R,
        member: &mut Member<S, P>,
        request: Request<Item<P>>,
    ) -> Result<(u64, Reply<Item<P>>), CallError>
        requires queue { member.old.queue ≡ self.now }
        requires idle { is_idle member.old.pen.standing ≡ true }
        requires few { member.old.pen.posts < most_posts self.now.room }
        ensures { MakesCall (TriesOrWaitsBy (word_number P.wide)) (λ told. told)
            (HasRoomForAll S.room self.now) member.old request result member.new }
    {
        let mut rests = member.rest();
        let mut stage = self.stage_held(member, request);
        for _ in rt.forever() {
            self.pause_before(rt, stage, &mut rests);
            let told = self.step_call(member, stage, &Open);
            self.waiters.wake_owed();
            match told {
                CallStepped::Ends(came) => return end_of(came),
                CallStepped::Goes(next) => stage = next,
            }
        }
        unreachable!()
    }

    // The stage at which a call goes on whose first try found the lock held.
    fn stage_held(&self, member: &mut Member<S, P>, request: Request<Item<P>>) -> CallStage<Item<P>>
        requires queue { member.old.queue ≡ self.now }
        requires idle { is_idle member.old.pen.standing ≡ true }
        requires few { member.old.pen.posts < most_posts self.now.room }
        ensures comes { HasComeToBy (word_number P.wide) member.old request result member.new }
        ensures queue { member.new.queue ≡ member.old.queue }
        ensures fits { FitsStage result member.new }
    {
        let tries = member.rest().tries;
        let asked = request;
        match self.step_held(member, asked, tries, &Open) {
            Then::TriesAgain => CallStage::Tries(request, tries - 1),
            Then::HasPosted => CallStage::Looks,
            Then::GivesUp => unreachable!(),
        }
    }

    /// The idle member carries its own request out, as `try_call` does, and wakes nobody: its caller does, by `owed_wakes`
    /// or `wake_owed` of the `waiters`. The answer; `None` only where it found the lock held. Takes memory for pushes
    /// alone, and never waits.
    #[inline(always)]
    pub fn carry_out(
        &self,
        member: &mut Member<S, P>,
        request: Request<Item<P>>,
    ) -> Option<Answer<Item<P>>>
        requires queue { member.old.queue ≡ self.now }
        requires idle { is_idle member.old.pen.standing ≡ true }
        requires few { member.old.pen.posts < GREATEST_NUMBER }
        ensures carries { IfSome result (λ answer. CarriesOutBy (word_number P.wide) member.old request answer member.new) }
        ensures answers { IfSome result (λ answer. IsAnswerTo self.now.room request answer) }
        ensures held { IfNone result (FindsLockHeld member.old member.new) }
        ensures memory { HasRoomForAll S.room self.now → result ≢ Some Answer.NoMemory }
        ensures spare { HasSpareRoom S.room member.new.pen.known → result ≢ Some Answer.NoMemory }
    {
        let mut lead = self.lead(member)?;
        let served = self.serve_others(member, &mut lead);
        Some(self.release_with(member, lead, request, served))
    }

    // The idle leader, to which nothing is due, releases the lock with a request of its own, behind those of the others.
    // Behind a push it counts one who waits for an item and may be woken.
    #[inline(always)]
    pub(crate) fn release_with(
        &self,
        member: &mut Member<S, P>,
        lead: Lead<S, P>,
        request: Request<Item<P>>,
        _served: Served,
    ) -> Answer<Item<P>>
        requires queue { member.old.queue ≡ self.now }
        requires lead { IsLeadOf (pen_of member.old) lead }
        requires terms { MeetsTerms self.now.terms lead.book }
        requires due { member.old.pen.due ≡ None }
        requires idle { is_idle member.old.pen.standing ≡ true }
        requires few { member.old.pen.posts < GREATEST_NUMBER }
        ensures releases { ReleasesWith member.old request result member.new }
        ensures answers { IsAnswerTo self.now.room request result }
        ensures memory { HasRoomForAll S.room self.now → result ≢ Answer.NoMemory }
        ensures spare { HasSpareRoom S.room member.old.pen.hand → result ≢ Answer.NoMemory }
    {
        let answer = self.desk.release_with(&mut member.pen, lead, request);
        self.waiters.count_own(&answer, self.desk.room());
        answer
    }
}
