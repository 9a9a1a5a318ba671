// A call: it posts, and takes turns until the reply is there.
ghost use Rattle.std.specs.Prelude.{◌≡◌, ◌≢◌, ◌≤◌, ◌<◌, ◌↔◌, ⊤, true, false, Some, IfSome, IfNone, IfOk, IfErr, IsErrOf};
ghost use Rattle.desk_core.specs.Words.{word_number};
ghost use Rattle.flat_queue.specs.Limits.{most_posts};
ghost use Rattle.pq_types.specs.declared.request.Request.TheVariants.{Push, Pop, Least};
ghost use Rattle.pq_types.specs.declared.answer.Reply.TheVariants.{Pushed};
ghost use Rattle.pq_types.specs.Control.{reply_item};
ghost use Rattle.announce_board.specs.Tokens.{is_idle};
ghost use Rattle.announce_board.specs.Asking.{IsFullFor};
ghost use Rattle.flat_queue.specs.declared.gate.Turn.TheVariants.{GiveUp};
ghost use Rattle.flat_queue.specs.Members.{HasRoomForAll};
ghost use Rattle.flat_queue.specs.Calling.{IsCalled, IsRefused, IsTold, MakesCall, PostsAndWaitsBy};
ghost use Rattle.flat_queue.specs.Calling.{WaitsOn, ended, popped, found_first, WaitsForBy};
ghost use Rattle.flat_queue.specs.OwnRequest.{EntersOrWaitsBy};
ghost use Rattle.flat_queue.specs.Turns.{EndsWaitingBy};

use crate::call_steps::{CallStage, CallStepped, answer_of};
use crate::error::CallError;
use crate::gate::{Gate, Open};
use crate::member::Member;
use crate::queue::Queue;
use crate::resting::Rest;
use leftist_heap::Store;
use pq_book::Entry;
use pq_types::{Answer, Item, Part, Reply, Request};
use std::hint;
use std::sync::Wait;

impl<S: Store<Entry<P>>, P: Part> Queue<S, P> {
    /// The idle member posts a request, and waits until it is answered: the number of its journal
    /// line, and the reply. While there is no answer, it takes the turns that the gate tells, and
    /// rests after each that won no round, as its member is to. Takes memory for a push alone.
    ///
    /// Refusals: `NoMemory` (9), to a push alone, and `BookFull` (10), where the journal was full: the
    /// request has no line. `Spent` (11): all serials have been posted, and this request was not.
    /// `GaveUp` (12): the gate said so, and the request stays posted. Never `NoMemory` over stores that all have room
    /// for as many items as the journal has lines, as `ReservedHeap`.
    #[tactic(auto, using(crate::proofs::Knew::told_beyond, crate::proofs::Knew::told_times))]
    pub fn call_by<R: Wait, G: Gate>(
        &self,
        rt: &R,
        member: &mut Member<S, P>,
        request: Request<Item<P>>,
        gate: &G,
    ) -> Result<(u64, Reply<Item<P>>), CallError>
        requires queue { member.old.queue ≡ self.now }
        requires idle { is_idle member.old.pen.standing ≡ true }
        ensures ok { IfOk result (λ told. IsCalled member.old request told.0 told.1 member.new) }
        ensures err { IfErr result (λ error.
            IsRefused (G.may_answer gate.now member.old.comer.id GiveUp) member.old request error member.new) }
        ensures full { IsErrOf result CallError.BookFull → IsFullFor member.new.pen }
        ensures spent { IsErrOf result CallError.Spent ↔ most_posts self.now.room ≤ member.old.pen.posts }
        ensures turns { member.old.pen.posts < most_posts self.now.room
            → WaitsForBy (word_number P.wide) (G.may_answer gate.now member.old.comer.id) member.old request result member.new }
        ensures memory { HasRoomForAll S.room self.now → ¬ (IsErrOf result CallError.NoMemory) }
    {
        if member.posts() >= self.most_posts() {
            return Err(CallError::Spent);
        }
        self.post(member, request);
        end(self.wait(rt, member, gate))
    }

    // The waiting member looks and takes turns, a step at a time, until its answer is there, or the gate says to give up. It
    // rests after a turn that wins no round.
    #[tactic(auto, using(crate::proofs::Waits::at_first))]
    pub(crate) fn wait<R: Wait, G: Gate>(
        &self,
        rt: &R,
        member: &mut Member<S, P>,
        gate: &G,
    ) -> Option<Answer<Item<P>>>
        requires queue { member.old.queue ≡ self.now }
        requires waits { is_idle member.old.pen.standing ≡ false }
        ensures told { IfSome result (λ answer. IsTold member.old answer member.new) }
        ensures waits { IfNone result (WaitsOn member.old member.new) }
        ensures gave_up { IfNone result (G.may_answer gate.now member.old.comer.id GiveUp) }
        ensures turns { EndsWaitingBy (word_number P.wide)
            (G.may_answer gate.now member.old.comer.id) member.old result member.new }
        ensures memory { HasRoomForAll S.room self.now → result ≢ Some Answer.NoMemory }
    {
        let mut rests = member.rest();
        for _ in rt.forever() {
            match self.step_asking(member, gate) {
                CallStepped::Ends(came) => return answer_of(came),
                CallStepped::Goes(stage) => {
                    self.waiters.wake_owed();
                    self.pause_before(rt, stage, &mut rests);
                }
            }
        }
        unreachable!()
    }

    // What its caller does before a step of a call at this stage.
    pub(crate) fn pause_before<R: Wait>(
        &self,
        rt: &R,
        stage: CallStage<Item<P>>,
        rests: &mut Rest,
    ) {
        match stage {
            CallStage::Tries(_, _) => hint::spin_loop(),
            CallStage::Looks => (),
            CallStage::Waits => rests.rest(rt, self.joined()),
        }
    }

    /// The same, by a gate that says at each turn to try a round: it never gives up. Refusals:
    /// `NoMemory` (9), to a push alone, `BookFull` (10), `Spent` (11).
    pub fn call<R: Wait>(
        &self,
        rt: &R,
        member: &mut Member<S, P>,
        request: Request<Item<P>>,
    ) -> Result<(u64, Reply<Item<P>>), CallError>
        requires queue { member.old.queue ≡ self.now }
        requires idle { is_idle member.old.pen.standing ≡ true }
        ensures { MakesCall (PostsAndWaitsBy (word_number P.wide)) (λ told. told)
            (HasRoomForAll S.room self.now) member.old request result member.new }
    {
        self.call_by(rt, member, request, &Open)
    }

    /// Puts an item into the queue: the number of the push's journal line, which is the item's ticket: by it `remove` and
    /// `reschedule` find the item. Where it finds the lock
    /// free it carries the request out at once, as `try_call` does; else it posts and waits, as `call`
    /// does. It is refused as `call` is, and takes memory where the store has to grow. Over stores that
    /// all have room for as many items as the journal has lines it is never refused for want of memory.
    pub fn push<R: Wait>(
        &self,
        rt: &R,
        member: &mut Member<S, P>,
        item: Item<P>,
    ) -> Result<u64, CallError>
        requires queue { member.old.queue ≡ self.now }
        requires idle { is_idle member.old.pen.standing ≡ true }
        ensures { MakesCall (EntersOrWaitsBy (word_number P.wide)) (λ number. (number, Pushed))
            (HasRoomForAll S.room self.now) member.old (Push item) result member.new }
    {
        let (number, _) = self.enter_or_wait(rt, member, Request::Push(item))?;
        Ok(number)
    }

    /// Takes the first item out of the queue: the number of the pop's journal line, and the item,
    /// none where the queue was empty. It enters or waits, and is refused, as `push` is, but never for
    /// want of memory.
    pub fn pop<R: Wait>(
        &self,
        rt: &R,
        member: &mut Member<S, P>,
    ) -> Result<(u64, Option<Item<P>>), CallError>
        requires queue { member.old.queue ≡ self.now }
        requires idle { is_idle member.old.pen.standing ≡ true }
        ensures { MakesCall (EntersOrWaitsBy (word_number P.wide))
            (λ told. (told.0, popped told.1)) ⊤ member.old Pop result member.new }
    {
        let (number, reply) = self.enter_or_wait(rt, member, Request::Pop)?;
        Ok((number, item_of(reply)))
    }

    /// The first item of the queue, which stays there: the number of the least's journal line, and
    /// the item, none where the queue was empty. It enters or waits, and is refused, as `pop` is.
    pub fn least<R: Wait>(
        &self,
        rt: &R,
        member: &mut Member<S, P>,
    ) -> Result<(u64, Option<Item<P>>), CallError>
        requires queue { member.old.queue ≡ self.now }
        requires idle { is_idle member.old.pen.standing ≡ true }
        ensures { MakesCall (EntersOrWaitsBy (word_number P.wide))
            (λ told. (told.0, found_first told.1)) ⊤ member.old Least result member.new }
    {
        let (number, reply) = self.enter_or_wait(rt, member, Request::Least)?;
        Ok((number, item_of(reply)))
    }
}

// What an answer, or none, comes to as the end of a call.
pub(crate) fn end<P: Part>(
    answer: Option<Answer<Item<P>>>,
) -> Result<(u64, Reply<Item<P>>), CallError>
    ensures { result ≡ ended answer }
{
    match answer {
        None => Err(CallError::GaveUp),
        Some(answer) => match answer {
            Answer::Entered(number, reply) => Ok((number, reply)),
            Answer::BookFull => Err(CallError::BookFull),
            Answer::NoMemory => Err(CallError::NoMemory),
            Answer::Refused(refusal) => Err(CallError::Refused(refusal.why())),
        },
    }
}

// The item that a reply tells, if it has one.
fn item_of<P: Part>(reply: Reply<Item<P>>) -> Option<Item<P>>
    ensures { result ≡ reply_item reply }
{
    match reply {
        Reply::Got(item) | Reply::Least(item) => Some(item),
        Reply::Pushed | Reply::Empty => None,
    }
}
