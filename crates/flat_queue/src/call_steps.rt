// A call in steps that never wait: their caller rests between them.
ghost use Rattle.std.specs.Prelude.{◌≡◌, ◌<◌, false, true};
ghost use Rattle.desk_core.specs.Words.{word_number};
ghost use Rattle.announce_board.specs.Tokens.{is_idle};
ghost use Rattle.flat_queue.specs.Limits.{most_posts};
ghost use Rattle.flat_queue.specs.Members.{HasRoomForAll};
ghost use Rattle.flat_queue.specs.Memory.{HasSpareRoom};
ghost use Rattle.flat_queue.specs.CallSteps.{FitsStage, TriesOnceBy, FindsHeldOnceBy, AsksOnceBy, TurnsOnceBy, CallStepsBy};
ghost use Rattle.flat_queue.specs.CallSteps.{IsTry, IsForMemory, came_to, answer_of};

use crate::error::CallError;
use crate::gate::{Gate, Turn};
use crate::member::Member;
use crate::queue::Queue;
use leftist_heap::Store;
use pq_book::Entry;
use pq_types::{Answer, Item, Part, Reply, Request};

/// How far a call has come.
#[derive(Clone, Copy)]
pub enum CallStage<I = Item> {
    /// It is to carry its request out by itself. Where it finds the lock held it tries so often again, and then posts.
    Tries(Request<I>, u32),
    /// It has posted, or made a round of its own since: it is to look for its answer, which is there behind a round.
    Looks,
    /// It has posted, and has looked for its answer: it is to look again.
    Waits,
}

/// What a call came to.
#[derive(Clone, Copy)]
pub enum Came<I = Item> {
    /// Its request was answered so.
    Answered(Answer<I>),
    /// All serials have been used, and nothing was done.
    Spent,
    /// The gate said to give up while others held the lock: nothing was done.
    Held,
    /// The gate said to give up: the request stays posted.
    Posted,
}

/// What a step of a call came to.
#[derive(Clone, Copy)]
pub enum CallStepped<I = Item> {
    /// The call is over.
    Ends(Came<I>),
    /// It goes on from this stage. Before the next step its caller rests, unless that is to look behind a post or a round.
    Goes(CallStage<I>),
}

/// What a call does that has found the lock held.
#[derive(Clone, Copy)]
pub(crate) enum Then {
    /// The gate said to give up.
    GivesUp,
    /// It is to try again.
    TriesAgain,
    /// It has posted its request.
    HasPosted,
}

impl<S: Store<Entry<P>>, P: Part> Queue<S, P> {
    /// The member takes the next step of a call, as this gate says where the lock is held, or no answer is there. A step tries
    /// the lock once at most, and posts or looks at its record once at most. It posts only where it found the lock held. It
    /// never waits, and wakes nobody: its caller does, by `owed_wakes` or `wake_owed` of the `waiters`. Takes memory for
    /// pushes alone: one that carries its own request out is not answered `NoMemory` while all stores have room for one item more
    /// than the journal leaves that the member knows then.
    pub fn step_call<G: Gate>(
        &self,
        member: &mut Member<S, P>,
        stage: CallStage<Item<P>>,
        gate: &G,
    ) -> CallStepped<Item<P>>
        requires queue { member.old.queue ≡ self.now }
        requires fits { FitsStage stage member.old }
        ensures steps { CallStepsBy (word_number P.wide) (G.may_answer gate.now member.old.comer.id) (HasRoomForAll S.room self.now)
            stage member.old result member.new }
        ensures spare { IsTry stage → HasSpareRoom S.room member.new.pen.known → ¬ (IsForMemory result) }
    {
        match stage {
            CallStage::Tries(request, tries) => self.step_trying(member, request, tries, gate),
            CallStage::Looks | CallStage::Waits => self.step_asking(member, gate),
        }
    }

    /// The step of `step_call` at a stage `Tries`: the idle member tries to carry the request out, so many tries before it posts.
    /// Takes memory for pushes alone.
    pub fn step_trying<G: Gate>(
        &self,
        member: &mut Member<S, P>,
        request: Request<Item<P>>,
        tries: u32,
        gate: &G,
    ) -> CallStepped<Item<P>>
        requires queue { member.old.queue ≡ self.now }
        requires idle { is_idle member.old.pen.standing ≡ true }
        ensures tries { TriesOnceBy (word_number P.wide) (G.may_answer gate.now member.old.comer.id) (HasRoomForAll S.room self.now)
            request tries member.old result member.new }
        ensures spare { HasSpareRoom S.room member.new.pen.known → ¬ (IsForMemory result) }
    {
        if member.posts() >= self.most_posts() {
            return CallStepped::Ends(Came::Spent);
        }
        let asked = request;
        match self.carry_out(member, asked) {
            Some(answer) => CallStepped::Ends(Came::Answered(answer)),
            None => match self.step_held(member, request, tries, gate) {
                Then::GivesUp => CallStepped::Ends(Came::Held),
                Then::TriesAgain => CallStepped::Goes(CallStage::Tries(request, tries - 1)),
                Then::HasPosted => CallStepped::Goes(CallStage::Looks),
            },
        }
    }

    // It has found the lock held: unless the gate says to give up it is to try again, or posts. What it does is told in a
    // register, so that the way of a lock that is free writes nothing to memory for it.
    #[cold]
    #[inline(never)]
    pub(crate) fn step_held<G: Gate>(
        &self,
        member: &mut Member<S, P>,
        request: Request<Item<P>>,
        tries: u32,
        gate: &G,
    ) -> Then
        requires queue { member.old.queue ≡ self.now }
        requires idle { is_idle member.old.pen.standing ≡ true }
        requires few { member.old.pen.posts < most_posts self.now.room }
        ensures { FindsHeldOnceBy (word_number P.wide) (G.may_answer gate.now member.old.comer.id)
            request tries member.old result member.new }
    {
        if let Turn::GiveUp = gate.turn(member.id()) {
            return Then::GivesUp;
        }
        if tries > 0 {
            return Then::TriesAgain;
        }
        self.post(member, request);
        Then::HasPosted
    }

    /// The step of `step_call` at a stage `Looks` or `Waits`: the waiting member looks for its answer, and else takes the turn
    /// that the gate tells. Takes memory for the pushes of others alone.
    pub fn step_asking<G: Gate>(&self, member: &mut Member<S, P>, gate: &G) -> CallStepped<Item<P>>
        requires queue { member.old.queue ≡ self.now }
        requires waits { is_idle member.old.pen.standing ≡ false }
        ensures { AsksOnceBy (word_number P.wide) (G.may_answer gate.now member.old.comer.id) (HasRoomForAll S.room self.now)
            member.old result member.new }
    {
        if let Some(answer) = self.look(member) {
            return CallStepped::Ends(Came::Answered(answer));
        }
        self.step_turning(member, gate.turn(member.id()))
    }

    // It has looked, found no answer, and takes this turn.
    #[inline(always)]
    fn step_turning(&self, member: &mut Member<S, P>, turn: Turn) -> CallStepped<Item<P>>
        requires queue { member.old.queue ≡ self.now }
        ensures { TurnsOnceBy (word_number P.wide) turn member.old result member.new }
    {
        match turn {
            Turn::GiveUp => CallStepped::Ends(Came::Posted),
            Turn::Look => CallStepped::Goes(CallStage::Waits),
            Turn::Lead => match self.try_trail_round(member) {
                Some(_) => CallStepped::Goes(CallStage::Looks),
                None => CallStepped::Goes(CallStage::Waits),
            },
        }
    }
}

// What a call tells that came to this.
#[inline(always)]
pub(crate) fn end_of<P: Part>(came: Came<Item<P>>) -> Result<(u64, Reply<Item<P>>), CallError>
    ensures { result ≡ came_to came }
{
    match came {
        Came::Answered(answer) => match answer {
            Answer::Entered(number, reply) => Ok((number, reply)),
            Answer::BookFull => Err(CallError::BookFull),
            Answer::NoMemory => Err(CallError::NoMemory),
            Answer::Refused(refusal) => Err(CallError::Refused(refusal.why())),
        },
        Came::Spent => Err(CallError::Spent),
        Came::Held | Came::Posted => Err(CallError::GaveUp),
    }
}

// The answer that a call has which came to this, or none.
#[inline(always)]
pub(crate) fn answer_of<P: Part>(came: Came<Item<P>>) -> Option<Answer<Item<P>>>
    ensures { result ≡ answer_of came }
{
    match came {
        Came::Answered(answer) => Some(answer),
        Came::Spent | Came::Held | Came::Posted => None,
    }
}
