// A member at its queue whose call has no answer yet.
ghost use Rattle.std.specs.Prelude.{◌≡◌, ◌≢◌, ◌<◌, true, false, is_some, Some, IsSome, IfSome, IfNone};
ghost use Rattle.pq_types.specs.Control.{is_answer};
ghost use Rattle.split_grid.specs.Opening.{places_of};
ghost use Rattle.desk_core.specs.Pen.{after_miss};
ghost use Rattle.desk_core.specs.Words.{word_number};
ghost use Rattle.announce_board.specs.Tokens.{is_idle};
ghost use Rattle.announce_board.specs.Asking.{LooksBy};
ghost use Rattle.flat_queue.specs.declared.gate.Turn.TheVariants.{GiveUp};
ghost use Rattle.flat_queue.specs.Members.{HasRoomForAll, StaysAtPlace};
ghost use Rattle.flat_queue.specs.Calling.{WaitsOn, IsTold};
ghost use Rattle.flat_queue.specs.Handles.{Brings, came_to};
ghost use Rattle.flat_queue.specs.Sweeping.{MakesRoundBy};
ghost use Rattle.flat_queue.specs.TrailSweeping.{MakesTrailRoundBy};
ghost use Rattle.flat_queue.specs.Turns.{EndsWaitingBy};

use crate::combining::Round;
use crate::error::CallError;
use crate::gate::Gate;
use crate::handle::Handle;
use crate::member::Member;
use crate::queue::Queue;
use leftist_heap::Store;
use pq_book::Entry;
use pq_types::{Answer, Item, Part, Reply};
use std::marker::Model;
use std::sync::Wait;

/// A member at its queue that waits for the answer to its last post. It goes from thread to thread. A
/// contract sees of it what it sees of its member.
#[derive(Drop)]
pub struct Pending<'q, S: Store<Entry<P>>, P: Part = u32> {
    pub(crate) queue: &'q Queue<S, P>,
    pub(crate) member: Member<S, P>,
}

impl<'q, S: Store<Entry<P>>, P: Part> Model for Pending<'q, S, P> {
    ghost use Rattle.std.specs.Prelude.{◌≡◌, false};
    ghost use Rattle.announce_board.specs.Tokens.{is_idle};
    ghost use Rattle.flat_queue.specs.Members.{Joined};

    ghost Value = { Joined };

    ghost view = { λ p. p.member };

    ghost invariant = { λ p. (p.member.queue ≡ p.queue.now) × (is_idle p.member.pen.standing ≡ false) };
}

/// What a call that may give up comes back with.
#[derive(Drop)]
pub enum Called<'q, S: Store<Entry<P>>, P: Part = u32> {
    /// The request stands in the journal on the line of this number, with this reply.
    Answered(Handle<'q, S, P>, u64, Reply<Item<P>>),
    /// The request has no line, and this is why. Never `GaveUp`.
    Refused(Handle<'q, S, P>, CallError),
    /// The request is posted and not answered yet.
    Pending(Pending<'q, S, P>),
}

// What an answer, or none, makes of a call that was pending.
fn came_back<'q, S: Store<Entry<P>>, P: Part>(
    queue: &'q Queue<S, P>,
    member: Member<S, P>,
    answer: Option<Answer<Item<P>>>,
) -> Called<'q, S, P>
    requires queue { member.queue ≡ queue.now }
    requires idle { is_idle member.pen.standing ≡ is_some answer }
    ensures { result ≡ came_to answer member }
{
    match answer {
        None => Called::Pending(Pending { queue, member }),
        Some(answer) => match answer {
            Answer::Entered(number, reply) => {
                Called::Answered(Handle { queue, member }, number, reply)
            }
            Answer::BookFull => Called::Refused(Handle { queue, member }, CallError::BookFull),
            Answer::NoMemory => Called::Refused(Handle { queue, member }, CallError::NoMemory),
            Answer::Refused(refusal) => {
                Called::Refused(Handle { queue, member }, CallError::Refused(refusal.why()))
            }
        },
    }
}

impl<'q, S: Store<Entry<P>>, P: Part> Pending<'q, S, P> {
    /// The id of the comer.
    pub fn id(&self) -> u64
        ensures { result ≡ self.now.comer.id }
    {
        self.member.id()
    }

    /// The place at which it posts, below n(n + 1)/2 for the n comers of its queue.
    pub fn place(&self) -> u16
        ensures place { result ≡ self.now.pen.place }
        ensures within { result < places_of self.now.queue.comers }
    {
        self.member.place()
    }

    /// How many requests it has made: posted, or carried out itself.
    pub fn posts(&self) -> u64
        ensures { result ≡ self.now.pen.posts }
    {
        self.member.posts()
    }

    /// Looks once, as `Queue::look` does: the handle with the answer, or the call, which is pending
    /// still. After a round of its own, or of one that scanned after the post, the answer is there. A
    /// refusal is `BookFull` (10), or to a push `NoMemory` (9), but never over stores that all have
    /// room for as many items as the journal has lines. Takes no memory, and never waits.
    pub fn look(self) -> Called<'q, S, P>
        ensures stays { Brings (λ _ after. StaysAtPlace self.entry after) result }
        ensures looks { Brings (λ answer after. LooksBy (word_number P.wide) self.entry.pen answer after.pen) result }
        ensures answered { Brings (λ answer _. is_answer self.entry.pen.own ≡ true → IsSome answer) result }
        ensures memory { Brings (λ answer _. HasRoomForAll S.room self.entry.queue → answer ≢ Some Answer.NoMemory) result }
    {
        let Pending { queue, mut member } = self;
        let answer = queue.look(&mut member);
        came_back(queue, member, answer)
    }

    /// Waits for the answer, with the turns that this gate tells, as a call does: the handle with the
    /// answer, or, where the gate gave up, the call, which is pending still. It is refused as by
    /// `look`. A round of its own takes memory for pushes alone.
    pub fn wait<R: Wait, G: Gate>(self, rt: &R, gate: &G) -> Called<'q, S, P>
        ensures told { Brings (λ answer after. IfSome answer (λ a. IsTold self.entry a after)) result }
        ensures waits { Brings (λ answer after. IfNone answer (WaitsOn self.entry after)) result }
        ensures gave_up { Brings (λ answer _. IfNone answer (G.may_answer gate.now self.entry.comer.id GiveUp)) result }
        ensures turns { Brings
            (λ answer after. EndsWaitingBy (word_number P.wide)
            (G.may_answer gate.now self.entry.comer.id) self.entry answer after) result }
        ensures memory { Brings (λ answer _. HasRoomForAll S.room self.entry.queue → answer ≢ Some Answer.NoMemory) result }
    {
        let Pending { queue, mut member } = self;
        let answer = queue.wait(rt, &mut member, gate);
        came_back(queue, member, answer)
    }

    /// One round: it leads, sweeps and releases. `None` only where it found the lock held. Its next
    /// look gives its answer. Takes memory for pushes alone, and never waits.
    pub fn try_round(&mut self) -> Option<Round>
        ensures queue { self.new.queue ≡ self.old.queue }
        ensures round { IfSome result (λ round. MakesRoundBy (word_number P.wide) self.old round.served round.doors self.new) }
        ensures misses { IfNone result (self.new ≡ record self.old { pen = after_miss self.old.pen }) }
    {
        let round = self.queue.try_round(&mut self.member);
        self.queue.waiters().wake_owed();
        round
    }

    /// The same by a trail scan, as the rounds that a call makes: it reads at most 1 + 2m doors where it
    /// finds m places, its own among them. `None` only where it found the lock held. Its next look gives
    /// its answer. Takes memory for pushes alone, and never waits.
    pub fn try_trail_round(&mut self) -> Option<Round>
        ensures queue { self.new.queue ≡ self.old.queue }
        ensures round { IfSome result (λ round.
            MakesTrailRoundBy (word_number P.wide) self.old round.served round.doors self.new) }
        ensures misses { IfNone result (self.new ≡ record self.old { pen = after_miss self.old.pen }) }
    {
        let round = self.queue.try_trail_round(&mut self.member);
        self.queue.waiters().wake_owed();
        round
    }

    /// The member, which waits, of the queue that it was.
    pub fn into_member(self) -> Member<S, P>
        ensures member { result ≡ self.entry }
        ensures waits { is_idle result.pen.standing ≡ false }
    {
        self.member
    }
}
