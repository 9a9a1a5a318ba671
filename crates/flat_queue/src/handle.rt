// An idle member at its queue.
ghost use Rattle.std.specs.Prelude.{◌≡◌, ◌≢◌, ℕ, ◌*◌, ◌≤◌, ◌<◌, ◌↔◌, ⊤, true, false, length, Some, IfSome, IfNone, IsErrOf};
ghost use Rattle.split_core.specs.declared.places.TheConstants.{MAX_COMERS};
ghost use Rattle.split_grid.specs.Opening.{places_of};
ghost use Rattle.split_grid.specs.Ways.{GoesOn};
ghost use Rattle.pq_types.specs.declared.request.Request.TheVariants.{Push, Pop, Least};
ghost use Rattle.pq_types.specs.declared.answer.Reply.TheVariants.{Pushed};
ghost use Rattle.desk_core.specs.Pen.{after_miss, after_release};
ghost use Rattle.desk_core.specs.Words.{word_number};
ghost use Rattle.announce_board.specs.Tokens.{IsLeadOf, is_idle};
ghost use Rattle.announce_board.specs.Asking.{asked_by, IsFullFor};
ghost use Rattle.announce_board.specs.Serving.{Wins};
ghost use Rattle.announce_board.specs.Slots.{MeetsTerms};
ghost use Rattle.flat_queue.specs.declared.gate.Turn.TheVariants.{GiveUp};
ghost use Rattle.flat_queue.specs.Members.{Joins, HasRoomForAll, StaysAtPlace, pen_of};
ghost use Rattle.flat_queue.specs.Calling.{MakesCall, PostsAndWaitsBy, WaitsForBy, popped, found_first};
ghost use Rattle.flat_queue.specs.OwnRequest.{EntersAtOnceBy, EntersOrWaitsBy};
ghost use Rattle.flat_queue.specs.UpTo.{PopsUpToBy};
ghost use Rattle.flat_queue.specs.Turns.{FindsLockHeld};
ghost use Rattle.flat_queue.specs.Limits.{most_posts};
ghost use Rattle.flat_queue.specs.Memory.{HasSpareRoom};
ghost use Rattle.flat_queue.specs.Handles.{EndsCall, member_of, refusal_of, told};
ghost use Rattle.flat_queue.specs.Settling.{Archives, Settles, SettlesBy};
ghost use Rattle.flat_queue.specs.Sweeping.{MakesRoundBy};
ghost use Rattle.flat_queue.specs.TrailSweeping.{MakesTrailRoundBy};

use crate::combining::Round;
use crate::error::{ArchiveError, CallError};
use crate::gate::Gate;
use crate::member::{Member, Newcomer};
use crate::pending::{Called, Pending};
use crate::queue::Queue;
use crate::up_to::UpTo;
use announce_board::Lead;
use leftist_heap::Store;
use pq_book::Entry;
use pq_types::{Item, Line, Part, Reply, Request};
use std::alloc::Allocator;
use std::marker::Model;
use std::sync::Wait;

/// An idle member at its queue, which it can't be taken from: so its calls are told no queue, and a
/// loop of them has no more to prove than what it is for. It goes from thread to thread. At a queue that
/// is shut its pushes are refused, and the takes that heed the end return once nothing is left; its
/// other calls go on. A contract sees of it what it sees of its member.
#[derive(Drop)]
pub struct Handle<'q, S: Store<Entry<P>>, P: Part = u32> {
    pub(crate) queue: &'q Queue<S, P>,
    pub(crate) member: Member<S, P>,
}

impl<'q, S: Store<Entry<P>>, P: Part> Model for Handle<'q, S, P> {
    ghost use Rattle.std.specs.Prelude.{◌≡◌, true};
    ghost use Rattle.announce_board.specs.Tokens.{is_idle};
    ghost use Rattle.flat_queue.specs.Members.{Joined};

    ghost Value = { Joined };

    ghost view = { λ h. h.member };

    ghost invariant = { λ h. (h.member.queue ≡ h.queue.now) × (is_idle h.member.pen.standing ≡ true) };
}

impl<S: Store<Entry<P>>, P: Part> Queue<S, P> {
    /// The newcomer joins, as by `join`: the handle of the member that it becomes. At most 256 steps
    /// whatever the others do. Takes no memory, and never waits.
    pub fn enter(&self, newcomer: Newcomer) -> Handle<'_, S, P>
        requires queue { newcomer.queue ≡ self.now }
        ensures joins { Joins newcomer result }
        ensures way { GoesOn newcomer.comer result.comer }
        ensures bounded { result.comer.steps ≤ 4 * MAX_COMERS }
    {
        let member = self.join(newcomer);
        Handle {
            queue: self,
            member,
        }
    }

    /// The handle of a member of this queue that is idle, as one that has joined step by step. Takes
    /// no memory, and never waits.
    pub fn seat(&self, member: Member<S, P>) -> Handle<'_, S, P>
        requires queue { member.queue ≡ self.now }
        requires idle { is_idle member.pen.standing ≡ true }
        ensures { result ≡ member }
    {
        Handle {
            queue: self,
            member,
        }
    }
}

impl<'q, S: Store<Entry<P>>, P: Part> Handle<'q, S, P> {
    /// The id of the comer.
    pub fn id(&self) -> u64
        ensures { result ≡ self.now.comer.id }
    {
        self.member.id()
    }

    /// The place at which it posts, below n(n + 1)/2 for the n comers of its queue.
    pub fn place(&self) -> u16
        ensures place { result ≡ self.now.pen.place }
        ensures within { result < places_of self.now.queue.comers }
    {
        self.member.place()
    }

    /// How many requests it has made: posted, or carried out itself.
    pub fn posts(&self) -> u64
        ensures { result ≡ self.now.pen.posts }
    {
        self.member.posts()
    }

    /// Puts an item into the queue, as `Queue::push` does: the number of the push's journal line, which is the item's ticket. It
    /// enters at once where it finds the lock free, else it waits, and it takes memory where the store
    /// has to grow. Refusals: `NoMemory` (9), but never over stores that all have room for as many
    /// items as the journal has lines, `BookFull` (10), `Spent` (11), `Refused(Shut)` (51) where the queue is shut.
    pub fn push<R: Wait>(&mut self, rt: &R, item: Item<P>) -> Result<u64, CallError>
        ensures { MakesCall (EntersOrWaitsBy (word_number P.wide)) (λ number. (number, Pushed))
            (HasRoomForAll S.room self.old.queue) self.old (Push item) result self.new }
    {
        self.queue.push(rt, &mut self.member, item)
    }

    /// Takes the first item out of the queue, as `Queue::pop` does: the number of the pop's journal
    /// line, and the item, none where the queue was empty. It enters or waits as `push`, and takes
    /// memory for the pushes of others alone. Refusals: `BookFull` (10), `Spent` (11).
    pub fn pop<R: Wait>(&mut self, rt: &R) -> Result<(u64, Option<Item<P>>), CallError>
        ensures { MakesCall (EntersOrWaitsBy (word_number P.wide))
            (λ told. (told.0, popped told.1)) ⊤ self.old Pop result self.new }
    {
        self.queue.pop(rt, &mut self.member)
    }

    /// The first item of the queue, which stays there: the number of the least's journal line, and
    /// the item, none where the queue was empty. It enters or waits, takes memory and is refused as
    /// `pop`.
    pub fn least<R: Wait>(&mut self, rt: &R) -> Result<(u64, Option<Item<P>>), CallError>
        ensures { MakesCall (EntersOrWaitsBy (word_number P.wide))
            (λ told. (told.0, found_first told.1)) ⊤ self.old Least result self.new }
    {
        self.queue.least(rt, &mut self.member)
    }

    /// Takes the first item out of the queue where its priority is at most this one, and else tells it,
    /// as `Queue::pop_up_to` does: the number of the journal line, and what it found. It waits until it
    /// has the lock, and posts nothing. Refusals: `BookFull` (10), `Spent` (11).
    pub fn pop_up_to<R: Wait>(
        &mut self,
        rt: &R,
        priority: P,
    ) -> Result<(u64, UpTo<Item<P>>), CallError>
        ensures { PopsUpToBy (word_number P.wide) (P.number priority) self.old result self.new }
    {
        self.queue.pop_up_to(rt, &mut self.member, priority)
    }

    /// Carries the request out at once, if it finds the lock free, as `Queue::try_call` does: the
    /// number of the journal line, and the reply. `None` only where it found the lock held. Takes
    /// memory for pushes alone, and never waits. It is refused as `push`.
    pub fn try_call(
        &mut self,
        request: Request<Item<P>>,
    ) -> Option<Result<(u64, Reply<Item<P>>), CallError>>
        ensures queue { self.new.queue ≡ self.old.queue }
        ensures called { IfSome result (λ told.
            MakesCall (EntersAtOnceBy (word_number P.wide)) (λ t. t)
            (HasRoomForAll S.room self.old.queue) self.old request told self.new) }
        ensures spare { HasSpareRoom S.room self.new.pen.known
            → IfSome result (λ told. ¬ (IsErrOf told CallError.NoMemory)) }
        ensures held { IfNone result (FindsLockHeld self.old self.new) }
        ensures few { IfNone result (self.old.pen.posts < most_posts self.old.queue.room) }
    {
        self.queue.try_call(&mut self.member, request)
    }

    /// Any request, as by `Queue::call`: the number of its journal line, and the reply. It waits, takes
    /// memory and is refused as `push`.
    pub fn call<R: Wait>(
        &mut self,
        rt: &R,
        request: Request<Item<P>>,
    ) -> Result<(u64, Reply<Item<P>>), CallError>
        ensures { MakesCall (PostsAndWaitsBy (word_number P.wide)) (λ told. told)
            (HasRoomForAll S.room self.old.queue) self.old request result self.new }
    {
        self.queue.call(rt, &mut self.member, request)
    }

    /// Any request, with the turns that the gate tells while there is no answer, as by
    /// `Queue::call_by`. It waits, takes memory and is refused as `push`: the handle comes back, but
    /// where the gate gave up; then the request stays posted, and what comes back is its pending call.
    pub fn call_by<R: Wait, G: Gate>(
        self,
        rt: &R,
        request: Request<Item<P>>,
        gate: &G,
    ) -> Called<'q, S, P>
        ensures ends { EndsCall (G.may_answer gate.now self.entry.comer.id GiveUp) self.entry request result }
        ensures full { refusal_of result ≡ Some CallError.BookFull → IsFullFor (member_of result).pen }
        ensures spent { (refusal_of result ≡ Some CallError.Spent) ↔ (most_posts self.entry.queue.room ≤ self.entry.pen.posts) }
        ensures turns { self.entry.pen.posts < most_posts self.entry.queue.room
            → WaitsForBy (word_number P.wide) (G.may_answer gate.now self.entry.comer.id) self.entry request (told result)
            (member_of result) }
        ensures memory { HasRoomForAll S.room self.entry.queue → refusal_of result ≢ Some CallError.NoMemory }
    {
        let Handle { queue, mut member } = self;
        match queue.call_by(rt, &mut member, request, gate) {
            Ok((number, reply)) => Called::Answered(Handle { queue, member }, number, reply),
            Err(CallError::GaveUp) => Called::Pending(Pending { queue, member }),
            Err(error) => Called::Refused(Handle { queue, member }, error),
        }
    }

    /// Posts a request, in one step, and a push in one more for each word of its item, and waits for
    /// nothing: the pending call. Takes no memory.
    pub fn post(self, request: Request<Item<P>>) -> Pending<'q, S, P>
        requires few { self.pen.posts < most_posts self.queue.room }
        ensures { (now : ℕ) × (result ≡ record self.entry { pen = asked_by (word_number P.wide) self.entry.pen request now }) }
    {
        let Handle { queue, mut member } = self;
        queue.post(&mut member, request);
        Pending { queue, member }
    }

    /// Leads and releases, and answers nobody: how many lines the journal had meanwhile. `None` only
    /// where it found the lock held. Takes no memory, and never waits.
    pub fn settle(&mut self) -> Option<u64>
        ensures queue { self.new.queue ≡ self.old.queue }
        ensures settles { IfSome result (λ count. Settles self.old count self.new) }
        ensures misses { IfNone result (self.new ≡ record self.old { pen = after_miss self.old.pen }) }
    {
        self.queue.settle(&mut self.member)
    }

    /// Says that the first so many lines of the journal are archived, and brings the archive, which has these already, up to
    /// date, as `Queue::archive` does: how many lines the journal has. `None` only where it found the lock held.
    /// Takes memory for the archive alone, and never waits.
    pub fn archive<B: Allocator>(
        &mut self,
        archived: u64,
        archive: &mut Vec<Line<P>, B>,
    ) -> Option<Result<u64, ArchiveError>>
        ensures queue { self.new.queue ≡ self.old.queue }
        ensures settles { IfSome result (λ told. SettlesBy archived self.old told self.new) }
        ensures archives { IfSome result
            (Archives self.old.queue.room archived self.new.pen.known archive.old.items archive.new.items) }
        ensures misses { IfNone result (self.new ≡ record self.old { pen = after_miss self.old.pen }) }
        ensures kept { IfNone result (archive.new.items ≡ archive.old.items) }
    {
        self.queue.archive(&mut self.member, archived, archive)
    }

    /// One round, for the others' requests: it leads, sweeps and releases. `None` only where it found
    /// the lock held. Takes memory for pushes alone, and never waits.
    pub fn try_round(&mut self) -> Option<Round>
        ensures queue { self.new.queue ≡ self.old.queue }
        ensures round { IfSome result (λ round. MakesRoundBy (word_number P.wide) self.old round.served round.doors self.new) }
        ensures misses { IfNone result (self.new ≡ record self.old { pen = after_miss self.old.pen }) }
    {
        let round = self.queue.try_round(&mut self.member);
        self.queue.waiters().wake_owed();
        round
    }

    /// The same by a trail scan, as the rounds that a call makes: it reads at most 1 + 2m doors where it
    /// finds m places. `None` only where it found the lock held. Takes memory for pushes alone, and never
    /// waits.
    pub fn try_trail_round(&mut self) -> Option<Round>
        ensures queue { self.new.queue ≡ self.old.queue }
        ensures round { IfSome result (λ round.
            MakesTrailRoundBy (word_number P.wide) self.old round.served round.doors self.new) }
        ensures misses { IfNone result (self.new ≡ record self.old { pen = after_miss self.old.pen }) }
    {
        let round = self.queue.try_trail_round(&mut self.member);
        self.queue.waiters().wake_owed();
        round
    }

    /// Tries the lock, in one step: `None` where another leads. Whoever leads releases, or keeps the
    /// Book for good. Takes no memory, and never waits.
    pub fn lead(&mut self) -> Option<Lead<S, P>>
        ensures stays { StaysAtPlace self.old self.new }
        ensures lead { IfSome result (λ lead. IsLeadOf (pen_of self.new) lead) }
        ensures wins { IfSome result (λ lead. Wins self.old.pen lead.book self.new.pen) }
        ensures terms { IfSome result (λ lead. MeetsTerms self.old.queue.terms lead.book) }
        ensures misses { IfNone result (self.new.pen ≡ after_miss self.old.pen) }
    {
        self.queue.lead(&mut self.member)
    }

    /// Puts the Book home and then frees the lock, in one step. Takes no memory, and never waits.
    pub fn release(&mut self, lead: Lead<S, P>)
        requires lead { IsLeadOf (pen_of self.old) lead }
        ensures { self.new ≡ record self.old { pen = after_release self.old.pen } }
    {
        self.queue.release(&mut self.member, lead);
        self.queue.waiters().wake_owed();
    }

    /// The member, which is idle and of the queue that it was: `Queue::close_with` takes it once no
    /// handle is left.
    pub fn into_member(self) -> Member<S, P>
        ensures member { result ≡ self.entry }
        ensures idle { is_idle result.pen.standing ≡ true }
    {
        let Handle { queue: _, member } = self;
        member
    }
}
