// A member with a share of its queue.
ghost use Rattle.std.specs.Prelude.{◌≡◌, ◌≢◌, ◌<◌, false, length, Ok, Err, OnOk, IfErr, IfSome, IfNone};
ghost use Rattle.std.specs.Arc.{arc_value};
ghost use Rattle.split_grid.specs.Opening.{places_of};
ghost use Rattle.desk_core.specs.Pen.{after_miss};
ghost use Rattle.desk_core.specs.Words.{word_number};
ghost use Rattle.announce_board.specs.Tokens.{is_idle};
ghost use Rattle.flat_queue.specs.Limits.{most_posts};
ghost use Rattle.flat_queue.specs.Members.{HasRoomForAll};
ghost use Rattle.flat_queue.specs.Memory.{HasSpareRoom};
ghost use Rattle.flat_queue.specs.Settling.{Archives, SettlesBy};
ghost use Rattle.flat_queue.specs.TrailSweeping.{MakesTrailRoundBy};
ghost use Rattle.queue_pool.specs.Shared.{MayCall, UndoneBy, PostsBy, SeesBy, TriesFirstBy, TriesPushesBy, TriesPopsBy};
ghost use Rattle.queue_pool.specs.Shared.{TriesCallBy, TriesCountBy, TriesPeekBy, TriesTicketBy, TriesRemovalBy, TriesMoveBy, TriesShutBy};

use flat_queue::{
    ArchiveError, Batch, Counts, Looked, Member, Peeked, Popped, Queue, Round, Wanted,
};
use leftist_heap::{Store, TicketStore};
use pq_book::Entry;
use pq_types::{Answer, Item, Line, Part, Request, Ticketed};
use std::alloc::{Allocator, Global};
use std::marker::Model;
use std::sync::Arc;

/// A member with a share of its queue, for a thread that may outlive whoever opened the queue. It is
/// idle, or waits for the answer to its last post, and its calls see which: where a `Handle` and a
/// `Pending` say it by their types, this says it when it runs. It leads within its calls alone. A contract sees of it what it
/// sees of its member.
#[derive(Drop)]
pub struct SharedHandle<S: Store<Entry<P>>, P: Part = u32> {
    pub(crate) queue: Arc<Queue<S, P>, Global>,
    pub(crate) member: Member<S, P>,
    pub(crate) most: u64,
}

impl<S: Store<Entry<P>>, P: Part> Model for SharedHandle<S, P> {
    ghost use Rattle.std.specs.Prelude.{◌≡◌, false};
    ghost use Rattle.std.specs.Arc.{arc_value};
    ghost use Rattle.flat_queue.specs.Limits.{most_posts};
    ghost use Rattle.flat_queue.specs.Members.{Joined};

    ghost Value = { Joined };

    ghost view = { λ h. h.member };

    ghost invariant = { λ h. (h.member.queue ≡ arc_value h.queue) × (h.member.pen.leading ≡ false)
        × (h.most ≡ most_posts h.member.queue.room) };
}

/// Why a call did nothing, or has no answer yet.
#[derive(Clone, Copy, Debug, PartialEq, Eq)]
pub enum Undone {
    /// No request is out.
    Idle,
    /// The last request is not answered yet.
    Waits,
    /// All serials have been used.
    Spent,
    /// Another leads.
    LockHeld,
    /// It made a round, which answers its request: the next look has the answer.
    Led,
}

impl<S: Store<Entry<P>>, P: Part> SharedHandle<S, P> {
    // The member of this queue, which does not lead, with the share.
    pub(crate) fn of(queue: Arc<Queue<S, P>, Global>, member: Member<S, P>) -> SharedHandle<S, P>
        requires queue { member.queue ≡ arc_value queue }
        requires led_not { member.pen.leading ≡ false }
        ensures { result ≡ member }
    {
        let most = queue.most_posts();
        SharedHandle {
            queue,
            member,
            most,
        }
    }

    /// The place at which it posts, below n(n + 1)/2 for the n comers of its queue.
    pub fn place(&self) -> u16
        ensures place { result ≡ self.now.pen.place }
        ensures within { result < places_of self.now.queue.comers }
    {
        self.member.place()
    }

    /// Whether it waits for no answer.
    pub fn is_idle(&self) -> bool
        ensures { result ≡ is_idle self.now.pen.standing }
    {
        self.member.is_idle()
    }

    // Whether the last request is answered, and a serial left.
    #[inline(always)]
    pub(crate) fn may_call(&self) -> Result<(), Undone>
        ensures may { OnOk result (MayCall self.now) }
        ensures undone { IfErr result (λ why. UndoneBy why self.now self.now × (why ≢ Undone.LockHeld)) }
    {
        if !self.member.is_idle() {
            return Err(Undone::Waits);
        }
        if self.member.posts() >= self.most {
            return Err(Undone::Spent);
        }
        Ok(())
    }

    /// Posts a request, in one step, and a push in one more for each word of its item, where the last one is
    /// answered and not all serials are spent. Takes no memory, and never waits.
    pub fn post(&mut self, request: Request<Item<P>>) -> Result<(), Undone>
        ensures { PostsBy (word_number P.wide) self.old request result self.new }
    {
        if let Err(why) = self.may_call() {
            return Err(why);
        }
        self.queue.post(&mut self.member, request);
        Ok(())
    }

    /// Looks at its record, where a request is out, as `Queue::look` does: the number of a line is not
    /// above the room of the journal. Takes no memory, and never waits.
    pub fn look(&mut self) -> Result<Answer<Item<P>>, Undone>
        ensures { SeesBy (word_number P.wide) self.old result self.new }
    {
        if self.member.is_idle() {
            return Err(Undone::Idle);
        }
        let Some(answer) = self.queue.look(&mut self.member) else {
            return Err(Undone::Waits);
        };
        Ok(answer)
    }

    /// Carries the request out itself, where the last one is answered, not all serials are spent, and it finds the lock free, as
    /// `Queue::carry_out` does. Takes memory for pushes alone, and never waits.
    #[inline(always)]
    pub fn try_call(&mut self, request: Request<Item<P>>) -> Result<Answer<Item<P>>, Undone>
        ensures tries { TriesCallBy (word_number P.wide) self.old request result self.new }
        ensures memory { HasRoomForAll S.room self.old.queue → result ≢ Ok Answer.NoMemory }
        ensures spare { HasSpareRoom S.room self.new.pen.known → result ≢ Ok Answer.NoMemory }
    {
        if let Err(why) = self.may_call() {
            return Err(why);
        }
        if let Some(told) = self.queue.carry_out(&mut self.member, request) {
            return Ok(told);
        }
        Err(Undone::LockHeld)
    }

    /// Puts the items into the queue itself under one lock, where the last request is answered and it finds the lock free, as
    /// `Queue::carry_out_pushes` does: one of a queue that is shut is refused. Takes memory where the store has to grow, and never waits.
    pub fn try_push_all(&mut self, items: &[Item<P>]) -> Result<Batch, Undone>
        ensures { TriesPushesBy (word_number P.wide) self.old items.now result self.new }
    {
        if !self.member.is_idle() {
            return Err(Undone::Waits);
        }
        let Some(batch) = self.queue.carry_out_pushes(&mut self.member, items) else {
            return Err(Undone::LockHeld);
        };
        Ok(batch)
    }

    /// Takes the first items out itself under one lock while their priorities are at most this one, into as much of the room as
    /// they need, and looks what is first then, where the last request is answered and it finds the lock free, as
    /// `Queue::carry_out_pops` does. Takes memory for the pushes of others alone, and never waits.
    pub fn try_pop_all_up_to(
        &mut self,
        priority: P,
        into: &mut [Item<P>],
    ) -> Result<Popped<Item<P>>, Undone>
        ensures slots { length into.new ≡ length into.old }
        ensures tries { TriesPopsBy (word_number P.wide) (P.number priority) self.old into.new result self.new }
    {
        if !self.member.is_idle() {
            return Err(Undone::Waits);
        }
        let Some(popped) = self.queue.carry_out_pops(&mut self.member, priority, into) else {
            return Err(Undone::LockHeld);
        };
        Ok(popped)
    }

    /// Looks at the first item itself, and takes it out where it is wanted, where the last request is answered, not all serials
    /// are spent, and it finds the lock free, as `Queue::take_first` does: a look in vain makes no request. Takes memory for the
    /// pushes of others alone, and never waits.
    pub fn try_take_first(&mut self, wanted: Wanted) -> Result<Looked<Item<P>>, Undone>
        ensures { TriesFirstBy (word_number P.wide) wanted self.old result self.new }
    {
        if let Err(why) = self.may_call() {
            return Err(why);
        }
        let Some(told) = self.queue.take_first(&mut self.member, wanted) else {
            return Err(Undone::LockHeld);
        };
        Ok(told)
    }

    /// Shuts the queue itself for good, where the last request is answered, not all serials are spent, and it finds the lock free, as
    /// `Queue::shut` does: the answer is `Empty`; or `Refused(Shut)` exactly where the queue was shut. Takes memory for the pushes of
    /// others alone, and never waits.
    pub fn try_shut(&mut self) -> Result<Answer<Item<P>>, Undone>
        ensures { TriesShutBy (word_number P.wide) self.old result self.new }
    {
        if let Err(why) = self.may_call() {
            return Err(why);
        }
        let Some(answer) = self.queue.carry_out_shut(&mut self.member) else {
            return Err(Undone::LockHeld);
        };
        Ok(answer)
    }

    /// Counts the items itself, where the last request is answered and it finds the lock free, as `Queue::count_items` does.
    /// Takes memory for the pushes of others alone, and never waits.
    pub fn try_count(&mut self) -> Result<Counts, Undone>
        ensures { TriesCountBy (word_number P.wide) self.old result self.new }
    {
        if !self.member.is_idle() {
            return Err(Undone::Waits);
        }
        let Some(counts) = self.queue.count_items(&mut self.member) else {
            return Err(Undone::LockHeld);
        };
        Ok(counts)
    }

    /// Looks at the first item itself, and leaves it there, where the last request is answered and it finds the lock free, as
    /// `Queue::peek` does. Takes memory for the pushes of others alone, and never waits.
    #[inline(always)]
    pub fn try_peek(&mut self) -> Result<Peeked<Item<P>>, Undone>
        ensures { TriesPeekBy (word_number P.wide) self.old result self.new }
    {
        if !self.member.is_idle() {
            return Err(Undone::Waits);
        }
        let Some(seen) = self.queue.peek(&mut self.member) else {
            return Err(Undone::LockHeld);
        };
        Ok(seen)
    }

    /// One round by a trail scan: it leads, sweeps and releases, as the rounds that a call makes, and reads at most 1 + 2m
    /// doors where it finds m places. `None` only where it found the lock held. Takes memory for pushes alone, and never
    /// waits.
    pub fn try_trail_round(&mut self) -> Option<Round>
        ensures queue { self.new.queue ≡ self.old.queue }
        ensures round { IfSome result (λ round.
            MakesTrailRoundBy (word_number P.wide) self.old round.served round.doors self.new) }
        ensures misses { IfNone result (self.new ≡ record self.old { pen = after_miss self.old.pen }) }
    {
        self.queue.try_trail_round(&mut self.member)
    }

    /// Says that the first so many lines of the journal are archived, and brings the archive, which has these already, up to
    /// date, as `Queue::archive` does: how many lines the journal has. `None` only where it found the lock held.
    /// Takes memory for the archive alone, and never waits.
    pub fn archive<B: Allocator>(
        &mut self,
        archived: u64,
        archive: &mut Vec<Line<P>, B>,
    ) -> Option<Result<u64, ArchiveError>>
        ensures queue { self.new.queue ≡ self.old.queue }
        ensures settles { IfSome result (λ told. SettlesBy archived self.old told self.new) }
        ensures archives { IfSome result
            (Archives self.old.queue.room archived self.new.pen.known archive.old.items archive.new.items) }
        ensures misses { IfNone result (self.new ≡ record self.old { pen = after_miss self.old.pen }) }
        ensures kept { IfNone result (archive.new.items ≡ archive.old.items) }
    {
        self.queue.archive(&mut self.member, archived, archive)
    }

    /// The member, which does not lead, and its share of the queue.
    pub fn into_parts(self) -> (Arc<Queue<S, P>, Global>, Member<S, P>)
        ensures queue { arc_value result.0 ≡ self.queue }
        ensures member { result.1 ≡ self }
        ensures led_not { result.1.pen.leading ≡ false }
    {
        let SharedHandle {
            queue,
            member,
            most: _,
        } = self;
        (queue, member)
    }
}

impl<S: TicketStore<Entry<P>>, P: Part> SharedHandle<S, P> {
    /// Removes the item with this ticket itself, wherever it waits, where the last request is answered, not all serials are
    /// spent, and it finds the lock free, as `Queue::remove` does: the answer is `Got` with the item, or `Empty` where it no
    /// longer waits. Takes memory for the pushes of others alone, and never waits.
    pub fn try_remove(&mut self, ticket: u64) -> Result<Answer<Item<P>>, Undone>
        ensures { TriesRemovalBy (word_number P.wide) ticket self.old result self.new }
    {
        self.try_ticket(Ticketed::remove(ticket))
    }

    /// Moves the item with this ticket to this priority itself, wherever it waits, where the last request is answered, not all
    /// serials are spent, and it finds the lock free, as `Queue::reschedule` does: the answer is `Got` with the item as it was,
    /// and its line is the item's new ticket; or `Empty` where it no longer waits. A queue that is shut carries it out, as
    /// nothing new comes in. Takes memory where the store has to grow, and never waits.
    pub fn try_reschedule(&mut self, ticket: u64, priority: P) -> Result<Answer<Item<P>>, Undone>
        ensures moves { TriesMoveBy (word_number P.wide) ticket (P.number priority) self.old result self.new }
        ensures memory { HasRoomForAll S.room self.old.queue → result ≢ Ok Answer.NoMemory }
        ensures spare { HasSpareRoom S.room self.new.pen.known → result ≢ Ok Answer.NoMemory }
    {
        self.try_ticket(Ticketed::reschedule(ticket, priority))
    }

    /// What `try_remove` and `try_reschedule` do, of which this says the one.
    pub fn try_ticket(&mut self, ticketed: Ticketed<P>) -> Result<Answer<Item<P>>, Undone>
        ensures tries { TriesTicketBy (word_number P.wide) ticketed self.old result self.new }
        ensures memory { HasRoomForAll S.room self.old.queue → result ≢ Ok Answer.NoMemory }
        ensures spare { HasSpareRoom S.room self.new.pen.known → result ≢ Ok Answer.NoMemory }
    {
        if let Err(why) = self.may_call() {
            return Err(why);
        }
        if let Some(answer) = self.queue.carry_out_by_ticket(&mut self.member, ticketed) {
            return Ok(answer);
        }
        Err(Undone::LockHeld)
    }
}
