// How a member carries several requests of its own out under one lock: a batch, whose lines stand together in the journal.
ghost use Rattle.std.specs.Prelude.{◌≡◌, ◌≢◌, ◌↔◌, ◌+◌, ◌≤◌, ◌<◌, true, false, length, take, Some, None, IfSome, IfNone, IfOk, IfErr};
ghost use Rattle.std.specs.List.{All};
ghost use Rattle.pq_types.specs.declared.journal.TheConstants.{GREATEST_NUMBER};
ghost use Rattle.pq_types.specs.History.{left};
ghost use Rattle.pq_book.specs.Book.{AllHaveRoom, limits_of};
ghost use Rattle.leftist_heap.specs.Store.{first_of};
ghost use Rattle.desk_core.specs.Words.{word_number};
ghost use Rattle.announce_board.specs.Slots.{MeetsTerms};
ghost use Rattle.announce_board.specs.Tokens.{IsLeadOf, is_idle};
ghost use Rattle.flat_queue.specs.Members.{HasRoomForAll, pen_of};
ghost use Rattle.flat_queue.specs.Turns.{FindsLockHeld};
ghost use Rattle.flat_queue.specs.Batches.{AppliesBatch, ReleasesBatch, CarriesOutBatchBy, MissesThenBatchBy};
ghost use Rattle.flat_queue.specs.Batches.{EntersTogether, IsPushAt, IsPop, pushes_of, pops_of, in_one_batch, is_first_due};
ghost use Rattle.flat_queue.specs.Batches.{IsNoEntry, why_of};
ghost use Rattle.flat_queue.specs.Looking.{FindsNext};

use crate::error::CallError;
use crate::handle::Handle;
use crate::looking::{Looked, next_there};
use crate::member::Member;
use crate::others::Served;
use crate::queue::Queue;
use announce_board::{Desk, Lead, Pen};
use leftist_heap::Store;
use pq_book::Entry;
use pq_types::{Answer, Item, Part};
use std::sync::Wait;

/// How many requests one batch carries out at most, as all others wait meanwhile: what is left is its caller's next batch.
pub const MOST_BATCH: usize = 4_096;

/// What a batch came to.
#[derive(Clone, Copy, Debug, PartialEq, Eq)]
pub struct Batch {
    /// How many of its requests were entered: the first ones.
    pub done: usize,
    /// The number of the first one's journal line; each further one has the next.
    pub first: u64,
    /// Why the next request was refused, where one was.
    pub refused: Option<CallError>,
}

/// What a batch of pops came to, and what it leaves.
#[derive(Clone, Copy, Debug, PartialEq, Eq)]
pub struct Popped<I = Item> {
    pub batch: Batch,
    /// What a look finds after it that wants nothing: the first item of those that stay, that none stays, and whether the queue is
    /// shut then, or that the journal is full.
    pub next: Looked<I>,
}

impl<S: Store<Entry<P>>, P: Part> Queue<S, P> {
    /// Puts the items into the queue under one lock, if the member finds that free: it leads, serves the others where the hint
    /// says that somebody has posted, applies a push of each item until one is refused, and releases. Their lines stand
    /// together in the journal, in the order of the items. Of more than `MOST_BATCH` items it pushes the first so many, and
    /// leaves the rest to its caller. `None` only where it found the lock held: then nothing was done. It wakes nobody: its
    /// caller does, by `owed_wakes` or `wake_owed` of the `waiters`. Takes memory where the store has to grow, and never waits.
    ///
    /// Refusals, which end the batch: `NoMemory` (9), `BookFull` (10) and `Refused`, with `Shut` (51) where the queue is shut: the
    /// next request has no line. `Spent` (11): no serial is left for it.
    pub fn carry_out_pushes(&self, member: &mut Member<S, P>, items: &[Item<P>]) -> Option<Batch>
        requires queue { member.old.queue ≡ self.now }
        requires idle { is_idle member.old.pen.standing ≡ true }
        ensures carries { IfSome result (λ batch. CarriesOutBatchBy (word_number P.wide) member.old
            (pushes_of (take batch.done items.now)) (IsPushAt items.now batch.done) batch member.new) }
        ensures together { IfSome result (λ batch. EntersTogether member.old
            (pushes_of (take batch.done items.now)) batch member.new) }
        ensures memory { HasRoomForAll S.room self.now
            → IfSome result (λ batch. batch.refused ≢ Some CallError.NoMemory) }
        ensures within { IfSome result (λ batch. batch.done ≤ length items.now) }
        ensures whole { IfSome result (λ batch. batch.refused ≡ None → batch.done ≡ in_one_batch (length items.now)) }
        ensures next { IfSome result (λ batch. batch.refused ≢ None → batch.done < in_one_batch (length items.now)) }
        ensures held { IfNone result (FindsLockHeld member.old member.new) }
    {
        let mut lead = self.lead(member)?;
        let served = self.serve_others(member, &mut lead);
        Some(self.push_and_release(member, lead, items, served))
    }

    // The idle leader pushes the items, behind the posts of the others, until one is refused, and releases the lock. It counts as
    // many who wait for an item and may be woken.
    fn push_and_release(
        &self,
        member: &mut Member<S, P>,
        lead: Lead<S, P>,
        items: &[Item<P>],
        _served: Served,
    ) -> Batch
        requires queue { member.old.queue ≡ self.now }
        requires lead { IsLeadOf (pen_of member.old) lead }
        requires terms { MeetsTerms self.now.terms lead.book }
        requires idle { is_idle member.old.pen.standing ≡ true }
        ensures releases { ReleasesBatch member.old (pushes_of (take result.done items.now)) (IsPushAt items.now result.done)
            result member.new }
        ensures memory { HasRoomForAll S.room self.now → result.refused ≢ Some CallError.NoMemory }
        ensures within { result.done ≤ length items.now }
        ensures whole { result.refused ≡ None → result.done ≡ in_one_batch (length items.now) }
        ensures next { result.refused ≢ None → result.done < in_one_batch (length items.now) }
    {
        let first = lead.next_line();
        let most = self.most_posts();
        let (lead, done, refused) = push_each(&self.desk, &mut member.pen, lead, items, most);
        let lines = lead.lines();
        self.desk.release(&mut member.pen, lead);
        self.waiters.count_batch(done, lines, self.desk.room());
        Batch {
            done,
            first,
            refused,
        }
    }

    /// Takes out, under one lock, the first items while their priorities are at most this one, `MOST_BATCH` of them at most, into
    /// as much of the room as they need, if the member finds the lock free, and looks what is first then. What follows them stays,
    /// and has no line. As `carry_out_pushes` otherwise; takes memory for the pushes of others alone, and is never refused
    /// `NoMemory`, but `Spent` whatever the first item is.
    pub fn carry_out_pops(
        &self,
        member: &mut Member<S, P>,
        priority: P,
        into: &mut [Item<P>],
    ) -> Option<Popped<Item<P>>>
        requires queue { member.old.queue ≡ self.now }
        requires idle { is_idle member.old.pen.standing ≡ true }
        ensures slots { length into.new ≡ length into.old }
        ensures carries { IfSome result (λ popped. CarriesOutBatchBy (word_number P.wide) member.old
            (pops_of (take popped.batch.done into.new)) IsPop popped.batch member.new) }
        ensures together { IfSome result (λ popped. EntersTogether member.old
            (pops_of (take popped.batch.done into.new)) popped.batch member.new) }
        ensures memory { IfSome result (λ popped. popped.batch.refused ≢ Some CallError.NoMemory) }
        ensures due { IfSome result (λ popped.
            All (λ x. x.priority ≤ P.number priority) (take popped.batch.done into.new)) }
        ensures within { IfSome result (λ popped. popped.batch.done ≤ length into.old) }
        ensures next { IfSome result (λ popped. popped.batch.refused ≢ None
            → popped.batch.done < in_one_batch (length into.old)) }
        ensures left { IfSome result (λ popped. popped.batch.refused ≡ None
            → popped.batch.done < in_one_batch (length into.old)
            → is_first_due (P.number priority) (first_of (left member.new.pen.known)) ≡ false) }
        ensures found { IfSome result (λ popped. FindsNext self.now.room member.new.pen.known popped.next) }
        ensures held { IfNone result (FindsLockHeld member.old member.new) }
    {
        let mut lead = self.lead(member)?;
        let served = self.serve_others(member, &mut lead);
        Some(self.pop_and_release(member, lead, priority, into, served))
    }

    // The idle leader takes the first items out, behind the posts of the others, looks at the next one, and releases the lock.
    // Where the journal has no line left, it counts all who wait for an item.
    fn pop_and_release(
        &self,
        member: &mut Member<S, P>,
        lead: Lead<S, P>,
        priority: P,
        into: &mut [Item<P>],
        _served: Served,
    ) -> Popped<Item<P>>
        requires queue { member.old.queue ≡ self.now }
        requires lead { IsLeadOf (pen_of member.old) lead }
        requires terms { MeetsTerms self.now.terms lead.book }
        requires idle { is_idle member.old.pen.standing ≡ true }
        ensures slots { length into.new ≡ length into.old }
        ensures releases { ReleasesBatch member.old (pops_of (take result.batch.done into.new)) IsPop result.batch member.new }
        ensures memory { result.batch.refused ≢ Some CallError.NoMemory }
        ensures due { All (λ x. x.priority ≤ P.number priority) (take result.batch.done into.new) }
        ensures within { result.batch.done ≤ length into.old }
        ensures next { result.batch.refused ≢ None → result.batch.done < in_one_batch (length into.old) }
        ensures left { result.batch.refused ≡ None → result.batch.done < in_one_batch (length into.old)
            → is_first_due (P.number priority) (first_of (left member.new.pen.known)) ≡ false }
        ensures found { FindsNext self.now.room member.new.pen.known result.next }
    {
        let first = lead.next_line();
        let most = self.most_posts();
        let pen = &mut member.pen;
        let (lead, done, refused) = pop_each(&self.desk, pen, lead, priority, into, most);
        let lines = lead.lines();
        let next = next_there(&lead, self.desk.room());
        self.desk.release(&mut member.pen, lead);
        self.waiters.count_batch(0, lines, self.desk.room());
        let batch = Batch {
            done,
            first,
            refused,
        };
        Popped { batch, next }
    }

    /// Puts the items into the queue, as `carry_out_pushes` does; the member waits until it has the lock, as a call rests.
    pub fn push_all<R: Wait>(&self, rt: &R, member: &mut Member<S, P>, items: &[Item<P>]) -> Batch
        requires queue { member.old.queue ≡ self.now }
        requires idle { is_idle member.old.pen.standing ≡ true }
        ensures carries { MissesThenBatchBy (word_number P.wide) member.old
            (pushes_of (take result.done items.now)) (IsPushAt items.now result.done) result member.new }
        ensures together { EntersTogether member.old
            (pushes_of (take result.done items.now)) result member.new }
        ensures memory { HasRoomForAll S.room self.now → result.refused ≢ Some CallError.NoMemory }
        ensures within { result.done ≤ length items.now }
        ensures whole { result.refused ≡ None → result.done ≡ in_one_batch (length items.now) }
        ensures next { result.refused ≢ None → result.done < in_one_batch (length items.now) }
    {
        let mut rests = member.rest().of_tries();
        for _ in rt.forever() {
            if let Some(batch) = self.carry_out_pushes(member, items) {
                self.waiters.wake_owed();
                return batch;
            }
            rests.rest(rt, self.joined());
        }
        unreachable!()
    }

    /// Takes the first items out, as `carry_out_pops` does; the member waits until it has the lock, as a call rests.
    pub fn pop_all_up_to<R: Wait>(
        &self,
        rt: &R,
        member: &mut Member<S, P>,
        priority: P,
        into: &mut [Item<P>],
    ) -> Batch
        requires queue { member.old.queue ≡ self.now }
        requires idle { is_idle member.old.pen.standing ≡ true }
        ensures slots { length into.new ≡ length into.old }
        ensures carries { MissesThenBatchBy (word_number P.wide) member.old
            (pops_of (take result.done into.new)) IsPop result member.new }
        ensures together { EntersTogether member.old
            (pops_of (take result.done into.new)) result member.new }
        ensures memory { result.refused ≢ Some CallError.NoMemory }
        ensures due { All (λ x. x.priority ≤ P.number priority) (take result.done into.new) }
        ensures within { result.done ≤ length into.old }
        ensures next { result.refused ≢ None → result.done < in_one_batch (length into.old) }
        ensures left { result.refused ≡ None → result.done < in_one_batch (length into.old)
            → is_first_due (P.number priority) (first_of (left member.new.pen.known)) ≡ false }
    {
        let mut rests = member.rest().of_tries();
        for _ in rt.forever() {
            if let Some(popped) = self.carry_out_pops(member, priority, into) {
                self.waiters.wake_owed();
                return popped.batch;
            }
            rests.rest(rt, self.joined());
        }
        unreachable!()
    }
}

impl<'q, S: Store<Entry<P>>, P: Part> Handle<'q, S, P> {
    /// Puts the items into the queue under one lock, as `Queue::push_all` does: what the batch came to. It waits until it has the
    /// lock, and takes memory where the store has to grow.
    pub fn push_all<R: Wait>(&mut self, rt: &R, items: &[Item<P>]) -> Batch
        ensures carries { MissesThenBatchBy (word_number P.wide) self.old
            (pushes_of (take result.done items.now)) (IsPushAt items.now result.done) result self.new }
        ensures together { EntersTogether self.old
            (pushes_of (take result.done items.now)) result self.new }
        ensures memory { HasRoomForAll S.room self.old.queue → result.refused ≢ Some CallError.NoMemory }
        ensures within { result.done ≤ length items.now }
        ensures whole { result.refused ≡ None → result.done ≡ in_one_batch (length items.now) }
        ensures next { result.refused ≢ None → result.done < in_one_batch (length items.now) }
    {
        self.queue.push_all(rt, &mut self.member, items)
    }

    /// Takes the first items out under one lock while their priorities are at most this one, as `Queue::pop_all_up_to` does, into
    /// as much of the room as they need: what the batch came to. It waits until it has the lock, and takes memory for the pushes
    /// of others alone.
    pub fn pop_all_up_to<R: Wait>(&mut self, rt: &R, priority: P, into: &mut [Item<P>]) -> Batch
        ensures slots { length into.new ≡ length into.old }
        ensures carries { MissesThenBatchBy (word_number P.wide) self.old
            (pops_of (take result.done into.new)) IsPop result self.new }
        ensures together { EntersTogether self.old
            (pops_of (take result.done into.new)) result self.new }
        ensures memory { result.refused ≢ Some CallError.NoMemory }
        ensures due { All (λ x. x.priority ≤ P.number priority) (take result.done into.new) }
        ensures within { result.done ≤ length into.old }
        ensures next { result.refused ≢ None → result.done < in_one_batch (length into.old) }
        ensures left { result.refused ≡ None → result.done < in_one_batch (length into.old)
            → is_first_due (P.number priority) (first_of (left self.new.pen.known)) ≡ false }
    {
        self.queue
            .pop_all_up_to(rt, &mut self.member, priority, into)
    }
}

// The leader applies a push of each item, until one is refused, or no serial is left of so many.
fn push_each<S: Store<Entry<P>>, P: Part>(
    desk: &Desk<S, P>,
    pen: &mut Pen<S, P>,
    lead: Lead<S, P>,
    items: &[Item<P>],
    most: u64,
) -> (Lead<S, P>, usize, Option<CallError>)
    requires table { pen.old.table ≡ desk.now.table }
    requires lead { IsLeadOf pen.old lead }
    requires idle { is_idle pen.old.state.standing ≡ true }
    requires most { most ≤ GREATEST_NUMBER }
    ensures table { pen.new.table ≡ pen.old.table }
    ensures place { pen.new.state.place ≡ pen.old.state.place }
    ensures room { pen.new.state.room ≡ pen.old.state.room }
    ensures lead { IsLeadOf pen.new result.0 }
    ensures limits { limits_of result.0.book ≡ limits_of lead.book }
    ensures applies { AppliesBatch (limits_of lead.book) most (IsPushAt items.now result.1) pen.old.state
        (pushes_of (take result.1 items.now)) result.2 pen.new.state }
    ensures memory { AllHaveRoom S.room pen.old.state.room → result.2 ≢ Some CallError.NoMemory }
    ensures within { result.1 ≤ length items.now }
    ensures whole { result.2 ≡ None → result.1 ≡ in_one_batch (length items.now) }
    ensures next { result.2 ≢ None → result.1 < in_one_batch (length items.now) }
{
    let end = bounded(items.len());
    let tries = in_serials(pen.posts(), most, end);
    let (lead, done, refused) = desk.apply_pushes(pen, lead, items, tries);
    let spent = is_spent(done, end, pen.posts(), most);
    (lead, done, why_refused(refused, spent))
}

// The leader takes the first item out while its priority is at most this one and there is room for it.
fn pop_each<S: Store<Entry<P>>, P: Part>(
    desk: &Desk<S, P>,
    pen: &mut Pen<S, P>,
    lead: Lead<S, P>,
    priority: P,
    into: &mut [Item<P>],
    most: u64,
) -> (Lead<S, P>, usize, Option<CallError>)
    requires table { pen.old.table ≡ desk.now.table }
    requires lead { IsLeadOf pen.old lead }
    requires idle { is_idle pen.old.state.standing ≡ true }
    requires most { most ≤ GREATEST_NUMBER }
    ensures slots { length into.new ≡ length into.old }
    ensures table { pen.new.table ≡ pen.old.table }
    ensures place { pen.new.state.place ≡ pen.old.state.place }
    ensures room { pen.new.state.room ≡ pen.old.state.room }
    ensures lead { IsLeadOf pen.new result.0 }
    ensures limits { limits_of result.0.book ≡ limits_of lead.book }
    ensures applies { AppliesBatch (limits_of lead.book) most IsPop pen.old.state (pops_of (take result.1 into.new)) result.2
        pen.new.state }
    ensures memory { result.2 ≢ Some CallError.NoMemory }
    ensures due { All (λ x. x.priority ≤ P.number priority) (take result.1 into.new) }
    ensures within { result.1 ≤ length into.old }
    ensures next { result.2 ≢ None → result.1 < in_one_batch (length into.old) }
    ensures left { result.2 ≡ None → result.1 < in_one_batch (length into.old)
        → is_first_due (P.number priority) (first_of (left pen.new.state.hand)) ≡ false }
{
    let end = bounded(into.len());
    let tries = in_serials(pen.posts(), most, end);
    let (lead, done, refused) = desk.apply_pops(pen, lead, priority, into, tries);
    let spent = is_spent(done, end, pen.posts(), most);
    (lead, done, why_refused(refused, spent))
}

// How many of so many requests one batch carries out.
fn bounded(requests: usize) -> usize
    ensures is { result ≡ in_one_batch requests }
    ensures within { result ≤ requests }
{
    if requests <= MOST_BATCH {
        requests
    } else {
        MOST_BATCH
    }
}

// How many of so many requests have a serial, where the last one given out is this one, and the greatest is that.
fn in_serials(posts: u64, most: u64, requests: usize) -> usize
    ensures within { result ≤ requests }
    ensures few { 0 < result → posts + result ≤ most }
    ensures whole { result < requests → most ≤ posts + result }
{
    let left = most.saturating_sub(posts);
    if requests as u64 <= left {
        requests
    } else {
        left as usize
    }
}

// Whether a request is left of so many, and no serial for it.
fn is_spent(done: usize, end: usize, posts: u64, most: u64) -> bool
    ensures { result ≡ true ↔ ((done < end) × (most ≤ posts)) }
{
    done < end && posts >= most
}

// Why a batch ended: the answer by which its next request was refused, or that no serial was left for it.
fn why_refused<P: Part>(refused: Option<Answer<Item<P>>>, spent: bool) -> Option<CallError>
    requires { IsNoEntry refused }
    ensures { result ≡ why_of refused spent }
{
    match refused {
        None if spent => Some(CallError::Spent),
        None => None,
        Some(answer) => match answer {
            Answer::Entered(_, _) => unreachable!(),
            Answer::BookFull => Some(CallError::BookFull),
            Answer::NoMemory => Some(CallError::NoMemory),
            Answer::Refused(refusal) => Some(CallError::Refused(refusal.why())),
        },
    }
}
