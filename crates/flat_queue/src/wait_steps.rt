// A look, or a push, under the lock by one that may wait: its entry among those who wait goes, and comes back where it has to wait.
ghost use Rattle.std.specs.Prelude.{◌≡◌, ◌≢◌, ◌<◌, ◌↔◌, true, false, Some, IfSome, IfNone};
ghost use Rattle.pq_types.specs.declared.journal.TheConstants.{GREATEST_NUMBER};
ghost use Rattle.pq_types.specs.declared.answer.Refusal.{Refusal};
ghost use Rattle.wait_list.specs.Waiters.{Leaves, has_number};
ghost use Rattle.pq_book.specs.Book.{limits_of};
ghost use Rattle.desk_core.specs.Pen.{after_change, after_release};
ghost use Rattle.desk_core.specs.Words.{word_number};
ghost use Rattle.announce_board.specs.Slots.{MeetsTerms};
ghost use Rattle.announce_board.specs.Tokens.{IsLeadOf, is_idle};
ghost use Rattle.flat_queue.specs.Members.{HasRoomForAll, pen_of};
ghost use Rattle.flat_queue.specs.Memory.{HasSpareRoom};
ghost use Rattle.flat_queue.specs.Turns.{FindsLockHeld};
ghost use Rattle.flat_queue.specs.WaitSteps.{entered_for, watch_for, wants_for, wants_left, entry_for, room_wants, IsJustFull};
ghost use Rattle.flat_queue.specs.WaitSteps.{LeavesAndLeadsBy, StandsReady, TakesOrWaitsBy, PushesOrWaitsBy, LeavesTheList};

use crate::looking::{Looked, Wanted, left_there, looked_by};
use crate::member::Member;
use crate::others::Served;
use crate::queue::Queue;
use crate::settling::law_one_room;
use announce_board::Lead;
use leftist_heap::Store;
use pq_book::Entry as StoreEntry;
use pq_types::{Answer, Item, Part, Request};
use wait_list::Wants;

/// How one waits whose look takes nothing.
#[derive(Clone, Copy, Debug, PartialEq, Eq)]
pub enum Patience {
    /// Not at all.
    Leaves,
    /// As a thread, for any item.
    Any,
    /// As a listener, for an item whose priority is at most this.
    UpTo(u64),
    /// As a thread, for what is due. It watches for the first item, where nobody does.
    Due,
    /// The same, by an alarm of its own.
    Alarm,
}

/// Whether one is among those who wait.
#[derive(Clone, Copy, Debug, PartialEq, Eq)]
pub enum Entry {
    /// It is not.
    Out,
    /// It waits until it is woken.
    Waits,
    /// It waits, and comes back by itself when the first item is due that its look saw.
    Watches,
}

/// How one waits for room.
#[derive(Clone, Copy, Debug, PartialEq, Eq)]
pub enum RoomWait {
    /// As a thread.
    Sleeps,
    /// As a listener.
    Listens,
}

/// What a push comes to that may wait for room.
#[derive(Clone, Copy, Debug, PartialEq, Eq)]
pub enum PushedOr<I = Item> {
    /// It was carried out, and this is the answer.
    Answered(Answer<I>),
    /// The queue is full, and the one that pushes waits for room.
    Waits,
}

impl<S: Store<StoreEntry<P>>, P: Part> Queue<S, P> {
    /// The idle member takes the entry of this number, below 64, out of those who wait, where there is one, and looks at the first
    /// item as `take_first` does, all under one lock, if it finds that free. Where it takes nothing, the journal is not full and the
    /// queue not over, it enters again under this number, after all others, as its patience says: so nothing comes between the look and
    /// the wait. What the look came to, and whether one of this number waits then. `None` only where it found the lock held, and
    /// nothing was done. Whom its release woke it hands out by `take_wakes`. Takes memory for the pushes of others alone, and never
    /// waits.
    pub fn take_or_wait(
        &self,
        member: &mut Member<S, P>,
        number: u8,
        wanted: Wanted,
        patience: Patience,
    ) -> Option<(Looked<Item<P>>, Entry)>
        requires queue { member.old.queue ≡ self.now }
        requires idle { is_idle member.old.pen.standing ≡ true }
        requires few { member.old.pen.posts < GREATEST_NUMBER }
        requires below { number < 64 }
        ensures takes { IfSome result (λ told.
            TakesOrWaitsBy (word_number P.wide) number wanted patience member.old told.0 told.1 member.new) }
        ensures held { IfNone result (FindsLockHeld member.old member.new) }
    {
        law_one_room(member);
        let (lead, served) = self.lead_out(member, number)?;
        let Some(left) = left_there(&lead, self.desk.room(), wanted) else {
            let answer = self.release_with(member, lead, Request::Pop, served);
            return Some((looked_by(answer), Entry::Out));
        };
        let wants = wants_left(&lead, left, patience);
        self.enter_and_release(member, lead, number, wants);
        Some((left, entry_for(wants)))
    }

    /// The idle member takes the entry of this number, below 64, out of those who wait, where there is one, and carries a push out,
    /// all under one lock, if it finds that free. Where nothing but its bound refuses the push, it enters again under this number,
    /// after all others, as one who waits for room, and makes no request; so a push is never refused as `Full`. `None` only where it
    /// found the lock held, and nothing was done. Whom its release woke it hands out by `take_wakes`. Takes memory for pushes alone,
    /// and never waits.
    pub fn push_or_wait(
        &self,
        member: &mut Member<S, P>,
        number: u8,
        item: Item<P>,
        wait: RoomWait,
    ) -> Option<PushedOr<Item<P>>>
        requires queue { member.old.queue ≡ self.now }
        requires idle { is_idle member.old.pen.standing ≡ true }
        requires few { member.old.pen.posts < GREATEST_NUMBER }
        requires below { number < 64 }
        ensures pushes { IfSome result (λ told.
            PushesOrWaitsBy (word_number P.wide) number item wait member.old told member.new) }
        ensures never_full { result ≢ Some (PushedOr.Answered (Answer.Refused Refusal.Full)) }
        ensures memory { HasRoomForAll S.room self.now → result ≢ Some (PushedOr.Answered Answer.NoMemory) }
        ensures spare { HasSpareRoom S.room member.new.pen.known → result ≢ Some (PushedOr.Answered Answer.NoMemory) }
        ensures held { IfNone result (FindsLockHeld member.old member.new) }
    {
        law_one_room(member);
        let (lead, served) = self.lead_out(member, number)?;
        if is_just_full(&lead, self.desk.room()) {
            self.enter_and_release(member, lead, number, Some(room_wants(wait)));
            return Some(PushedOr::Waits);
        }
        let answer = self.release_with(member, lead, Request::Push(item), served);
        Some(PushedOr::Answered(answer))
    }

    /// Those whose bits are set in the mask are among those who wait no more, if the member finds the lock free: whether it did.
    /// Else nothing was done. It answers nobody. Whom its release woke it hands out by `take_wakes`. Takes no memory, and never waits.
    pub fn leave(&self, member: &mut Member<S, P>, numbers: u64) -> bool
        requires queue { member.old.queue ≡ self.now }
        ensures left { result ≡ true → LeavesTheList numbers member.old member.new }
        ensures held { result ≡ false → FindsLockHeld member.old member.new }
    {
        let Some(lead) = self.lead(member) else {
            return false;
        };
        let lead = self.desk.leave_all(&mut member.pen, lead, numbers);
        self.release(member, lead);
        true
    }

    // The member leads, serves the others, and takes the entry of this number out of those who wait.
    fn lead_out(&self, member: &mut Member<S, P>, number: u8) -> Option<(Lead<S, P>, Served)>
        requires queue { member.old.queue ≡ self.now }
        ensures leads { IfSome result (λ led. LeavesAndLeadsBy (word_number P.wide) number member.old member.new) }
        ensures lead { IfSome result (λ led. IsLeadOf (pen_of member.new) led.0) }
        ensures terms { IfSome result (λ led. MeetsTerms self.now.terms led.0.book) }
        ensures gone { IfSome result (λ led. has_number number member.new.pen.waiters ≡ false) }
        ensures ready { IfSome result (λ led. StandsReady member.old member.new) }
        ensures held { IfNone result (FindsLockHeld member.old member.new) }
    {
        let mut lead = self.lead(member)?;
        let served = self.serve_others(member, &mut lead);
        let lead = self.take_out(member, lead, number);
        Some((lead, served))
    }

    // The leader takes the entry of this number out of those who wait.
    fn take_out(&self, member: &mut Member<S, P>, lead: Lead<S, P>, number: u8) -> Lead<S, P>
        requires queue { member.old.queue ≡ self.now }
        requires lead { IsLeadOf (pen_of member.old) lead }
        ensures lead { IsLeadOf (pen_of member.new) result }
        ensures limits { limits_of result.book ≡ limits_of lead.book }
        ensures gone { has_number number member.new.pen.waiters ≡ false }
        ensures after { member.new ≡ record member.old { pen = after_change member.old.pen (Leaves number) } }
    {
        let (lead, _) = self.desk.leave(&mut member.pen, lead, number);
        lead
    }

    // The leader enters under this number, where it waits for anything, and releases.
    fn enter_and_release(
        &self,
        member: &mut Member<S, P>,
        lead: Lead<S, P>,
        number: u8,
        wants: Option<Wants>,
    )
        requires queue { member.old.queue ≡ self.now }
        requires lead { IsLeadOf (pen_of member.old) lead }
        requires below { number < 64 }
        requires apart { has_number number member.old.pen.waiters ≡ false }
        ensures { member.new ≡ record member.old { pen = after_release (entered_for number wants member.old.pen) } }
    {
        match wants {
            None => self.release(member, lead),
            Some(wants) => {
                let lead = self.desk.wait(&mut member.pen, lead, number, wants);
                self.release(member, lead);
            }
        }
    }
}

// What one of this patience waits for, whose look leaves this there.
fn wants_left<S: Store<StoreEntry<P>>, P: Part>(
    lead: &Lead<S, P>,
    left: Looked<Item<P>>,
    patience: Patience,
) -> Option<Wants>
    ensures { result ≡ wants_left patience left lead.now.book.waiters }
{
    match left {
        Looked::Stays(item) => wants_for(lead, Some(item.priority.as_u64()), patience),
        Looked::Nothing => wants_for(lead, None, patience),
        _ => None,
    }
}

// The same by the priority of the first item, where there is one.
fn wants_for<S: Store<StoreEntry<P>>, P: Part>(
    lead: &Lead<S, P>,
    first: Option<u64>,
    patience: Patience,
) -> Option<Wants>
    ensures { result ≡ wants_for patience first lead.now.book.waiters }
{
    match patience {
        Patience::Leaves => None,
        Patience::Any => Some(Wants::Any),
        Patience::UpTo(bound) => Some(Wants::UpTo(bound, first)),
        Patience::Due => Some(Wants::Due(watch_for(lead, first))),
        Patience::Alarm => Some(Wants::Alarm(first)),
    }
}

// The priority of the first item, where nobody watches for it.
fn watch_for<S: Store<StoreEntry<P>>, P: Part>(lead: &Lead<S, P>, first: Option<u64>) -> Option<u64>
    ensures { result ≡ watch_for first lead.now.book.waiters }
{
    match first {
        Some(priority) if lead.is_watched(priority) => None,
        Some(priority) => Some(priority),
        None => None,
    }
}

// Whether one that waits for this comes back by itself.
fn entry_for(wants: Option<Wants>) -> Entry
    ensures { result ≡ entry_for wants }
{
    match wants {
        None => Entry::Out,
        Some(Wants::Due(Some(_)) | Wants::Alarm(_)) => Entry::Watches,
        Some(_) => Entry::Waits,
    }
}

// Whether nothing but its bound refuses a push, at a journal with this room.
fn is_just_full<S: Store<StoreEntry<P>>, P: Part>(lead: &Lead<S, P>, room: u64) -> bool
    requires room { room ≡ lead.now.book.room }
    ensures { result ≡ true ↔ IsJustFull (limits_of lead.now.book) lead.now.book.journal }
{
    let lines = lead.lines();
    let terms = lead.terms();
    lines < room && lines < terms.allowed && !lead.is_shut() && terms.bound <= lead.items()
}

// What one waits for who waits for room.
fn room_wants(wait: RoomWait) -> Wants
    ensures { result ≡ room_wants wait }
{
    match wait {
        RoomWait::Sleeps => Wants::Room,
        RoomWait::Listens => Wants::RoomUp,
    }
}
