// The members of a queue that nobody has: those that have not joined yet, and those that came back.
ghost use Rattle.std.specs.Prelude.{◌≡◌, ◌+◌, ◌<◌, ◌≤◌, List, ◌++◌, ◌∷◌, [], length};
ghost use Rattle.std.specs.Prelude.{true, false, IfOk, OnOk, IfErr, IfSome, IfNone, Err};
ghost use Rattle.std.specs.List.{All};
ghost use Rattle.std.specs.Arc.{arc_value};
ghost use Rattle.std.specs.Vec.{vec_len, vec_capacity};
ghost use Rattle.std.specs.VecDeque.{deque_len, deque_capacity};
ghost use Rattle.pq_types.specs.Control.{is_answer};
ghost use Rattle.desk_core.specs.Words.{word_number};
ghost use Rattle.flat_queue.specs.Closing.{ClosesAll};
ghost use Rattle.flat_queue.specs.Members.{Joined};
ghost use Rattle.flat_queue.specs.Turns.{LeadsBy, FindsLockHeld};
ghost use Rattle.queue_pool.specs.Pool.{IsIdleAt, WaitsAt, FirstInVainBy, FirstAnsweredBy};
ghost use Rattle.queue_pool.specs.Pool.{AskedInVainBy, FirstToldBy, FirstLedBy, FirstFoundHeld, ComesOutBy};
ghost use Rattle.queue_pool.specs.Pool.{NoneComesBy, TakesOutBy, StaysPool, all_new, inside, lists_of, with_member};
ghost use Rattle.queue_pool.specs.StillOpen.{IsStillOpen};

use crate::shared::SharedHandle;
use flat_queue::{Member, Newcomer, Queue};
use leftist_heap::Store;
use pq_book::{Book, Entry};
use pq_types::Part;
use std::alloc::{AllocError, Global};
use std::collections::VecDeque;
use std::marker::Model;
use std::sync::Arc;

/// The members of a queue that nobody has: the comers that have not joined yet, and the members that
/// came back, so that a queue has as many members at once as it was opened with ids, and not in all its
/// life. What is in the pool is its own, as the language has it: no member is in it twice, or inside and
/// outside at once. A pool has no lock: whoever shares it puts it behind one. It wakes nobody: whoever takes a member
/// out, and whoever calls by it, wakes the numbers that its `take_wakes` hands out.
#[derive(Drop)]
pub struct Pool<S: Store<Entry<P>>, P: Part = u32> {
    queue: Arc<Queue<S, P>, Global>,
    newcomers: VecDeque<Newcomer>,
    idle: Vec<Member<S, P>>,
    waiting: VecDeque<Member<S, P>>,
    // It is empty: at a close it takes in those that have not joined.
    unjoined: Vec<Newcomer>,
    most: usize,
}

impl<S: Store<Entry<P>>, P: Part> Model for Pool<S, P> {
    ghost use Rattle.std.specs.Prelude.{◌≡◌, ◌+◌, ◌≤◌, [], length};
    ghost use Rattle.std.specs.List.{All};
    ghost use Rattle.std.specs.Arc.{arc_value};
    ghost use Rattle.std.specs.Vec.{vec_len, vec_capacity};
    ghost use Rattle.std.specs.VecDeque.{deque_len, deque_capacity};
    ghost use Rattle.queue_pool.specs.Pool.{Pooled, IsIdleAt, WaitsAt};

    ghost Value = { Pooled };

    ghost view = { λ p. record {
      queue = arc_value p.queue;
      newcomers = p.newcomers.items;
      idle = p.idle.items;
      waiting = p.waiting.items;
      most = p.most;
    } };

    ghost invariant = { λ p. All (λ n. n.queue ≡ arc_value p.queue) p.newcomers.items
        × All (IsIdleAt (arc_value p.queue)) p.idle.items × All (WaitsAt (arc_value p.queue)) p.waiting.items
        × (deque_len p.newcomers + vec_len p.idle + deque_len p.waiting ≤ p.most) × (p.most ≤ vec_capacity p.idle)
        × (p.most ≤ deque_capacity p.waiting) × (p.unjoined.items ≡ []) × (p.most ≤ vec_capacity p.unjoined) };
}

/// Why a queue was not closed: here is the pool again.
pub enum StillOpen<S: Store<Entry<P>>, P: Part = u32> {
    /// Not all comers are inside: a member is out, or was dropped there.
    Missing(Pool<S, P>),
    /// All are, and there are other shares of it.
    Shared(Pool<S, P>),
}

/// Why no member comes out of a pool.
#[derive(Clone, Copy, Debug, PartialEq, Eq)]
pub enum NotTaken {
    /// None is idle, no comer is left, and all that wait have looked in vain; the first of these found the lock
    /// held.
    AllOut,
    /// The queue has too many owners.
    TooMany,
}

// Puts an idle member behind the others.
fn put_idle<S: Store<Entry<P>>, P: Part>(
    queue: &Queue<S, P>,
    idle: &mut Vec<Member<S, P>>,
    member: Member<S, P>,
)
    requires here { All (IsIdleAt queue.now) idle.old.items }
    requires is_idle { IsIdleAt queue.now member }
    requires room { vec_len idle.old < vec_capacity idle.old }
    ensures here { All (IsIdleAt queue.now) idle.new.items }
    ensures items { idle.new.items ≡ idle.old.items ++ member ∷ [] }
    ensures len { vec_len idle.new ≡ vec_len idle.old + 1 }
    ensures capacity { vec_capacity idle.new ≡ vec_capacity idle.old }
{
    idle.push_reserved(member);
}

// Puts a member that waits behind the others.
fn put_waiting<S: Store<Entry<P>>, P: Part>(
    queue: &Queue<S, P>,
    waiting: &mut VecDeque<Member<S, P>>,
    member: Member<S, P>,
)
    requires here { All (WaitsAt queue.now) waiting.old.items }
    requires waits { WaitsAt queue.now member }
    requires room { deque_len waiting.old < deque_capacity waiting.old }
    ensures here { All (WaitsAt queue.now) waiting.new.items }
    ensures items { waiting.new.items ≡ waiting.old.items ++ member ∷ [] }
    ensures len { deque_len waiting.new ≡ deque_len waiting.old + 1 }
    ensures capacity { deque_capacity waiting.new ≡ deque_capacity waiting.old }
{
    waiting.push_back_reserved(member);
}

// Asks the member that waits longest for its answer: the member where it has one; else it stands behind the others
// then.
#[tactic(auto, using(crate::proofs::Pooled::all_rest, crate::proofs::Pooled::waits_on))]
fn ask_first<S: Store<Entry<P>>, P: Part>(
    queue: &Queue<S, P>,
    waiting: &mut VecDeque<Member<S, P>>,
) -> Option<Member<S, P>>
    requires here { All (WaitsAt queue.now) waiting.old.items }
    ensures here { All (WaitsAt queue.now) waiting.new.items }
    ensures capacity { deque_capacity waiting.new ≡ deque_capacity waiting.old }
    ensures is_idle { IfSome result (IsIdleAt queue.now) }
    ensures fewer { IfSome result (λ _. deque_len waiting.new + 1 ≡ deque_len waiting.old) }
    ensures as_many { IfNone result (deque_len waiting.new ≡ deque_len waiting.old) }
    ensures told { IfSome result (λ m. FirstAnsweredBy (word_number P.wide) waiting.old.items m waiting.new.items) }
    ensures none { IfNone result (FirstInVainBy (word_number P.wide) waiting.old.items waiting.new.items) }
{
    let mut member = waiting.pop_front()?;
    if queue.look(&mut member).is_some() {
        return Some(member);
    }
    put_waiting(queue, waiting, member);
    None
}

// Asks those that wait for their answers, so many of them: the first that has its answer.
fn first_told<S: Store<Entry<P>>, P: Part>(
    queue: &Queue<S, P>,
    waiting: &mut VecDeque<Member<S, P>>,
    turns: usize,
) -> Option<Member<S, P>>
    requires here { All (WaitsAt queue.now) waiting.old.items }
    ensures here { All (WaitsAt queue.now) waiting.new.items }
    ensures capacity { deque_capacity waiting.new ≡ deque_capacity waiting.old }
    ensures is_idle { IfSome result (IsIdleAt queue.now) }
    ensures fewer { IfSome result (λ _. deque_len waiting.new + 1 ≡ deque_len waiting.old) }
    ensures as_many { IfNone result (deque_len waiting.new ≡ deque_len waiting.old) }
    ensures told { (ahead others : List Joined) → waiting.old.items ≡ ahead ++ others → length ahead ≡ turns
        → IfSome result (λ m. FirstToldBy (word_number P.wide) ahead others m waiting.new.items) }
    ensures none { (ahead others : List Joined) → waiting.old.items ≡ ahead ++ others → length ahead ≡ turns
        → IfNone result (AskedInVainBy (word_number P.wide) ahead others waiting.new.items) }
{
    if turns == 0 {
        return None;
    }
    if let Some(member) = ask_first(queue, waiting) {
        return Some(member);
    }
    first_told(queue, waiting, turns - 1)
}

// The waiting member makes a round, where it finds the lock free: whether it did, and knows its answer then.
#[tactic(auto, using(crate::proofs::Pooled::led_by))]
fn leads<S: Store<Entry<P>>, P: Part>(queue: &Queue<S, P>, member: &mut Member<S, P>) -> bool
    requires waits { WaitsAt queue.now member.old }
    ensures waits { WaitsAt queue.now member.new }
    ensures knows { result ≡ true → is_answer member.new.pen.own ≡ true }
    ensures leads { result ≡ true → LeadsBy (word_number P.wide) member.old member.new }
    ensures held { result ≡ false → FindsLockHeld member.old member.new }
{
    queue.try_trail_round(member).is_some()
}

// Has the member that waits longest make a round, where it finds the lock free: the member, with the answer that it
// finds then; else it stands behind the others.
fn told_by_round<S: Store<Entry<P>>, P: Part>(
    queue: &Queue<S, P>,
    waiting: &mut VecDeque<Member<S, P>>,
) -> Option<Member<S, P>>
    requires here { All (WaitsAt queue.now) waiting.old.items }
    ensures here { All (WaitsAt queue.now) waiting.new.items }
    ensures capacity { deque_capacity waiting.new ≡ deque_capacity waiting.old }
    ensures is_idle { IfSome result (IsIdleAt queue.now) }
    ensures fewer { IfSome result (λ _. deque_len waiting.new + 1 ≡ deque_len waiting.old) }
    ensures as_many { IfNone result (deque_len waiting.new ≡ deque_len waiting.old) }
    ensures led { IfSome result (λ m. FirstLedBy (word_number P.wide) waiting.old.items m waiting.new.items) }
    ensures held { IfNone result (FirstFoundHeld waiting.old.items waiting.new.items) }
{
    let mut leader = waiting.pop_front()?;
    if leads(queue, &mut leader) {
        let _ = queue.look(&mut leader);
        return Some(leader);
    }
    put_waiting(queue, waiting, leader);
    None
}

// The next member: the idle one that came back last, else the first of those that wait that has its answer,
// else the first newcomer, which joins, else one of those that wait, by a round of its own.
fn next<S: Store<Entry<P>>, P: Part>(
    queue: &Queue<S, P>,
    newcomers: &mut VecDeque<Newcomer>,
    idle: &mut Vec<Member<S, P>>,
    waiting: &mut VecDeque<Member<S, P>>,
) -> Option<Member<S, P>>
    requires newcomers { All (λ n. n.queue ≡ queue.now) newcomers.old.items }
    requires idle { All (IsIdleAt queue.now) idle.old.items }
    requires waiting { All (WaitsAt queue.now) waiting.old.items }
    ensures newcomers { All (λ n. n.queue ≡ queue.now) newcomers.new.items }
    ensures idle { All (IsIdleAt queue.now) idle.new.items }
    ensures waiting { All (WaitsAt queue.now) waiting.new.items }
    ensures capacity { (vec_capacity idle.new ≡ vec_capacity idle.old)
        × (deque_capacity waiting.new ≡ deque_capacity waiting.old) }
    ensures fewer { IfSome result (λ _.
        deque_len newcomers.new + vec_len idle.new + deque_len waiting.new + 1
        ≡ deque_len newcomers.old + vec_len idle.old + deque_len waiting.old) }
    ensures as_many { IfNone result (deque_len newcomers.new + vec_len idle.new + deque_len waiting.new
        ≡ deque_len newcomers.old + vec_len idle.old + deque_len waiting.old) }
    ensures is_idle { IfSome result (IsIdleAt queue.now) }
    ensures comes { IfSome result (λ m.
        ComesOutBy (word_number P.wide)
        (record { newcomers = newcomers.old.items; idle = idle.old.items; waiting = waiting.old.items }) m
        (record { newcomers = newcomers.new.items; idle = idle.new.items; waiting = waiting.new.items })) }
    ensures none { IfNone result
        (NoneComesBy (word_number P.wide)
        (record { newcomers = newcomers.old.items; idle = idle.old.items; waiting = waiting.old.items })
        (record { newcomers = newcomers.new.items; idle = idle.new.items; waiting = waiting.new.items })) }
{
    if let Some(member) = idle.pop() {
        return Some(member);
    }
    let turns = waiting.len();
    if let Some(member) = first_told(queue, waiting, turns) {
        return Some(member);
    }
    if let Some(newcomer) = newcomers.pop_front() {
        return Some(queue.join(newcomer));
    }
    told_by_round(queue, waiting)
}

// The items of the one, and behind them those of the other, for all of which the one has room.
fn moved_behind<T: Drop>(mut into: Vec<T>, mut from: VecDeque<T>) -> Vec<T>
    requires room { vec_len into + deque_len from ≤ vec_capacity into }
    ensures { result.items ≡ into.items ++ from.items }
{
    while let Some(item) = from.pop_front() {
        into.push_reserved(item);
    }
    into
}

impl<S: Store<Entry<P>>, P: Part> Pool<S, P> {
    /// The pool of a queue with these newcomers. It takes memory here for all that may come back, and for a close, and
    /// nowhere else.
    pub fn of(
        alloc: Global,
        queue: Arc<Queue<S, P>, Global>,
        newcomers: Vec<Newcomer>,
    ) -> Result<Pool<S, P>, AllocError>
        requires here { All (λ n. n.queue ≡ arc_value queue) newcomers.items }
        ensures { IfOk result (λ pool. pool ≡ all_new (arc_value queue) newcomers.items) }
    {
        let most = newcomers.len();
        let idle = Vec::with_capacity(alloc, most)?;
        let waiting = VecDeque::with_capacity(alloc, most)?;
        let unjoined = Vec::with_capacity(alloc, most)?;
        Ok(Pool {
            queue,
            newcomers: VecDeque::from_vec(newcomers),
            idle,
            waiting,
            unjoined,
            most,
        })
    }

    /// How many comers and members are in the pool.
    pub fn inside(&self) -> usize
        ensures { result ≡ inside self.now }
    {
        self.newcomers.len() + self.idle.len() + self.waiting.len()
    }

    /// How many members are out: those that were taken, and have not come back.
    pub fn out(&self) -> usize
        ensures { result + inside self.now ≡ self.now.most }
    {
        self.most - self.newcomers.len() - self.idle.len() - self.waiting.len()
    }

    /// Takes a member out: an idle one that came back, as it came back; or else the first of those that wait
    /// that finds its answer now; or else the next newcomer, which joins, where all of those have looked in
    /// vain; or else the first of them, which makes a round where it finds the lock free, and so has its answer.
    /// Each comes out idle, with its own place and its own calls. Takes memory for pushes alone, in such a
    /// round, and never waits. Whom such a round wakes the member's `take_wakes` hands out.
    pub fn take(&mut self) -> Result<SharedHandle<S, P>, NotTaken>
        ensures stays { StaysPool self.old self.new }
        ensures taken { IfOk result (λ m. TakesOutBy (word_number P.wide) self.old m self.new) }
        ensures one { IfOk result (λ _. inside self.new + 1 ≡ inside self.old) }
        ensures all_out { result ≡ Err NotTaken.AllOut
            → NoneComesBy (word_number P.wide) (lists_of self.old) (lists_of self.new) }
        ensures too_many { result ≡ Err NotTaken.TooMany → self.new ≡ self.old }
    {
        let Ok(queue) = Arc::try_clone(&self.queue) else {
            return Err(NotTaken::TooMany);
        };
        let Some(member) = next(
            &self.queue,
            &mut self.newcomers,
            &mut self.idle,
            &mut self.waiting,
        ) else {
            return Err(NotTaken::AllOut);
        };
        Ok(SharedHandle::of(queue, member))
    }

    /// Puts a member back that is out: it is the first that comes out again where it is idle, and is
    /// asked for its answer before it does where it waits. It is never refused, takes no memory, and never
    /// waits.
    pub fn give_back(&mut self, member: SharedHandle<S, P>)
        requires queue { member.queue ≡ self.old.queue }
        requires out { inside self.old < self.old.most }
        ensures { self.new ≡ with_member self.old member }
    {
        let (_, member) = member.into_parts();
        if member.is_idle() {
            put_idle(&self.queue, &mut self.idle, member);
        } else {
            put_waiting(&self.queue, &mut self.waiting, member);
        }
    }

    /// Closes the queue with all its members and those comers that have not joined: the Book. Of each idle member it has
    /// exactly the calls, of each that waits at most the entered answer more, and no line of another place. `Missing`, with the
    /// pool as it was, exactly where not all comers are inside: a member is out, or was dropped there. `Shared`, with the pool as
    /// it was, where all are inside, and somebody else shares the queue. Takes no memory, and never waits.
    pub fn close(self) -> Result<Book<S, Global, P>, StillOpen<S, P>>
        ensures ok { IfOk result (ClosesAll self.queue (self.idle ++ self.waiting)) }
        ensures all { OnOk result (inside self ≡ self.queue.comers) }
        ensures err { IfErr result (IsStillOpen self) }
    {
        if self.inside() != self.queue.comers() {
            return Err(StillOpen::Missing(self));
        }
        let Pool {
            queue,
            newcomers,
            idle,
            waiting,
            unjoined,
            most,
        } = self;
        match Arc::try_unwrap(queue) {
            Ok(queue) => {
                let members = moved_behind(idle, waiting);
                Ok(queue.close_all(members, moved_behind(unjoined, newcomers)))
            }
            Err(queue) => Err(StillOpen::Shared(Pool {
                queue,
                newcomers,
                idle,
                waiting,
                unjoined,
                most,
            })),
        }
    }
}
