// A look at the first item under the lock, which takes that out where it is wanted, and else makes no request.
ghost use Rattle.std.specs.Prelude.{◌≡◌, ◌<◌, ◌↔◌, true, length, IfSome, IfNone};
ghost use Rattle.pq_types.specs.declared.journal.TheConstants.{GREATEST_NUMBER};
ghost use Rattle.pq_types.specs.History.{left, is_shut};
ghost use Rattle.leftist_heap.specs.Store.{first_of};
ghost use Rattle.desk_core.specs.Words.{word_number};
ghost use Rattle.announce_board.specs.Tokens.{is_idle};
ghost use Rattle.flat_queue.specs.Turns.{FindsLockHeld};
ghost use Rattle.flat_queue.specs.Looking.{IsWanted, IsFirstWanted, IsLeft, looked_by, LooksFirstBy, FindsNext};

use crate::member::Member;
use crate::queue::Queue;
use crate::settling::law_one_room;
use announce_board::Lead;
use leftist_heap::Store;
use pq_book::Entry;
use pq_types::{Answer, Item, Part, Refusal, Reply, Request};

/// Which items a look takes, by their priorities.
#[derive(Clone, Copy, Debug, PartialEq, Eq)]
pub enum Wanted {
    /// None: it only tells the first one.
    Nothing,
    /// Those whose priority is at most this number.
    UpTo(u64),
    /// All.
    Anything,
}

/// What a look at the first item came to.
#[derive(Clone, Copy, Debug, PartialEq, Eq)]
pub enum Looked<I = Item> {
    /// The journal has this line of a pop, which took this item out: it was wanted.
    Taken(u64, I),
    /// This item is the first, and stays there: it isn't wanted.
    Stays(I),
    /// There is no item, and the queue is open.
    Nothing,
    /// There is no item, and the queue is shut: none comes any more.
    Over,
    /// The journal has no line left for a pop.
    BookFull,
    /// The queue's rules refuse a pop.
    Refused(Refusal),
}

impl<S: Store<Entry<P>>, P: Part> Queue<S, P> {
    /// The idle member looks at the first item, if it finds the lock free: it leads, serves the others where the hint says that
    /// somebody has posted, and takes that item out by a pop of its own where it wants it. Else it makes no request: a look
    /// in vain has no line. Where there is no item it says whether the queue is shut. Where the journal is full it says that,
    /// whatever the first item is. `None` only where it found the lock held. It wakes nobody: its caller does, by `owed_wakes` or `wake_owed` of the `waiters`. Takes memory for the
    /// pushes of others alone, and never waits.
    pub fn take_first(&self, member: &mut Member<S, P>, wanted: Wanted) -> Option<Looked<Item<P>>>
        requires queue { member.old.queue ≡ self.now }
        requires idle { is_idle member.old.pen.standing ≡ true }
        requires few { member.old.pen.posts < GREATEST_NUMBER }
        ensures looks { IfSome result (λ told. LooksFirstBy (word_number P.wide) wanted member.old told member.new) }
        ensures held { IfNone result (FindsLockHeld member.old member.new) }
    {
        law_one_room(member);
        let mut lead = self.lead(member)?;
        let served = self.serve_others(member, &mut lead);
        let Some(left) = left_there(&lead, self.desk.room(), wanted) else {
            let answer = self.release_with(member, lead, Request::Pop, served);
            return Some(looked_by(answer));
        };
        self.release(member, lead);
        Some(left)
    }
}

// What the leader leaves there, where it makes no request; `None` where it is to pop.
pub(crate) fn left_there<S: Store<Entry<P>>, P: Part>(
    lead: &Lead<S, P>,
    room: u64,
    wanted: Wanted,
) -> Option<Looked<Item<P>>>
    ensures some { IfSome result (λ told.
        IsLeft wanted (first_of (left lead.now.book.journal)) (is_shut lead.now.book.journal) told
        × (length lead.now.book.journal < room)) }
    ensures none { IfNone result (length lead.now.book.journal < room
        → IsFirstWanted wanted (first_of (left lead.now.book.journal))) }
{
    if lead.lines() >= room {
        return None;
    }
    left_of(lead.first(), lead.is_shut(), wanted)
}

// The same of the first item, where the journal has a line left.
fn left_of<P: Part>(
    first: Option<Item<P>>,
    is_shut: bool,
    wanted: Wanted,
) -> Option<Looked<Item<P>>>
    ensures some { IfSome result (IsLeft wanted first is_shut) }
    ensures none { IfNone result (IsFirstWanted wanted first) }
{
    match first {
        None if is_shut => Some(Looked::Over),
        None => Some(Looked::Nothing),
        Some(item) if is_wanted(wanted, item.priority.as_u64()) => None,
        Some(item) => Some(Looked::Stays(item)),
    }
}

// What a leader finds that wants nothing.
pub(crate) fn next_there<S: Store<Entry<P>>, P: Part>(
    lead: &Lead<S, P>,
    room: u64,
) -> Looked<Item<P>>
    ensures { FindsNext room lead.now.book.journal result }
{
    if lead.lines() >= room {
        return Looked::BookFull;
    }
    match lead.first() {
        None if lead.is_shut() => Looked::Over,
        None => Looked::Nothing,
        Some(item) => Looked::Stays(item),
    }
}

// Whether an item of this priority is wanted.
fn is_wanted(wanted: Wanted, priority: u64) -> bool
    ensures { result ≡ true ↔ IsWanted wanted priority }
{
    match wanted {
        Wanted::Nothing => false,
        Wanted::UpTo(bound) => priority <= bound,
        Wanted::Anything => true,
    }
}

// What a look comes to that made a pop, which was so answered.
pub(crate) fn looked_by<P: Part>(answer: Answer<Item<P>>) -> Looked<Item<P>>
    ensures { result ≡ looked_by answer }
{
    match answer {
        Answer::Entered(number, reply) => match reply {
            Reply::Got(item) => Looked::Taken(number, item),
            _ => Looked::Nothing,
        },
        Answer::BookFull | Answer::NoMemory => Looked::BookFull,
        Answer::Refused(refusal) => Looked::Refused(refusal.why()),
    }
}
