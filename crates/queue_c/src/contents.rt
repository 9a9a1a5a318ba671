// What a handle holds.
ghost use Rattle.std.specs.Prelude.{◌≡◌, true};
ghost use Rattle.std.specs.Option.{MatchOption};

use crate::boxed_replay::BoxedReplay;
use crate::journal::Journal;
use any_heap::AnyHeap;
use pq_book::Entry;
use queue_pool::{Pool, SharedHandle};
use queue_texts::Replay;
use std::alloc::Global;

/// The store of a queue: a heap in an array, with the places of tickets or without.
pub type Heap = AnyHeap<Entry<u64>>;

/// An open queue, with its members that nobody has.
pub type QueuePool = Pool<Heap, u64>;

/// A member with a share of its queue.
pub type QueueMember = SharedHandle<Heap, u64>;

/// A journal that is read back from its text.
pub type JournalReplay = Replay<Heap, Global, u64>;

/// What a handle holds.
#[derive(Drop)]
pub enum Contents {
    /// Nothing yet, or nothing any more.
    Vacant,
    Queue(QueuePool),
    /// A member, and the number under which it joined its queue.
    Member(QueueMember, u64),
    Journal(Journal),
    Replay(BoxedReplay),
}

/// What a call came to: its code, and what is then in place of what it was handed.
pub struct CallResult {
    pub code: u32,
    pub held: Contents,
}
