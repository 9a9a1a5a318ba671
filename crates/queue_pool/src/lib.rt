//! The members of a queue whose threads come and go: a pool of those that nobody has, and members with a share of
//! their queue, which may outlive whoever opened it.
//!
//! What the crate promises to the layer above:
//! - `SharedHandle` is a member with a share of its queue, idle or waiting, which its calls see:
//!   it posts, looks, leads a round, archives the journal, or carries a request out itself, a batch of pushes or pops, or the shut of
//!   its queue, where it finds the lock free. It counts the items, or peeks at the first one, so without a request. It goes on in
//!   steps with a call that it has posted. It takes an item, or pushes one, or waits for that in the list under the lock
//!   (`take_or_wait`, `push_or_wait`).
//! - `Pool` has the members of a queue that nobody has: it hands out those that came back before it lets a
//!   newcomer join, so that a queue has so many members at once, and not in all its life.
//! - `Pool::close` closes a queue that nobody else shares with all its members, and is never refused once all are back: the
//!   Book has exactly the calls of each idle member, and no line of another place.
//!
//! Only `Pool::of`, an archive, and what carries out a push take memory. No call waits, and none wakes: the caller wakes those
//! in the list by the numbers that `SharedHandle::take_wakes` hands out, and those who sleep in a take by `wake_owed` of the
//! `Queue::waiters`.
#![tactic(auto)]

pub mod calling;
pub mod pool;
pub mod shared;
pub mod waiting;

pub use pool::{NotTaken, Pool, StillOpen};
pub use shared::{SharedHandle, Undone};
