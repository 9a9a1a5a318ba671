//! Who waits at a queue, and for what: a list that stands beside the queue's content, under its lock.
//!
//! A thread that finds nothing to take puts itself into the list, and sleeps. Whoever has the lock has the list
//! `settle` before it lets the lock go: that wakes those who could go on, as few as it may, and returns whom. So while
//! the lock is free no thread sleeps beside an item that it could take, unless one that could was woken and has not
//! come back. A woken listener never stands for a thread. A listener that could not take the first item hears of an
//! earlier one, so that it sets its timer anew.
//!
//! - `WaitList::settle`: the list afterwards is `settled`, a function of the list and of what the queue has. It meets
//!   `IsSettled`. The result has the bits of those who were woken.
//! - `laws::law_settled`: no fewer wakes would do, and who came first is woken first.
//! - `laws::law_every_run`: what holds after every list of events.
//!
//! Nothing here knows of threads: a caller has the lock, and delivers the wakes once it has let it go.
#![tactic(auto)]

pub mod group;
pub mod laws;
pub mod list;
pub mod stock;
pub mod waiter;
pub mod waking;

pub use group::Group;
pub use list::{MOST_WAITERS, WaitList};
pub use stock::Stock;
pub use waiter::{Waiter, Wants};
