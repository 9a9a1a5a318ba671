//! The running desk of a combining priority queue (flat combining: Hendler, Incze, Shavit and
//! Tzafrir 2010): threads post requests in publication records, and whoever wins the lock answers
//! them.
//!
//! What the crate promises to the layer above:
//! - The lock word, and a control word and the one or two words of an item for each place lie in one
//!   table, with a slot for the Book. Between any two atomic steps, of whatever threads, words, slot
//!   and what the pens know are those of a desk that meets `desk_core`'s rule (`specs/Rule.antt`):
//!   where the lock word is 0 the Book at home is lawful and holds what its journal leaves.
//! - Each call is exactly the steps of that machine which its name says, and its contract gives the
//!   pen's whole next state by the machine's own functions: what was posted, read and answered,
//!   what it has in hand, and how many steps it has made.
//! - `Desk::try_lead` hands out the Book with the journal that the pen has in hand. This is legal,
//!   begins with that of the pen's last release, and has the calls that the pen has read and at
//!   most the entered answer for which it waits. `Desk::serve` answers the request that stands
//!   posted as the Book does, and no other; `Desk::look` gives an answer to the request that was
//!   posted.
//! - `Desk::apply_pushes` and `Desk::apply_pops` carry out a batch of the leader's own requests, a step for each, and post nothing.
//!   The leader goes on leading: the Book in its hand has their lines. Between two of them the Book lies in its slot.
//!   `Desk::release_with` frees the lock with one request: the Book that goes home has its line. `Desk::release_by_ticket` frees
//!   it so with a removal or a move of an item by its ticket, and `Desk::release_shut` with a shut of the queue.
//! - The Book decides under the lock whether an operation is refused, and why. `Desk::serve`, the batches
//!   and the releases answer as the journal and the limits that the pen has in hand say, a posted request too. All
//!   of them leave these limits. `Desk::archive` alone, a step of its own, lets the Book allow more lines, by the lines
//!   that it is told are archived. So the Book of each lead meets the desk's terms: it has their bound, and allows as
//!   many lines as they do, or a page more than the most that were archived
//!   (`running::law_running_desks_are_linearizable`).
//! - Who waits stands beside the Book. `Desk::wait`, `Desk::leave` and `Desk::leave_all` change that list, a step each, while the pen
//!   leads. Each release has the Book wake whom it is to wake, as few as it may, and the pen keeps exactly their numbers until
//!   `Desk::take_wakes` hands them out. So no thread sleeps beside an item that it could take while the lock is free, unless one
//!   that could was woken and has not come back (`running::law_running_desks_are_linearizable`).
//! - `Desk::note` writes a note of the journal, which another pen of the desk may `Desk::hear`, in any thread: then each
//!   later line of that pen is behind the journal that the note tells, which has all calls of the writer.
//! - A pen that leads may draft, post and look meanwhile: its lead stays its own (`leading::law_leads_stay`).
//! - Over stores that all have room for as many items as the journal has lines, `Desk::serve`, `Desk::apply_pushes` and
//!   `Desk::release_with` give no `NoMemory`, and `Desk::look` finds none.
//! - `Desk::close` gives the Book of some desk that meets the rule, and `Desk::close_with` one
//!   whose journal has all calls of that pen.
//! - `Desk::put_to_sleep` takes a new pen for a `Sleeper`, which lies anywhere, and for a licence; `Desk::wake` makes it a pen
//!   again for a licence.
//! - `Desk::retire` takes a pen that does not lead for its last testimony. `Desk::close_all`, with a testimony of retired pens that
//!   has a licence for each other pen, is never refused: its Book has the calls of these pens, and no line of another place.
//! - But for the opening only `Desk::serve`, `Desk::apply_pushes`, `Desk::release_with` and `Desk::release_by_ticket` take memory,
//!   for a push or a move alone; and no call waits.
//!
//! That `Desk::serve` tells truly of another pen's post, and that a look finds what another leader
//! answered, is tested and not proved: a contract speaks of its own pen. Nothing is said of time,
//! of fairness, or that other threads go on.
#![tactic(auto)]

mod applying;
mod archiving;
mod asking;
mod batching;
mod boxed_book;
mod by_ticket;
mod closing;
pub mod desk;
pub mod error;
mod item_words;
mod laws;
pub mod leading;
mod locking;
pub mod notes;
mod opening;
mod own_request;
mod rule;
pub mod running;
mod serving;
mod shutting;
pub mod sleeping;
pub mod terms;
pub mod testimony;
pub mod tokens;
mod waiting;
mod words;

pub use desk::Desk;
pub use error::{DeskError, LockHeld};
pub use notes::Note;
pub use sleeping::Sleeper;
pub use terms::Terms;
pub use testimony::Testimony;
pub use tokens::{Lead, Pen};
