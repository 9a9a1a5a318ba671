//! The combining priority queue of up to 64 threads, of which nobody has to know which of them will
//! come: the splitter grid gives each that comes a place, at the desk they post, and whoever wins the
//! lock answers all posts that its scan of the grid finds.
//!
//! What the crate promises to the layer above:
//! - `Queue::new` and `Queue::with_store` open a queue for the comers of some ids, or tell which of
//!   the refusals comes first: the ids, the lines, the memory. There is a newcomer for each id, in
//!   order.
//! - `Queue::wide`, `wide_with_store` and `wide_lasting` open one of wide items, whose parts are numbers of 64 bits, as `new`,
//!   `with_store` and `lasting` do of narrow ones. All other calls are the same of either width.
//! - `Queue::limited` opens one of either width with a journal of any `Length`, and with a bound, if it is to have one: the most
//!   items that pushes may leave. Bound and length are the terms of its desk. By them the Book refuses under the lock, and
//!   nothing outside the lock decides it.
//! - `Queue::join` and `Queue::join_step` take a newcomer down the grid. The member has the pen of
//!   the place where it stopped: idle, with no posts and no calls.
//! - `Queue::draft`, `post`, `look`, `lead` and `release` are the steps of a member at its own
//!   place.
//! - `Queue::sweep`, by a member that leads, makes one whole new scan, a step for each door, and
//!   serves each place that it finds. Where the member waits, an answer stands in its own record
//!   then.
//! - `Queue::try_round` leads, sweeps and releases, and answers `None` only where it found the lock
//!   held. A member that waited gets its answer by its next look.
//! - `Queue::sweep_trail` and `Queue::try_trail_round` do the same by a trail scan, which reads only the
//!   doors of the places to which closed doors have led it. The rounds that calls make are these.
//! - `Queue::settle` leads without a sweep, and tells how many lines the journal has.
//! - `Queue::archive` leads so too. It says how many lines are archived, so that the journal may have as many more as memory
//!   keeps, and copies the lines that come next. One that says more lines than the journal has is refused, and nothing changes.
//! - `Queue::try_call` carries a member's own request out where it finds the lock free, and posts
//!   nothing: it leads, serves the others where a hint says that somebody has posted, and releases
//!   the lock with its request. `None` only where it found the lock held. `Queue::carry_out` does so and wakes nobody,
//!   as `Queue::carry_out_up_to`, where the first item chooses the request.
//! - `Queue::call` posts a request and waits until it is answered: the number of its journal line,
//!   and a reply to it; or why there is none (`CallError`). `Queue::call_by` waits as a `Gate` tells
//!   it, which may say to give up.
//! - `Queue::push`, `pop` and `least` enter as `try_call` does, or post and wait as `call` does, and
//!   have replies of types of their own.
//! - `Queue::step_call` makes one step of a call, and never waits: it tries the lock once at most, posts only where it found that
//!   held, and tells how the call ends, or from which stage it goes on. The calls that post are loops over these steps, which
//!   rest between them.
//! - `Queue::pop_up_to` takes the first item out where its priority is at most a bound, and else tells it. It
//!   waits until it has the lock, chooses its request under it, and posts nothing. `Queue::take_first` looks so too, and
//!   makes no request where the first item stays or there is none: a look in vain has no line.
//! - `Queue::remove` removes an item by its ticket, the number of the journal line that put it in, wherever it waits, in a queue
//!   whose stores can (`TicketStore`). `Queue::reschedule` moves it so to another priority, by one line, whose number is its new
//!   ticket. Both wait until they have the lock, and post nothing; `Queue::carry_out_by_ticket` does so where it finds the lock
//!   free, and wakes nobody.
//! - `Queue::take_or_wait` and `push_or_wait` take a member's entry, by its number, out of those who wait in the list beside the heap,
//!   look or push, and enter again where they have to wait: all under one lock, so that nothing comes between. A take enters where
//!   its look takes nothing, as its patience says; a push where nothing but its bound refuses it. `Queue::leave` takes entries out.
//!   Each try finds the lock free, or nothing was done.
//! - Each release wakes whom it is to wake, as few as it may, and the member keeps their numbers: `Member::owes_wakes` says whether
//!   there are any, and `Queue::take_wakes` hands them out, as a mask.
//! - `Queue::count_items` counts the items under the lock, those that wait and the most that waited at once, and makes no
//!   request. `Queue::peek` tells so which item is first, and how many lines the journal has.
//! - `Queue::push_all` puts many items into the queue under one lock, and `Queue::pop_all_up_to` takes many out that are due
//!   at a bound: their lines stand together in the journal. Each makes at most `MOST_BATCH` requests, waits until it
//!   has the lock, and tells how many were entered and what refused the next. `Queue::carry_out_pushes` and
//!   `carry_out_pops` do so where they find the lock free, and wake nobody.
//! - `Queue::take` pops, and where that is in vain looks by `take_first` until it got an item, and sleeps behind each look in
//!   vain until somebody has pushed; `Queue::take_until` does so until a deadline, which ends its wait for the lock too. Only the
//!   pop in vain has a line.
//! - `Queue::step_take` makes one step of a take, and never waits: it tries the lock once at most, and tells how the take ends, or
//!   from which stage it goes on. A take is to sleep only behind a step that announced it, looked, and found no item. The
//!   takes here are loops over these steps, which rest and sleep between them, until a `Deadline`.
//! - `Queue::take_due` is a delay queue, whose priorities are times (`Times`): it takes the first item out once it is due, and
//!   sleeps until then, or until a deadline, which ends its wait for the lock too. Only what it takes has a line. It is a loop over
//!   the steps of `Queue::step_due`, each of which tries the lock once; `Queue::leave_due` ends a call for what is due that takes no
//!   more of them.
//! - `TimeSource` is where these calls have the time from: each time that one of them tells is one that it may tell, also where
//!   it says that none can be read. Each clock of the standard library is such a source.
//! - `Queue::shut` shuts the queue for good, by a line of the journal that the member enters under the lock, and wakes whoever
//!   waits for an item. Behind that line no push is entered, and no other shut: the Book refuses them. Those who wait by
//!   `Queue::take_or_end`, `take_until_or_end`, `take_due_or_end` and the calls for C, C++ and Rust take what is left, and are
//!   told the end exactly where a look finds the queue shut, and no item; `take`, `take_until` and `take_due` go on waiting.
//!   `Queue::carry_out_shut` shuts it where it finds the lock free, and wakes nobody.
//! - How a member rests between two turns in vain is a `Rest` of its own: so many tries of the lock before
//!   it posts, then so many spins, then yields, then naps that grow up to a longest, or as long as is due for
//!   all who have joined.
//!   `Member::set_rest` and `Handle::resting` choose it, and change nothing else of the member; no call
//!   changes it, and no rest takes a step at grid or desk.
//! - `Queue::enter` joins and gives a `Handle`, an idle member at its queue, whose calls promise the
//!   same and ask for nothing. A call of a handle whose gate gives up leaves a `Pending`, which looks
//!   and waits for its answer, and is a handle again with it.
//! - `Queue::note` and `Handle::note` write a note of the journal, which goes to another thread: `hear` there makes
//!   each later call of that member stand behind all calls that the writer was told of
//!   (`notes::law_notes_keep_order`).
//! - `Queue::testify` and `Handle::testify` tell of a member when its calls began and ended, and `gather` puts such
//!   testimonies together: one history has all these calls, and one journal linearizes it. So of two calls of any members, of
//!   which one ended before the other began, it has the earlier line (`laws::law_calls_follow_time`).
//! - Over stores that all have room for as many items as the journal has lines, `Queue::look` finds
//!   no `NoMemory`, and no call is refused so.
//! - `Queue::close` gives the Book, and `Queue::close_with` one of which the member knows its own
//!   calls.
//! - Over the product of the two machines, grid and desk, for every interleaving: a request that
//!   was posted before a round began has its answer when the round ends (`laws::law_product_runs`).
//!
//! But for the opening only a sweep and an operation of one's own take memory, for a push or a move alone, and so a
//! call that makes rounds. What the hint that somebody has posted says is beside all that is proved: its
//! load and its store, with a post, a sweep and an own request, are no steps of the machine. So is the count
//! of those who have joined, by which they nap, and the event count by which takes sleep (that one is woken is no clause).
//! Only the four calls, `call_by`, `pop_up_to`, `remove`, `reschedule`, `shut`, `push_all`, `pop_all_up_to`, the six takes, `Pending::wait`,
//! `Rest::rest` and the sleeps of an `EventCount` may wait; that they return is not promised.
//!
//! That a sweep finds the posts of other members is proved of the product machine, and is no clause
//! of a call: a contract speaks of its own member.
#![tactic(auto)]

mod asking;
pub mod batches;
pub mod call_steps;
mod calling;
mod closing;
pub mod combining;
pub mod counting;
pub mod deadline;
pub mod due;
pub mod due_steps;
pub mod error;
pub mod event_count;
pub mod following;
pub mod gate;
mod gathered;
pub mod handle;
pub mod hint;
mod joined;
pub mod laws;
pub mod length;
pub mod looking;
pub mod member;
pub mod notes;
mod opening;
mod others;
mod own_request;
pub mod peeking;
pub mod pending;
pub mod queue;
pub mod resting;
mod settling;
mod shutting;
mod spare;
pub mod take_steps;
pub mod taking;
pub mod testimony;
pub mod tickets;
pub mod time_source;
pub mod times;
mod until_end;
pub mod up_to;
pub mod wait_steps;
pub mod waiting;
mod waking;

pub use announce_board::{Note, Testimony};
pub use batches::{Batch, MOST_BATCH, Popped};
pub use call_steps::{CallStage, CallStepped, Came};
pub use combining::Round;
pub use counting::Counts;
pub use deadline::{By, Deadline, Never};
pub use due::Due;
pub use due_steps::{DueLook, DueNow, DueStage, DueStepped, DueTook};
pub use error::{ArchiveError, CallError, QueueError};
pub use event_count::{EventCount, Wakes};
pub use gate::{Gate, Open, Turn};
pub use handle::Handle;
pub use hint::{Cleared, PostHint};
pub use length::Length;
pub use looking::{Looked, Wanted};
pub use member::{Arrival, Member, Newcomer};
pub use peeking::Peeked;
pub use pending::{Called, Pending};
pub use queue::Queue;
pub use resting::{Naps, Pause, Rest};
pub use take_steps::{Left, TakeStage, TakeStepped, Took};
pub use taking::Awaited;
pub use time_source::TimeSource;
pub use times::Times;
pub use up_to::UpTo;
pub use wait_steps::{Entry, Patience, PushedOr, RoomWait};
