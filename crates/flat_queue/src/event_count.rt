// An event count, by which those who wait for an item sleep until there may be one.
use crate::time_source::TimeSource;
use announce_board::Lead;
use leftist_heap::Store;
use pq_book::Entry;
use pq_types::{Answer, Item, Part, Reply};
use std::sync::Wait;
use std::sync::atomic::{AtomicU64, Ordering};
use std::time::{Duration, Instant};

/// What ends a wait for an item that doesn't come.
#[derive(Clone, Copy)]
pub enum Wakes {
    /// Nothing: where the queue is shut and no item is left, it waits on.
    Event,
    /// The end of its queue.
    EventOrEnd,
}

/// Counts what may end a wait for an item. Whoever found none announces itself, looks once more, and sleeps only while
/// the count stands; whoever leads counts an event behind the pushes that it carried out, where anybody is announced,
/// and wakes as many once it has released the lock. No clause says what it says: a wake too many costs a look in vain,
/// one too few a sleep that is too long. What each push reads, and what each event changes, have cache lines of their own.
#[derive(Drop)]
#[repr(C)]
pub struct EventCount {
    before: [u64; 8],
    waiters: AtomicU64,
    owed: AtomicU64,
    between: [u64; 8],
    events: AtomicU64,
    after: [u64; 8],
}

impl EventCount {
    /// One at which nobody waits.
    pub(crate) fn new() -> EventCount {
        EventCount {
            before: [0; 8],
            waiters: AtomicU64::new(0),
            owed: AtomicU64::new(0),
            between: [0; 8],
            events: AtomicU64::new(0),
            after: [0; 8],
        }
    }

    /// Announces one that waits, before it looks for an item once more: the count of events. It ends its wait by
    /// `end_wait`, whatever it found.
    pub fn begin_wait(&self) -> u64 {
        self.waiters.fetch_add(1, Ordering::SeqCst);
        self.events.load(Ordering::SeqCst)
    }

    /// Ends what `begin_wait` began.
    pub fn end_wait(&self) {
        self.waiters.fetch_sub(1, Ordering::SeqCst);
    }

    /// Sleeps while the count is this one. A shut is an event for all who are announced.
    pub fn sleep<R: Wait>(&self, rt: &R, seen: u64) {
        for _ in rt.forever() {
            if self.has_counted(seen) {
                break;
            }
            self.events.park(rt, low_half(seen));
        }
    }

    /// The same, until this moment at most, where there is one.
    pub(crate) fn sleep_to<R: Wait + TimeSource>(&self, rt: &R, seen: u64, until: Option<Instant>) {
        match until {
            Some(until) => self.sleep_until(rt, seen, until),
            None => self.sleep(rt, seen),
        }
    }

    /// The same, until this moment at most, or until the clock can't be read.
    pub fn sleep_until<R: Wait + TimeSource>(&self, rt: &R, seen: u64, deadline: Instant) {
        for _ in rt.forever() {
            if self.has_counted(seen) {
                break;
            }
            let Some(left) = left_until(rt, deadline) else {
                break;
            };
            self.events.park_timeout(rt, low_half(seen), left);
        }
    }

    // Whether anything has been counted since.
    fn has_counted(&self, seen: u64) -> bool {
        self.events.load(Ordering::SeqCst) != seen
    }

    // Whether anybody is announced.
    fn is_awaited(&self) -> bool {
        self.waiters.load(Ordering::SeqCst) != 0
    }

    /// The leader has answered so many requests of others, and has the lock still: an event, where they leave an item
    /// there, for as many as they were; or for all, where the journal has no line left.
    pub(crate) fn count_served<S: Store<Entry<P>>, P: Part>(
        &self,
        lead: &Lead<S, P>,
        room: u64,
        served: u32,
    ) {
        if served == 0 || !self.is_awaited() {
            return;
        }
        if lead.lines() >= room {
            self.count(u64::MAX);
        } else if lead.first().is_some() {
            self.count(u64::from(served));
        }
    }

    /// The member has released the lock with a request of its own, which was so answered: an event, where that was a
    /// push, or for all, where the journal has no line left.
    pub(crate) fn count_own<P: Part>(&self, answer: &Answer<Item<P>>, room: u64) {
        if self.is_awaited() {
            let puts_in = matches!(answer, Answer::Entered(_, Reply::Pushed));
            self.count(wakes_behind(puts_in, answer, room));
        }
    }

    /// The same with the use of a ticket: an event, where that is a move that found its item, since another item may be the
    /// first one now.
    pub(crate) fn count_by_ticket<P: Part>(
        &self,
        moves: bool,
        answer: &Answer<Item<P>>,
        room: u64,
    ) {
        if self.is_awaited() {
            let puts_in = moves && matches!(answer, Answer::Entered(_, Reply::Got(_)));
            self.count(wakes_behind(puts_in, answer, room));
        }
    }

    /// The same with a shut: an event for all, where it was entered, or the journal has no line left.
    pub(crate) fn count_shut<P: Part>(&self, answer: &Answer<Item<P>>) {
        match answer {
            Answer::Entered(_, _) | Answer::BookFull => self.count(u64::MAX),
            Answer::NoMemory | Answer::Refused(_) => (),
        }
    }

    /// The member has released the lock with a batch of so many pushes of its own, behind which the journal has so many lines:
    /// an event for as many, or for all, where no line is left.
    pub(crate) fn count_batch(&self, pushed: usize, lines: u64, room: u64) {
        if self.is_awaited() {
            self.count(if lines >= room {
                u64::MAX
            } else {
                pushed as u64
            });
        }
    }

    /// Counts an event, for so many of those who wait, or for all where they are fewer. Who sleeps is woken by
    /// `wake_owed` thereafter, or, as a static library can't wake, by whoever is told `owed_wakes`.
    pub fn count(&self, wakes: u64) {
        let due = wakes.min(self.waiters.load(Ordering::SeqCst));
        if due > 0 {
            self.events.fetch_add(1, Ordering::SeqCst);
            self.owed.fetch_add(due, Ordering::SeqCst);
        }
    }

    /// Whether anybody is still to be woken. Whoever led looks at this behind its count: where it is not so, another has
    /// taken over whom it owed a wake.
    pub fn owes_wake(&self) -> bool {
        self.owed.load(Ordering::SeqCst) != 0
    }

    /// How many are still to be woken: the caller wakes them.
    pub fn owed_wakes(&self) -> u64 {
        if !self.owes_wake() {
            return 0;
        }
        self.owed.swap(0, Ordering::SeqCst)
    }

    /// Wakes those who are still to be woken.
    pub fn wake_owed(&self) {
        for _ in 0..self.owed_wakes() {
            self.events.wake_one();
        }
    }
}

// The half of the count that the system compares.
fn low_half(seen: u64) -> u32 {
    (seen & 0xffff_ffff) as u32
}

// How many may be woken behind what was so answered, and put an item in or didn't.
fn wakes_behind<P: Part>(puts_in: bool, answer: &Answer<Item<P>>, room: u64) -> u64 {
    match answer {
        Answer::BookFull => u64::MAX,
        Answer::NoMemory | Answer::Refused(_) => 0,
        Answer::Entered(number, _) if *number >= room => u64::MAX,
        Answer::Entered(_, _) => u64::from(puts_in),
    }
}

// How long it is until this moment: `None` where it has come, or the clock can't be read.
fn left_until<C: TimeSource>(clock: &C, deadline: Instant) -> Option<Duration> {
    let now = clock.time()?;
    let left = deadline.checked_duration_since(now)?;
    if left.is_zero() { None } else { Some(left) }
}
