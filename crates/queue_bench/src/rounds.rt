// Workers that make the rounds of a queue themselves, and what these rounds did.
use crate::callers::Caller;
use flat_queue::{CallError, Called, Handle, Pending, Rest, Round};
use leftist_heap::Store;
use pq_book::Entry;
use pq_types::{GREATEST_SERIAL, Item, Part, Reply, Request};
use std::sync::Wait;

/// What rounds did: their number, how many requests they served, and how many doors they read, each as far
/// as a u64 counts.
#[derive(Clone, Copy)]
pub struct RoundCounts {
    pub rounds: u64,
    pub served: u64,
    pub doors: u64,
}

impl RoundCounts {
    /// No round.
    pub const NONE: RoundCounts = RoundCounts {
        rounds: 0,
        served: 0,
        doors: 0,
    };

    /// These rounds and the others.
    pub fn with(self, other: RoundCounts) -> RoundCounts {
        RoundCounts {
            rounds: self.rounds.saturating_add(other.rounds),
            served: self.served.saturating_add(other.served),
            doors: self.doors.saturating_add(other.doors),
        }
    }

    // These rounds, and this one.
    fn with_round(self, round: Round) -> RoundCounts {
        self.with(RoundCounts {
            rounds: 1,
            served: u64::from(round.served),
            doors: u64::from(round.doors),
        })
    }
}

/// A member that posts each of its requests, and tries rounds, by trail scans as those of a call, until it is
/// answered.
#[derive(Drop)]
pub struct Rounder<'q, S: Store<Entry<P>>, P: Part = u32> {
    /// None once all serials are spent.
    pub handle: Option<Handle<'q, S, P>>,
    pub counts: RoundCounts,
}

impl<'q, S: Store<Entry>> Caller for Rounder<'q, S> {
    fn call<R: Wait>(&mut self, rt: &R, request: Request) -> Result<Option<Item>, CallError> {
        let Some(handle) = self.handle.take() else {
            return Err(CallError::Spent);
        };
        if handle.posts() >= GREATEST_SERIAL {
            return Err(CallError::Spent);
        }
        let rest = handle.rest();
        let (handle, told) = answered(rt, handle.post(request), rest, &mut self.counts);
        self.handle = Some(handle);
        match told? {
            Reply::Got(item) => Ok(Some(item)),
            _ => Ok(None),
        }
    }

    fn counts(&self) -> RoundCounts {
        self.counts
    }
}

// Looks, and tries a round where there is no answer yet, until there is one: the handle, and the reply. It
// rests after each try that found the lock held.
fn answered<'q, S: Store<Entry>, R: Wait>(
    rt: &R,
    posted: Pending<'q, S>,
    rest: Rest,
    counts: &mut RoundCounts,
) -> (Handle<'q, S>, Result<Reply, CallError>) {
    let mut pending = posted;
    let mut rests = rest;
    for _ in rt.forever() {
        pending = match pending.look() {
            Called::Answered(handle, _, reply) => return (handle, Ok(reply)),
            Called::Refused(handle, error) => return (handle, Err(error)),
            Called::Pending(pending) => pending,
        };
        match pending.try_trail_round() {
            Some(round) => *counts = counts.with_round(round),
            None => rests.rest(rt, pending.joined()),
        }
    }
    unreachable!()
}
