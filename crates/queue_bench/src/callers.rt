// What a worker calls, each kind of it.
use crate::ordered_book::OrderedBook;
use crate::rounds::RoundCounts;
use flat_queue::{CallError, Handle};
use leftist_heap::Store;
use pq_book::Entry;
use pq_types::{Answer, Item, Part, Reply, Request};
use std::sync::{Mutex, Wait};

/// What a worker calls.
pub trait Caller {
    /// Pushes, or takes the first item out, and tells it.
    fn call<R: Wait>(&mut self, rt: &R, request: Request) -> Result<Option<Item>, CallError>;

    /// What the rounds did that it made itself, where it is one that tells.
    fn counts(&self) -> RoundCounts {
        RoundCounts::NONE
    }
}

// The item that a reply to a pop tells.
fn item_of(reply: Reply) -> Option<Item> {
    match reply {
        Reply::Got(item) => Some(item),
        _ => None,
    }
}

impl<'q, S: Store<Entry>> Caller for Handle<'q, S> {
    fn call<R: Wait>(&mut self, rt: &R, request: Request) -> Result<Option<Item>, CallError> {
        match request {
            Request::Push(item) => Handle::push(self, rt, item).map(|_| None),
            _ => Handle::pop(self, rt).map(|told| told.1),
        }
    }
}

/// A member that posts each of its requests, by `Handle::call`.
#[derive(Drop)]
pub struct Poster<'q, S: Store<Entry<P>>, P: Part = u32> {
    pub handle: Handle<'q, S, P>,
}

impl<'q, S: Store<Entry>> Caller for Poster<'q, S> {
    fn call<R: Wait>(&mut self, rt: &R, request: Request) -> Result<Option<Item>, CallError> {
        let (_, reply) = self.handle.call(rt, request)?;
        Ok(item_of(reply))
    }
}

/// One of those that share a Book under a lock.
#[derive(Drop)]
pub struct BookCaller<'a, S: Store<Entry<P>>, P: Part = u32> {
    pub book: &'a Mutex<OrderedBook<S, P>>,
    pub place: u16,
}

impl<'a, S: Store<Entry>> Caller for BookCaller<'a, S> {
    fn call<R: Wait>(&mut self, rt: &R, request: Request) -> Result<Option<Item>, CallError> {
        let Some(answer) = self.book.lock(rt).apply(self.place, request) else {
            return Err(CallError::Spent);
        };
        match answer {
            Answer::Entered(_, reply) => Ok(item_of(reply)),
            Answer::BookFull => Err(CallError::BookFull),
            Answer::NoMemory => Err(CallError::NoMemory),
            Answer::Refused(refusal) => Err(CallError::Refused(refusal.why())),
        }
    }
}
