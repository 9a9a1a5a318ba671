// How the workers of a load make their requests, and what all of them share.
ghost use Rattle.std.specs.Prelude.{◌≡◌, ◌≢◌, ◌≤◌, IfOk, IsErrOf};
ghost use Rattle.flat_queue.specs.Calling.{IsCalled, popped, found_first};
ghost use Rattle.flat_queue.specs.Limits.{most_posts};
ghost use Rattle.flat_queue.specs.Members.{HasRoomForAll};

use flat_queue::{CallError, Gate, Handle, Queue};
use leftist_heap::Store;
use pq_book::Entry;
use pq_types::{Item, Part, Reply, Request};
use program_words::Plan;
use std::alloc::Global;
use std::sync::Wait;

/// How the workers of a load make their requests.
#[derive(Drop)]
pub enum Asks<'a, G: Gate> {
    /// By the ordinary calls: a request is carried out at once where its worker finds the lock free, and else
    /// it is posted and waits.
    AtOnce,
    /// By a gate: each request is posted, and waits as the gate says.
    By(&'a G),
}

/// A load that is to be run: its numbers, how its workers ask, and how many requests each of them makes in a slice at
/// most, behind which all are joined.
#[derive(Drop)]
pub struct Order<'a, R, G: Gate> {
    pub rt: &'a R,
    pub alloc: Global,
    pub plan: Plan,
    pub asks: Asks<'a, G>,
    pub slice: u64,
}

/// A load that is run: what its workers share.
#[derive(Drop)]
pub struct Load<'a, S: Store<Entry<P>>, R, G: Gate, P: Part = u32> {
    pub rt: &'a R,
    pub alloc: Global,
    pub queue: &'a Queue<S, P>,
    pub plan: Plan,
    pub asks: Asks<'a, G>,
    pub slice: u64,
}

// The reply to a pop that told this item, or none.
fn reply_to_pop<P: Part>(item: Option<Item<P>>) -> Reply<Item<P>>
    ensures { result ≡ popped item }
{
    match item {
        Some(item) => Reply::Got(item),
        None => Reply::Empty,
    }
}

// The reply to a least that told this item, or none.
fn reply_to_least<P: Part>(item: Option<Item<P>>) -> Reply<Item<P>>
    ensures { result ≡ found_first item }
{
    match item {
        Some(item) => Reply::Least(item),
        None => Reply::Empty,
    }
}

/// Makes a request by the ordinary call for it: the number of its journal line, and the reply.
pub fn make_at_once<'q, S: Store<Entry<P>>, R: Wait, P: Part>(
    rt: &R,
    handle: &mut Handle<'q, S, P>,
    request: Request<Item<P>>,
) -> Result<(u64, Reply<Item<P>>), CallError>
    ensures ok { IfOk result (λ told. IsCalled handle.old request told.0 told.1 handle.new) }
    ensures spent { IsErrOf result CallError.Spent → most_posts handle.old.queue.room ≤ handle.old.pen.posts }
    ensures gave_up { ¬ (IsErrOf result CallError.GaveUp) }
    ensures memory { HasRoomForAll S.room handle.old.queue → ¬ (IsErrOf result CallError.NoMemory) }
{
    match request {
        Request::Push(item) => match handle.push(rt, item) {
            Ok(number) => Ok((number, Reply::Pushed)),
            Err(error) => Err(error),
        },
        Request::Pop => match handle.pop(rt) {
            Ok((number, item)) => Ok((number, reply_to_pop(item))),
            Err(error) => Err(error),
        },
        Request::Least => match handle.least(rt) {
            Ok((number, item)) => Ok((number, reply_to_least(item))),
            Err(error) => Err(error),
        },
    }
}
