// A worker of a load: it joins the queue, and in each round pushes its items, and then pops. It does so in one go, or in
// several, one after another.
ghost use Rattle.std.specs.Prelude.{◌≡◌, ◌≢◌, ◌+◌, ◌-◌, ◌<◌, ◌≤◌, map, Some, IfOk, IfErr};
ghost use Rattle.pq_types.specs.declared.request.Request.TheVariants.{Push, Pop};
ghost use Rattle.flat_queue.specs.declared.gate.Turn.TheVariants.{GiveUp};
ghost use Rattle.flat_queue.specs.Limits.{most_posts};
ghost use Rattle.flat_queue.specs.Members.{HasRoomForAll};
ghost use Rattle.program_words.specs.Lines.{each_of};
ghost use Rattle.queue_load.specs.Asks.{may_give_up};
ghost use Rattle.queue_load.specs.Lines.{MayPostAll};
ghost use Rattle.queue_load.specs.Points.{IsNext, IsWithin};
ghost use Rattle.queue_load.specs.Tally.{IsSmall};
ghost use Rattle.queue_load.specs.declared.worker.WorkerState.{WorkerState};
ghost use Rattle.queue_load.specs.Worker.{IsAnswered, IsReason, HasCome, HasComeOn, HasWorked, StandsAt, known_of, reason_of};

use crate::asks::{Asks, Load, make_at_once};
use crate::load_faults::WorkerError;
use crate::points::{Point, next_request};
use crate::tally::Tally;
use flat_queue::{CallError, Called, Gate, Handle, Member, Newcomer, Queue};
use leftist_heap::Store;
use pq_book::Entry;
use pq_types::{Item, Part, Request};
use program_words::{MOST_WORKERS, Plan};
use std::alloc::{AllocError, Global};
use std::sync::Wait;

/// A worker that has ended: its member, how far it has come, what it was answered, and why it ended early, if it did.
#[derive(Drop)]
pub struct EndedWorker<S: Store<Entry<P>>, P: Part = u32> {
    pub member: Member<S, P>,
    pub point: Point,
    pub tally: Tally,
    pub refusal: Option<WorkerError>,
}

/// A worker that is to go on: it is still to join, or has come so far before.
#[derive(Drop)]
pub enum WorkerState<S: Store<Entry<P>>, P: Part = u32> {
    Coming(Newcomer),
    Here(EndedWorker<S, P>),
}

/// Who is to go on from a state: a newcomer, or a worker that has ended.
pub trait Resumes<T> {
    /// The state.
    ghost state_of: { Self → T };

    /// Goes on from there.
    fn state(self) -> T
        ensures { result ≡ state_of self };
}

impl<S: Store<Entry<P>>, P: Part> Resumes<WorkerState<S, P>> for Newcomer {
    ghost state_of = { WorkerState.Coming };

    fn state(self) -> WorkerState<S, P> {
        WorkerState::Coming(self)
    }
}

impl<S: Store<Entry<P>>, P: Part> Resumes<WorkerState<S, P>> for EndedWorker<S, P> {
    ghost state_of = { WorkerState.Here };

    fn state(self) -> WorkerState<S, P> {
        WorkerState::Here(self)
    }
}

/// The states from which these are to go on. Generic in them, its proof takes none apart.
pub fn states_of<T: Drop, W: Resumes<T> + Drop>(
    alloc: Global,
    workers: Vec<W>,
) -> Result<Vec<T>, AllocError>
    ensures { IfOk result (λ states. states.items ≡ map W.state_of workers.items) }
{
    workers
        .into_iter()
        .map(|worker| worker.state())
        .collect(alloc)
}

// Why a worker ends whose call was so refused.
fn reason_of(error: CallError) -> WorkerError
    requires { error ≢ CallError.Spent }
    ensures { Some result ≡ reason_of error }
{
    match error {
        CallError::NoMemory => WorkerError::NoMemory,
        CallError::BookFull => WorkerError::BookFull,
        CallError::Refused(refusal) => WorkerError::Refused(refusal),
        CallError::GaveUp => WorkerError::GaveUp,
        CallError::Spent => unreachable!(),
    }
}

// Makes one request by this gate, and counts its reply: the handle, or the member with the reason why it ended.
fn ask_by<'q, S: Store<Entry<P>>, R: Wait, G: Gate, P: Part>(
    rt: &R,
    handle: Handle<'q, S, P>,
    tally: &mut Tally,
    request: Request<Item<P>>,
    gate: &G,
) -> Result<Handle<'q, S, P>, (Member<S, P>, WorkerError)>
    requires few { handle.pen.posts < most_posts handle.queue.room }
    requires small { IsSmall tally.old }
    ensures ok { IfOk result (λ after. IsAnswered P.wide handle.entry tally.old request after tally.new) }
    ensures err { IfErr result (λ ended.
        IsReason (G.may_answer gate.now handle.entry.comer.id GiveUp) (HasRoomForAll S.room handle.entry.queue) ended.1) }
{
    let asked = request;
    match handle.call_by(rt, asked, gate) {
        Called::Answered(handle, _, reply) => {
            tally.count(request, reply);
            Ok(handle)
        }
        Called::Refused(handle, error) => Err((handle.into_member(), reason_of(error))),
        Called::Pending(pending) => Err((pending.into_member(), WorkerError::GaveUp)),
    }
}

// The same by the ordinary call for the request, which never gives up.
fn ask_at_once<'q, S: Store<Entry<P>>, R: Wait, P: Part>(
    rt: &R,
    handle: Handle<'q, S, P>,
    tally: &mut Tally,
    request: Request<Item<P>>,
) -> Result<Handle<'q, S, P>, (Member<S, P>, WorkerError)>
    requires few { handle.pen.posts < most_posts handle.queue.room }
    requires small { IsSmall tally.old }
    ensures ok { IfOk result (λ after. IsAnswered P.wide handle.entry tally.old request after tally.new) }
    ensures err { IfErr result (λ ended. IsReason ⊥ (HasRoomForAll S.room handle.entry.queue) ended.1) }
{
    let mut handle = handle;
    let asked = request;
    match make_at_once(rt, &mut handle, asked) {
        Ok((_, reply)) => {
            tally.count(request, reply);
            Ok(handle)
        }
        Err(error) => Err((handle.into_member(), reason_of(error))),
    }
}

// The same as the workers of this load ask.
fn ask<'q, S: Store<Entry<P>>, R: Wait, G: Gate, P: Part>(
    load: &Load<'_, S, R, G, P>,
    handle: Handle<'q, S, P>,
    tally: &mut Tally,
    request: Request<Item<P>>,
) -> Result<Handle<'q, S, P>, (Member<S, P>, WorkerError)>
    requires few { handle.pen.posts < most_posts handle.queue.room }
    requires small { IsSmall tally.old }
    ensures ok { IfOk result (λ after. IsAnswered P.wide handle.entry tally.old request after tally.new) }
    ensures err { IfErr result (λ ended.
        IsReason (may_give_up G.may_answer load.now.asks handle.entry.comer.id)
        (HasRoomForAll S.room handle.entry.queue) ended.1) }
{
    match &load.asks {
        Asks::AtOnce => ask_at_once(load.rt, handle, tally, request),
        Asks::By(gate) => ask_by(load.rt, handle, tally, request, *gate),
    }
}

// Makes the worker's next request, and counts its reply: the handle, and how far it has come then.
fn step<'q, S: Store<Entry<P>>, R: Wait, G: Gate, P: Part>(
    load: &Load<'_, S, R, G, P>,
    handle: Handle<'q, S, P>,
    point: Point,
    tally: &mut Tally,
) -> Result<(Handle<'q, S, P>, Point), (Member<S, P>, WorkerError)>
    requires come { HasCome P.wide handle.queue handle.comer.id load.now.plan point handle tally.old }
    requires worker { handle.comer.id ≤ MOST_WORKERS }
    requires more { point.rounds < load.now.plan.rounds }
    requires few { handle.pen.posts < most_posts handle.queue.room }
    ensures ok { IfOk result (λ made. HasComeOn P.wide handle.entry load.now.plan 1 made.0 made.1 tally.new) }
    ensures err { IfErr result (λ ended.
        IsReason (may_give_up G.may_answer load.now.asks handle.entry.comer.id)
        (HasRoomForAll S.room handle.entry.queue) ended.1) }
{
    let (request, past) = next_request(handle.id() as u32, load.plan, point);
    let handle = ask(load, handle, tally, request)?;
    Ok((handle, past))
}

// Makes the worker's next requests, until it has made so many in all, or one is refused.
fn make_until<'q, S: Store<Entry<P>>, R: Wait, G: Gate, P: Part>(
    load: &Load<'_, S, R, G, P>,
    handle: Handle<'q, S, P>,
    point: Point,
    tally: &mut Tally,
    until: u64,
) -> Result<(Handle<'q, S, P>, Point), (Member<S, P>, WorkerError)>
    requires come { HasCome P.wide handle.queue handle.comer.id load.now.plan point handle tally.old }
    requires worker { handle.comer.id ≤ MOST_WORKERS }
    requires before { handle.pen.posts ≤ until }
    requires until { until ≤ each_of load.now.plan }
    requires few { MayPostAll handle.queue load.now.plan }
    ensures ok { IfOk result (λ made.
        HasComeOn P.wide handle.entry load.now.plan (until - handle.entry.pen.posts) made.0 made.1 tally.new) }
    ensures err { IfErr result (λ ended.
        IsReason (may_give_up G.may_answer load.now.asks handle.entry.comer.id)
        (HasRoomForAll S.room handle.entry.queue) ended.1) }
{
    let mut at = handle;
    let mut here = point;
    for made in at.posts()..until {
        let (next, past) = step(load, at, here, tally)?;
        at = next;
        here = past;
    }
    Ok((at, here))
}

// The handle of the worker in this state, how far it has come, and what it was answered.
fn resumed<'q, S: Store<Entry<P>>, P: Part>(
    queue: &'q Queue<S, P>,
    worker: u64,
    state: WorkerState<S, P>,
    plan: Plan,
    until: u64,
) -> (Handle<'q, S, P>, Point, Tally)
    requires stands { StandsAt P.wide queue.now worker plan until state }
    ensures come { HasCome P.wide queue.now worker plan result.1 result.0 result.2 }
    ensures before { result.0.pen.posts ≤ until }
    ensures known { result.0.pen.known ≡ known_of state }
{
    match state {
        WorkerState::Coming(newcomer) => (queue.enter(newcomer), Point::START, Tally::default()),
        WorkerState::Here(ended) => {
            let EndedWorker {
                member,
                point,
                tally,
                refusal: _,
            } = ended;
            (queue.seat(member), point, tally)
        }
    }
}

/// Goes on until it has made so many requests in all: it joins the queue, if it hasn't, and in each round
/// pushes the items of its number, and then pops, each so often as the plan says. Ends at the first
/// refused request.
pub fn work<S: Store<Entry<P>>, R: Wait, G: Gate, P: Part>(
    load: &Load<'_, S, R, G, P>,
    worker: u64,
    state: WorkerState<S, P>,
    until: u64,
) -> EndedWorker<S, P>
    requires stands { StandsAt P.wide load.now.queue.now worker load.now.plan until state }
    requires worker { worker ≤ MOST_WORKERS }
    requires until { until ≤ each_of load.now.plan }
    requires few { MayPostAll load.now.queue.now load.now.plan }
    ensures { HasWorked P.wide (may_give_up G.may_answer load.now.asks worker)
        (HasRoomForAll S.room load.now.queue.now) load.now.queue.now worker load.now.plan until (known_of state) result }
{
    let (handle, point, tally) = resumed(load.queue, worker, state, load.plan, until);
    let mut tally = tally;
    match make_until(load, handle, point, &mut tally, until) {
        Ok((handle, point)) => EndedWorker {
            member: handle.into_member(),
            point,
            tally,
            refusal: None,
        },
        Err((member, reason)) => EndedWorker {
            member,
            point: Point::START,
            tally,
            refusal: Some(reason),
        },
    }
}
