// A schedule of comers in one thread: what each does, step by step, and what it is told.
ghost use Rattle.std.specs.Prelude.{◌≡◌, true, ⊤, []};
ghost use Rattle.std.specs.List.{All};
ghost use Rattle.announce_board.specs.Tokens.{is_idle};

use crate::tests::{Wanted, stands};
use flat_queue::{
    Arrival, Batch, CallError, Gate, Handle, Member, Newcomer, Queue, QueueError, Round, Turn,
};
use leftist_heap::{Leftist, Store};
use pq_book::Entry;
use pq_types::{Answer, GREATEST_SERIAL, Item, Part, Reply, Request};
use std::alloc::Global;
use std::collections::VecDeque;
use std::process::Abort;
use std::sync::Wait;

/// A step of the member of some number, which is counted from 0 in the order in which they joined,
/// and what it is told.
#[derive(Clone, Copy)]
pub enum Step {
    /// The next newcomer joins at this place, and gets this number.
    Joins(u16),
    /// The next newcomer takes so many steps of its way down the grid, or fewer where it has
    /// stopped before, and halts.
    Halts(u32),
    /// The comer that halted goes on until it has joined at this place, and gets this number.
    GoesOn(u16),
    Drafts(Item),
    Posts(Request),
    /// Looks, and finds this answer, or none.
    Looks(Option<Answer>),
    /// Makes a round that answers so many requests and reads so many doors.
    MakesRound(u32, u32),
    /// The same by a trail scan.
    FollowsTrail(u32, u32),
    /// There are so many lines.
    Settles(u64),
    Calls(Request, Result<(u64, Reply), CallError>),
    /// Finds the lock free, and carries the request out itself.
    Enters(Request, (u64, Reply)),
    /// Pushes items of these parts under one lock: how many, the line of the first, and what refused the next.
    PushesAll([(u32, u32); 3], (usize, u64, Option<CallError>)),
    /// Pops up to this priority under one lock, and has this then in its three slots, which were of zeros.
    PopsAllUpTo(u32, [(u32, u32); 3], (usize, u64, Option<CallError>)),
    /// Sets the hint that somebody has posted, as one may that waits, or clears it.
    Hints(bool),
    /// Calls by a gate that says at once to give up, and gives up.
    GivesUp(Request),
}

// Gives up at its first turn.
#[derive(Drop)]
struct Impatient;

impl Gate for Impatient {
    ghost may_answer = { λ _ _ _. ⊤ };

    fn turn(&self, _id: u64) -> Turn {
        Turn::GiveUp
    }
}

/// Who does what.
pub type Row = (usize, Step);

/// A comer on its way to its queue.
#[derive(Drop)]
pub struct Coming<'q, S: Store<Entry<P>>, P: Part = u32> {
    pub queue: &'q Queue<S, P>,
    pub newcomer: Newcomer,
    ghost here: { newcomer.queue ≡ queue.now },
}

/// A member at its queue, which takes single steps, as one may that waits.
#[derive(Drop)]
pub struct Sitting<'q, S: Store<Entry<P>>, P: Part = u32> {
    pub queue: &'q Queue<S, P>,
    pub member: Member<S, P>,
    ghost here: { member.queue ≡ queue.now },
}

// A comer that halted on its way, or where it stopped.
#[derive(Drop)]
enum Halted<'q, S: Store<Entry<P>>, P: Part = u32> {
    Going(Coming<'q, S, P>),
    Here(Sitting<'q, S, P>),
}

/// The comers of a queue that have not come.
#[derive(Drop)]
pub struct Comers<'q, S: Store<Entry<P>>, P: Part = u32> {
    queue: &'q Queue<S, P>,
    newcomers: VecDeque<Newcomer>,
    ghost here: { All (λ n. n.queue ≡ queue.now) newcomers.items },
}

// Those that have come: the one that halted, and those that have joined.
#[derive(Drop)]
struct Come<'q, S: Store<Entry<P>>, P: Part = u32> {
    halted: Option<Halted<'q, S, P>>,
    seats: Vec<Sitting<'q, S, P>>,
}

impl<'q, S: Store<Entry>> Coming<'q, S> {
    /// It goes on until it has joined.
    pub fn joins(self) -> Sitting<'q, S>
        ensures { result.queue.now ≡ self.entry.queue.now }
    {
        let Coming { queue, newcomer } = self;
        Sitting {
            queue,
            member: queue.join(newcomer),
        }
    }

    /// The same, with a handle.
    pub fn enters(self) -> Handle<'q, S> {
        let Coming { queue, newcomer } = self;
        queue.enter(newcomer)
    }
}

impl<'q, S: Store<Entry>> Halted<'q, S> {
    // The comer after so many steps more, or fewer where it has stopped before.
    fn after_steps(self, steps: u32) -> Halted<'q, S> {
        let mut halted = self;
        for _ in 0..steps {
            halted = halted.strides();
        }
        halted
    }

    // The comer after one step more, where it has not stopped before.
    fn strides(self) -> Halted<'q, S> {
        match self {
            Halted::Going(Coming { queue, newcomer }) => match queue.join_step(newcomer) {
                Arrival::Going(newcomer) => Halted::Going(Coming { queue, newcomer }),
                Arrival::Here(member) => Halted::Here(Sitting { queue, member }),
            },
            here => here,
        }
    }

    // It goes on until it has joined.
    fn joins(self) -> Sitting<'q, S> {
        match self {
            Halted::Going(coming) => coming.joins(),
            Halted::Here(seat) => seat,
        }
    }
}

impl<'q, S: Store<Entry>> Comers<'q, S> {
    /// The newcomers of this queue.
    pub fn new(queue: &'q Queue<S>, newcomers: Vec<Newcomer>) -> Comers<'q, S>
        requires { All (λ n. n.queue ≡ queue.now) newcomers.items }
        ensures { result.queue.now ≡ queue.now }
    {
        Comers {
            queue,
            newcomers: VecDeque::from_vec(newcomers),
        }
    }

    /// The next of them.
    pub fn next<R: Abort>(&mut self, rt: &R) -> Coming<'q, S>
        ensures { result.queue.now ≡ self.old.queue.now }
    {
        let newcomer = self
            .newcomers
            .pop_front()
            .expect(rt, "somebody has not come");
        Coming {
            queue: self.queue,
            newcomer,
        }
    }
}

/// The first newcomer of this queue, whose others never come.
pub fn first_comes<'q, R: Abort, S: Store<Entry>>(
    rt: &R,
    queue: &'q Queue<S>,
    newcomers: Vec<Newcomer>,
) -> Coming<'q, S>
    requires { All (λ n. n.queue ≡ queue.now) newcomers.items }
    ensures { result.queue.now ≡ queue.now }
{
    let mut comers = Comers::new(queue, newcomers);
    let first = comers.next(rt);
    drop(comers);
    first
}

/// The first two newcomers of this queue, whose others never come.
pub fn two_come<'q, R: Abort, S: Store<Entry>>(
    rt: &R,
    queue: &'q Queue<S>,
    newcomers: Vec<Newcomer>,
) -> (Coming<'q, S>, Coming<'q, S>)
    requires { All (λ n. n.queue ≡ queue.now) newcomers.items }
    ensures { result.0.queue.now ≡ queue.now }
{
    let mut comers = Comers::new(queue, newcomers);
    let first = comers.next(rt);
    let second = comers.next(rt);
    drop(comers);
    (first, second)
}

// It sits down behind the others: whether at this place.
fn sits<'q, R: Abort, S: Store<Entry>>(
    rt: &R,
    seats: &mut Vec<Sitting<'q, S>>,
    seat: Sitting<'q, S>,
    place: u16,
) -> bool {
    let is_there = seat.member.place() == place;
    seats.push(seat).ok().expect(rt, "there is memory");
    is_there
}

// The next comer, the one that halted, or the one with this number takes the step: whether it is told
// what is wanted.
fn takes<'q, R: Abort + Wait, S: Store<Entry>>(
    rt: &R,
    comers: &mut Comers<'q, S>,
    come: &mut Come<'q, S>,
    who: usize,
    step: Step,
) -> bool {
    match step {
        Step::Joins(place) => sits(rt, &mut come.seats, comers.next(rt).joins(), place),
        Step::Halts(steps) => {
            let halted = Halted::Going(comers.next(rt)).after_steps(steps);
            drop(come.halted.replace(halted));
            true
        }
        Step::GoesOn(place) => {
            let halted = come.halted.take().expect(rt, "somebody has halted");
            sits(rt, &mut come.seats, halted.joins(), place)
        }
        _ => {
            let seat = come.seats.get_mut(who).expect(rt, "it has joined");
            seat.takes(rt, step)
        }
    }
}

// Takes the steps of all rows.
fn takes_all<'q, R: Abort + Wait, S: Store<Entry>>(
    rt: &R,
    comers: &mut Comers<'q, S>,
    come: &mut Come<'q, S>,
    rows: &[Row],
) {
    for (number, (who, step)) in rows.iter().enumerate() {
        assert!(rt; takes(rt, comers, come, *who, *step), "row {number}");
    }
}

fn plays<'q, R: Abort + Wait, S: Store<Entry>>(
    rt: &R,
    alloc: Global,
    mut comers: Comers<'q, S>,
    rows: &[Row],
) {
    let mut come = Come {
        halted: None,
        seats: Vec::new(alloc),
    };
    takes_all(rt, &mut comers, &mut come, rows);
    drop(come);
    drop(comers);
}

impl<'q, S: Store<Entry>> Sitting<'q, S> {
    // The member takes the step: whether it is told what is wanted. Where it is to post or to call, it is
    // idle.
    fn takes<R: Abort + Wait>(&mut self, rt: &R, step: Step) -> bool {
        match step {
            Step::Looks(answer) => {
                assert!(rt; !self.member.is_idle());
                self.queue.look(&mut self.member) == answer
            }
            Step::MakesRound(served, doors) => {
                self.queue.try_round(&mut self.member) == Some(Round { served, doors })
            }
            Step::FollowsTrail(served, doors) => {
                self.queue.try_trail_round(&mut self.member) == Some(Round { served, doors })
            }
            Step::Settles(lines) => self.queue.settle(&mut self.member) == Some(lines),
            Step::Hints(true) => {
                assert!(rt; !self.member.is_idle());
                self.queue.hint().set(&self.member);
                true
            }
            Step::Hints(false) => {
                drop(self.queue.hint().clear());
                true
            }
            _ => {
                assert!(rt; self.member.is_idle());
                self.asks(rt, step)
            }
        }
    }

    // The same of the idle member.
    fn asks<R: Abort + Wait>(&mut self, rt: &R, step: Step) -> bool
        requires { is_idle self.old.member.pen.standing ≡ true }
    {
        let Sitting { queue, member } = self;
        match step {
            Step::Drafts(item) => {
                queue.draft(member, item);
                true
            }
            Step::Posts(request) => {
                assert!(rt; member.posts() < GREATEST_SERIAL);
                queue.post(member, request);
                true
            }
            Step::Enters(request, told) => queue.try_call(member, request) == Some(Ok(told)),
            Step::Calls(request, told) => queue.call(rt, member, request) == told,
            Step::PushesAll(parts, told) => {
                has_come_to(queue.push_all(rt, member, &items_of(parts)), told)
            }
            Step::PopsAllUpTo(priority, parts, told) => {
                let mut slots = items_of([(0, 0); 3]);
                has_come_to(queue.pop_all_up_to(rt, member, priority, &mut slots), told)
                    && slots == items_of(parts)
            }
            Step::GivesUp(request) => {
                queue.call_by(rt, member, request, &Impatient) == Err(CallError::GaveUp)
            }
            _ => panic!(rt; "it has joined before"),
        }
    }
}

// The items of these priorities and values.
fn items_of(parts: [(u32, u32); 3]) -> [Item; 3] {
    parts.map(|(priority, value)| Item { priority, value })
}

// Whether so many requests were entered, the first on this line, and the next was so refused.
fn has_come_to(batch: Batch, told: (usize, u64, Option<CallError>)) -> bool {
    (batch.done, batch.first, batch.refused) == told
}

/// A schedule: the ids of its comers, for how many lines their queue has room, what they do, and the lines that the journal has
/// in the end.
#[derive(Clone, Copy)]
pub struct Schedule<'a> {
    pub ids: &'a [u64],
    pub room: u32,
    pub rows: &'a [Row],
    pub wanted: &'a [Wanted],
}

// Plays the rows on this queue, and closes it: the journal has exactly the lines that are wanted then.
fn played_out<R: Abort + Wait, S: Store<Entry>>(
    rt: &R,
    alloc: Global,
    queue: Queue<S>,
    newcomers: Vec<Newcomer>,
    schedule: Schedule<'_>,
)
    requires { All (λ n. n.queue ≡ queue) newcomers.items }
{
    plays(rt, alloc, Comers::new(&queue, newcomers), schedule.rows);
    stands(
        rt,
        queue.close().expect(rt, "the lock is free"),
        schedule.wanted,
    );
}

/// Plays the schedule on a new queue over this store, and closes it: the journal has exactly the lines that are wanted then.
pub fn plays_over<R: Abort + Wait, S: Store<Entry>>(
    rt: &R,
    alloc: Global,
    store: S,
    schedule: Schedule<'_>,
) -> Result<(), QueueError>
    requires { S.content store ≡ [] }
{
    let (queue, newcomers) = Queue::with_store(alloc, schedule.ids, store, schedule.room)?;
    played_out(rt, alloc, queue, newcomers, schedule);
    Ok(())
}

/// The same over a leftist heap.
pub fn plays_to<R: Abort + Wait>(
    rt: &R,
    alloc: Global,
    schedule: Schedule<'_>,
) -> Result<(), QueueError> {
    plays_over(rt, alloc, Leftist::new(alloc), schedule)
}
