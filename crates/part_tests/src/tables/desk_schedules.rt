// Worked schedules of two pens in one thread: one leads, and the other asks.
ghost use Rattle.std.specs.Prelude.{◌≡◌, IfOk, IfSome};
ghost use Rattle.announce_board.specs.Opening.{pen_of_place};
ghost use Rattle.announce_board.specs.Tokens.{IsLeadOf};

use crate::tables::{ask, look};
use announce_board::{Desk, DeskError, Lead, LockHeld, Pen};
use leftist_heap::{Leftist, Store};
use pq_book::Entry;
use pq_types::{Answer, Done, Item, Line, Operation, Reply, Request};
use std::alloc::Global;
use std::process::Abort;

type Heap = Leftist<Entry, Global>;

const FOUR: Item = Item {
    priority: 4,
    value: 0,
};

const NINE: Item = Item {
    priority: 9,
    value: 0,
};

// A step of a schedule, and what comes of it.
#[derive(Clone, Copy)]
enum Step {
    Drafts(Item),
    Posts(Request),
    Looks(Option<Answer>),
    // The pen that asks tries the lock, and where it is free it keeps the Book for good: how many
    // lines that has.
    Keeps(Option<u64>),
    // The other pen tries the lock: whether it is free.
    Leads(bool),
    // The leader serves a place: whether a request stood posted there.
    Serves(u16, bool),
    Releases,
}

// A desk and the pens of its two places.
type Pair<S> = (Desk<S>, Pen<S>, Pen<S>);

// A desk of two places with room for four lines, and its pens.
fn two_pens(alloc: Global) -> Result<Pair<Heap>, DeskError>
    ensures { IfOk result (λ r. (r.1 ≡ pen_of_place r.0.table 4 0) × (r.2 ≡ pen_of_place r.0.table 4 1)) }
{
    let (desk, mut pens) = Desk::new(alloc, 2, 4)?;
    let second = pens.pop().unwrap();
    let first = pens.pop().unwrap();
    Ok((desk, first, second))
}

// The pen tries the lock, and where it is free it keeps the Book for good: how many lines that has.
fn keeps<S: Store<Entry>>(desk: &Desk<S>, pen: &mut Pen<S>) -> Option<u64>
    requires { pen.old.table ≡ desk.now.table }
    ensures { pen.new.table ≡ desk.now.table }
{
    let lead = desk.try_lead(pen)?;
    Some(lead.into_book().len())
}

// A step of the pen that asks.
fn asks<R: Abort, S: Store<Entry>>(rt: &R, desk: &Desk<S>, pen: &mut Pen<S>, step: Step)
    requires { pen.old.table ≡ desk.now.table }
    ensures { pen.new.table ≡ desk.now.table }
{
    match step {
        Step::Drafts(item) => {
            assert!(rt; pen.is_idle());
            desk.draft(pen, item);
        }
        Step::Posts(request) => ask(rt, desk, pen, request),
        Step::Looks(wanted) => {
            let answer = look(rt, desk, pen);
            assert!(rt; answer == wanted);
        }
        Step::Keeps(lines) => {
            let kept = keeps(desk, pen);
            assert!(rt; kept == lines);
        }
        _ => panic!(rt; "a step of the leader"),
    }
}

// The lead of a pen that tries the lock, which is free or not.
fn tries<R: Abort, S: Store<Entry>>(
    rt: &R,
    desk: &Desk<S>,
    pen: &mut Pen<S>,
    is_free: bool,
) -> Option<Lead<S>>
    requires { pen.old.table ≡ desk.now.table }
    ensures table { pen.new.table ≡ desk.now.table }
    ensures lead { IfSome result (λ l. IsLeadOf pen.new l) }
{
    let lead = desk.try_lead(pen);
    assert!(rt; lead.is_some() == is_free);
    lead
}

// The lead, once it has served this place, where a request stood posted or not.
fn served<R: Abort, S: Store<Entry>>(
    rt: &R,
    desk: &Desk<S>,
    pen: &mut Pen<S>,
    mut lead: Lead<S>,
    place: u16,
    is_posted: bool,
) -> Lead<S>
    requires table { pen.old.table ≡ desk.now.table }
    requires lead { IsLeadOf pen.old lead }
    ensures table { pen.new.table ≡ desk.now.table }
    ensures lead { IsLeadOf pen.new result }
{
    assert!(rt; place < desk.places());
    let was_posted = desk.serve(pen, &mut lead, place);
    assert!(rt; was_posted == is_posted);
    lead
}

// A step of the pen that leads or of the other one: the lead then.
fn takes<R: Abort, S: Store<Entry>>(
    rt: &R,
    desk: &Desk<S>,
    leader: &mut Pen<S>,
    lead: Option<Lead<S>>,
    asker: &mut Pen<S>,
    step: Step,
) -> Option<Lead<S>>
    requires leader { leader.old.table ≡ desk.now.table }
    requires lead { IfSome lead (λ l. IsLeadOf leader.old l) }
    requires asker { asker.old.table ≡ desk.now.table }
    ensures leader { leader.new.table ≡ desk.now.table }
    ensures lead { IfSome result (λ l. IsLeadOf leader.new l) }
    ensures asker { asker.new.table ≡ desk.now.table }
{
    match (step, lead) {
        (Step::Leads(free), None) => tries(rt, desk, leader, free),
        (Step::Serves(place, posted), Some(lead)) => {
            Some(served(rt, desk, leader, lead, place, posted))
        }
        (Step::Releases, Some(lead)) => {
            desk.release(leader, lead);
            None
        }
        (step, lead) => {
            asks(rt, desk, asker, step);
            lead
        }
    }
}

// Plays the steps of the two pens. A lead that is not released is kept for good.
fn plays<R: Abort, S: Store<Entry>>(
    rt: &R,
    desk: &Desk<S>,
    leader: &mut Pen<S>,
    asker: &mut Pen<S>,
    steps: &[Step],
)
    requires leader { leader.old.table ≡ desk.now.table }
    requires asker { asker.old.table ≡ desk.now.table }
    ensures leader { leader.new.table ≡ desk.now.table }
    ensures asker { asker.new.table ≡ desk.now.table }
{
    let mut lead = None;
    for step in steps {
        lead = takes(rt, desk, leader, lead, asker, *step);
    }
    if let Some(lead) = lead {
        drop(lead.into_book());
    }
}

// Whether the desk's Book, once it is closed, has these lines; or whether the lock is held, where none
// are told.
fn closes_with<S: Store<Entry>>(desk: Desk<S>, lines: Option<&[Line]>) -> bool {
    match desk.close() {
        Ok(book) => lines == Some(book.lines().older),
        Err(LockHeld) => lines.is_none(),
    }
}

// Plays the steps on this desk, where the pen of place 0 leads and that of place 1 asks: whether it
// closes so.
fn played_on<R: Abort, S: Store<Entry>>(
    rt: &R,
    pair: Pair<S>,
    steps: &[Step],
    lines: Option<&[Line]>,
) -> bool
    requires first { pair.1.table ≡ pair.0.table }
    requires second { pair.2.table ≡ pair.0.table }
{
    let (desk, mut first, mut second) = pair;
    plays(rt, &desk, &mut first, &mut second, steps);
    closes_with(desk, lines)
}

const PUSHED: Line = Line {
    place: 1,
    serial: 1,
    operation: Operation {
        done: Done::Push(FOUR),
    },
    reply: Reply::Pushed,
};

const GOT: Line = Line {
    place: 1,
    serial: 2,
    operation: Operation { done: Done::Pop },
    reply: Reply::Got(FOUR),
};

const FOUND_NONE: Line = Line {
    place: 1,
    serial: 1,
    operation: Operation { done: Done::Pop },
    reply: Reply::Empty,
};

const SERVED: [Step; 7] = [
    Step::Posts(Request::Push(FOUR)),
    Step::Leads(true),
    Step::Serves(0, false),
    Step::Serves(1, true),
    Step::Serves(1, false),
    Step::Releases,
    Step::Looks(Some(Answer::Entered(1, Reply::Pushed))),
];

const SERVED_TWICE: [Step; 10] = [
    Step::Posts(Request::Push(FOUR)),
    Step::Leads(true),
    Step::Serves(1, true),
    Step::Looks(Some(Answer::Entered(1, Reply::Pushed))),
    Step::Posts(Request::Pop),
    Step::Looks(None),
    Step::Keeps(None),
    Step::Serves(1, true),
    Step::Releases,
    Step::Looks(Some(Answer::Entered(2, Reply::Got(FOUR)))),
];

const HALF_WRITTEN: [Step; 7] = [
    Step::Drafts(NINE),
    Step::Leads(true),
    Step::Serves(1, false),
    Step::Posts(Request::Pop),
    Step::Serves(1, true),
    Step::Releases,
    Step::Looks(Some(Answer::Entered(1, Reply::Empty))),
];

const KEPT: [Step; 5] = [
    Step::Leads(true),
    Step::Keeps(None),
    Step::Releases,
    Step::Keeps(Some(0)),
    Step::Leads(false),
];

// Plays these steps on a desk of two pens, whose Book has these lines then; or none is handed out, where it is kept.
fn shows<R: Abort>(rt: &R, alloc: Global, shown: &str, steps: &[Step], lines: Option<&[Line]>) {
    let pair = two_pens(alloc).expect(rt, "there is memory");
    assert!(rt; played_on(rt, pair, steps, lines), "{shown}");
}

#[test]
fn schedules_of_two_pens(rt: HostRuntime) {
    let alloc = rt.alloc();
    let served = SERVED;
    let lines = [PUSHED];
    shows(
        &rt,
        alloc,
        "a leader serves the place that posted",
        &served,
        Some(&lines),
    );
    let twice = SERVED_TWICE;
    let lines = [PUSHED, GOT];
    shows(
        &rt,
        alloc,
        "one lead answers a place twice",
        &twice,
        Some(&lines),
    );
    let half = HALF_WRITTEN;
    let lines = [FOUND_NONE];
    shows(
        &rt,
        alloc,
        "a half-written record is not served",
        &half,
        Some(&lines),
    );
    let kept = KEPT;
    shows(
        &rt,
        alloc,
        "a Book that is kept holds the lock",
        &kept,
        None,
    );
}
