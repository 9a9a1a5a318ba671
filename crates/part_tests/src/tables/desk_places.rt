// A schedule over 2,080 places in one thread.
ghost use Rattle.std.specs.Prelude.{◌≡◌, IfOk};
ghost use Rattle.std.specs.List.{All};
ghost use Rattle.announce_board.specs.Tokens.{IsLeadOf};

use crate::tables::{ask, look, push};
use announce_board::leading::law_leads_stay;
use announce_board::{Desk, Lead, Pen};
use leftist_heap::Store;
use pq_book::Entry;
use pq_types::{Answer, Reply};
use std::alloc::{AllocError, Global};
use std::process::Abort;

// Serves all places in order: at each a request stood posted, or at none.
fn serve_all<R: Abort, S: Store<Entry>>(
    rt: &R,
    desk: &Desk<S>,
    pen: &mut Pen<S>,
    lead: &mut Lead<S>,
    posted: bool,
)
    requires table { pen.old.table ≡ desk.now.table }
    requires lead { IsLeadOf pen.old lead.old }
    ensures table { pen.new.table ≡ desk.now.table }
    ensures lead { IsLeadOf pen.new lead.new }
{
    for place in 0..desk.places() {
        let served = desk.serve(pen, lead, place);
        assert!(rt; served == posted);
    }
}

// The pen, once it has posted a push of its place's number.
fn posted<R: Abort, S: Store<Entry>>(rt: &R, desk: &Desk<S>, mut pen: Pen<S>) -> Pen<S>
    requires { pen.table ≡ desk.now.table }
    ensures { result.table ≡ desk.now.table }
{
    let place = pen.place();
    ask(rt, desk, &mut pen, push(u32::from(place)));
    pen
}

// The pens, once each has posted.
fn all_posted<R: Abort, S: Store<Entry>>(
    rt: &R,
    alloc: Global,
    desk: &Desk<S>,
    pens: Vec<Pen<S>>,
) -> Result<Vec<Pen<S>>, AllocError>
    requires { All (λ p. p.table ≡ desk.now.table) pens.items }
    ensures { IfOk result (λ made. All (λ p. p.table ≡ desk.now.table) made.items) }
{
    let mut made = Vec::new(alloc);
    for pen in pens {
        made.push(posted(rt, desk, pen))?;
    }
    Ok(made)
}

// The pen finds its push entered in the line of its place.
fn finds_its_answer<R: Abort, S: Store<Entry>>(rt: &R, desk: &Desk<S>, mut pen: Pen<S>)
    requires { pen.table ≡ desk.now.table }
{
    let number = u64::from(pen.place()) + 1;
    let answer = look(rt, desk, &mut pen);
    assert!(rt; answer == Some(Answer::Entered(number, Reply::Pushed)));
}

// Each pen does.
fn all_find<R: Abort, S: Store<Entry>>(rt: &R, desk: &Desk<S>, pens: Vec<Pen<S>>)
    requires { All (λ p. p.table ≡ desk.now.table) pens.items }
{
    for pen in pens {
        finds_its_answer(rt, desk, pen);
    }
}

// The pens of this desk, the last one first.
fn turned_round<S: Store<Entry>>(desk: &Desk<S>, mut pens: Vec<Pen<S>>) -> Vec<Pen<S>>
    requires { All (λ p. p.table ≡ desk.now.table) pens.items }
    ensures { All (λ p. p.table ≡ desk.now.table) result.items }
{
    pens.reverse();
    pens
}

// The pens but for the last one, and that one.
fn without_last<R: Abort, S: Store<Entry>>(
    rt: &R,
    desk: &Desk<S>,
    mut pens: Vec<Pen<S>>,
) -> (Vec<Pen<S>>, Pen<S>)
    requires { All (λ p. p.table ≡ desk.now.table) pens.items }
    ensures others { All (λ p. p.table ≡ desk.now.table) result.0.items }
    ensures last { result.1.table ≡ desk.now.table }
{
    let Some(last) = pens.pop() else {
        panic!(rt; "there is no pen")
    };
    (pens, last)
}

// The pen that leads posts a push of its place's number, and leads on.
fn posts_as_leader<R: Abort, S: Store<Entry>>(
    rt: &R,
    desk: &Desk<S>,
    pen: &mut Pen<S>,
    lead: &Lead<S>,
)
    requires table { pen.old.table ≡ desk.now.table }
    requires lead { IsLeadOf pen.old lead.now }
    ensures table { pen.new.table ≡ desk.now.table }
    ensures lead { IsLeadOf pen.new lead.now }
{
    law_leads_stay();
    let place = pen.place();
    ask(rt, desk, pen, push(u32::from(place)));
}

// Once the others have posted, the leader posts too, serves all places, and then once more.
fn serves_posted<R: Abort, S: Store<Entry>>(
    rt: &R,
    desk: &Desk<S>,
    pen: &mut Pen<S>,
    lead: &mut Lead<S>,
    have_posted: bool,
)
    requires table { pen.old.table ≡ desk.now.table }
    requires lead { IsLeadOf pen.old lead.old }
    ensures table { pen.new.table ≡ desk.now.table }
    ensures lead { IsLeadOf pen.new lead.new }
{
    if !have_posted {
        return;
    }
    posts_as_leader(rt, desk, pen, lead);
    serve_all(rt, desk, pen, lead, true);
    serve_all(rt, desk, pen, lead, false);
}

// The lead of a pen that finds the lock free.
fn led<R: Abort, S: Store<Entry>>(rt: &R, desk: &Desk<S>, pen: &mut Pen<S>) -> Lead<S>
    requires { pen.old.table ≡ desk.now.table }
    ensures table { pen.new.table ≡ desk.now.table }
    ensures lead { IsLeadOf pen.new result }
{
    let Some(lead) = desk.try_lead(pen) else {
        panic!(rt; "the lock is free")
    };
    lead
}

// The pens, once the leader has served all places before a post, after each has posted, itself too, and once more.
fn served<R: Abort, S: Store<Entry>>(
    rt: &R,
    alloc: Global,
    desk: &Desk<S>,
    leader: &mut Pen<S>,
    pens: Vec<Pen<S>>,
) -> Result<Vec<Pen<S>>, AllocError>
    requires leader { leader.old.table ≡ desk.now.table }
    requires others { All (λ p. p.table ≡ desk.now.table) pens.items }
    ensures leader { leader.new.table ≡ desk.now.table }
    ensures others { IfOk result (λ made. All (λ p. p.table ≡ desk.now.table) made.items) }
{
    let mut lead = led(rt, desk, leader);
    serve_all(rt, desk, leader, &mut lead, false);
    let pens = all_posted(rt, alloc, desk, pens);
    serves_posted(rt, desk, leader, &mut lead, pens.is_ok());
    desk.release(leader, lead);
    pens
}

// The pen of place 0 leads once, and each pen finds its answer then.
fn serves_each_once<R: Abort, S: Store<Entry>>(
    rt: &R,
    alloc: Global,
    desk: &Desk<S>,
    pens: Vec<Pen<S>>,
) -> Result<(), AllocError>
    requires { All (λ p. p.table ≡ desk.now.table) pens.items }
{
    let (pens, mut leader) = without_last(rt, desk, turned_round(desk, pens));
    assert!(rt; leader.place() == 0);
    let pens = served(rt, alloc, desk, &mut leader, pens)?;
    all_find(rt, desk, pens);
    finds_its_answer(rt, desk, leader);
    Ok(())
}

// All of it, and then the desk is closed: its Book has a line for each place.
fn closes_with_a_line_each<R: Abort, S: Store<Entry>>(
    rt: &R,
    alloc: Global,
    desk: Desk<S>,
    pens: Vec<Pen<S>>,
) -> Result<(), AllocError>
    requires { All (λ p. p.table ≡ desk.table) pens.items }
{
    serves_each_once(rt, alloc, &desk, pens)?;
    let Ok(book) = desk.close() else {
        panic!(rt; "the lock is free")
    };
    assert!(rt; book.len() == 2_080);
    Ok(())
}

#[test]
fn the_pen_of_place_0_serves_each_of_2080_places_once(rt: HostRuntime) {
    let (desk, pens) = Desk::new(rt.alloc(), 2_080, 2_080).expect(&rt, "there is memory");
    closes_with_a_line_each(&rt, rt.alloc(), desk, pens).expect(&rt, "there is memory");
}
