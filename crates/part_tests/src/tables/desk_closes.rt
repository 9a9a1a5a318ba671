// A desk of two places that is closed with the testimony of both of its pens, or of one while the other sleeps.
ghost use Rattle.std.specs.Prelude.{◌≡◌, ℕ, false, [], slice_get, Some};
ghost use Rattle.pq_types.specs.Asked.{Line};
ghost use Rattle.desk_core.specs.Knows.{Knows};
ghost use Rattle.desk_core.specs.Testimonies.{after_retiring};

use crate::tables::push;
use announce_board::{Desk, Pen, Testimony};
use leftist_heap::Store;
use pq_book::{Book, Entry};
use pq_types::{Answer, Reply};
use std::alloc::Global;
use std::process::Abort;

// Closes the desk with its pens, of which none leads: there is always a Book, and both know its journal.
fn closed_with_both<S: Store<Entry>>(
    desk: Desk<S>,
    first: Pen<S>,
    second: Pen<S>,
) -> Book<S, Global>
    requires places { desk.places ≡ 2 }
    requires first_here { first.table ≡ desk.table }
    requires second_here { second.table ≡ desk.table }
    requires first_led_not { first.state.leading ≡ false }
    requires second_led_not { second.state.leading ≡ false }
    ensures first { Knows first.state.room (after_retiring first.state) result.journal }
    ensures second { Knows second.state.room (after_retiring second.state) result.journal }
{
    let one = desk.retire(first);
    let other = desk.retire(second);
    let both = desk.gather(one, other);
    desk.close_all(both)
}

// Closes the desk with one pen, which does not lead, while the other sleeps: the journal has lines of this pen alone.
fn closed_with_one<S: Store<Entry>>(
    desk: Desk<S>,
    pen: Pen<S>,
    licence: Testimony,
) -> Book<S, Global>
    requires places { desk.places ≡ 2 }
    requires here { pen.table ≡ desk.table }
    requires licence { licence ≡ record { table = desk.table; pens = []; licences = 1 } }
    requires led_not { pen.state.leading ≡ false }
    ensures knows { Knows pen.state.room (after_retiring pen.state) result.journal }
    ensures only { (i : ℕ) (l : Line) → slice_get result.journal i ≡ Some l → pen.state.place ≡ l.place }
{
    let one = desk.retire(pen);
    let all = desk.gather(one, licence);
    desk.close_all(all)
}

// The one leads and releases, the other does nothing; then both retire.
#[test]
fn a_desk_closes_with_both_of_its_pens(rt: HostRuntime) {
    let (desk, mut pens) = Desk::new(rt.alloc(), 2, 4).expect(&rt, "there is memory");
    let second = pens.pop().unwrap();
    let mut first = pens.pop().unwrap();
    let lead = desk.try_lead(&mut first).expect(&rt, "nobody leads");
    desk.release(&mut first, lead);
    let book = closed_with_both(desk, first, second);
    assert!(rt; book.len() == 0);
}

// The one pushes and retires, the other sleeps.
#[test]
fn a_desk_closes_while_one_of_its_pens_sleeps(rt: HostRuntime) {
    let (desk, mut pens) = Desk::new(rt.alloc(), 2, 4).expect(&rt, "there is memory");
    let second = pens.pop().unwrap();
    let mut first = pens.pop().unwrap();
    let (_sleeper, licence) = desk.put_to_sleep(second);
    let lead = desk.try_lead(&mut first).expect(&rt, "nobody leads");
    let answer = desk.release_with(&mut first, lead, push(7));
    assert!(rt; answer == Answer::Entered(1, Reply::Pushed));
    let book = closed_with_one(desk, first, licence);
    assert!(rt; book.len() == 1);
}

// Both sleep, the licence of the one wakes the other, which pushes and retires.
#[test]
fn a_licence_wakes_another_pen_than_gave_it(rt: HostRuntime) {
    let (desk, mut pens) = Desk::new(rt.alloc(), 2, 4).expect(&rt, "there is memory");
    let second = pens.pop().unwrap();
    let first = pens.pop().unwrap();
    let (_sleeper, licence) = desk.put_to_sleep(first);
    let (sleeper, other) = desk.put_to_sleep(second);
    let mut woken = desk.wake(sleeper, licence);
    let lead = desk.try_lead(&mut woken).expect(&rt, "nobody leads");
    let answer = desk.release_with(&mut woken, lead, push(7));
    assert!(rt; answer == Answer::Entered(1, Reply::Pushed));
    let book = closed_with_one(desk, woken, other);
    assert!(rt; book.len() == 1);
}
