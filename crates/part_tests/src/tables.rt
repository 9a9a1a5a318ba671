// The running grid on small schedules, on 64 comers and in eight threads, and the running desk in one.
ghost use Rattle.std.specs.Prelude.{◌≡◌, ℕ, IfOk, slice_get, Some};
ghost use Rattle.announce_board.specs.Asking.{asked};

mod comers;
mod desk_closes;
mod desk_drops;
mod desk_places;
mod desk_schedules;
mod grid_drops;
mod grid_machine;
mod grid_schedules;
mod grid_threads;

use announce_board::{Desk, Pen};
use leftist_heap::Store;
use pq_book::Entry;
use pq_types::{Answer, GREATEST_SERIAL, Item, Request};
use split_grid::Fits;
use std::alloc::{AllocError, Global};
use std::process::Abort;

// A push of this priority, with value 0.
fn push(priority: u32) -> Request {
    Request::Push(Item { priority, value: 0 })
}

// Posts by an idle pen.
fn ask<R: Abort, S: Store<Entry>>(rt: &R, desk: &Desk<S>, pen: &mut Pen<S>, request: Request)
    requires table { pen.old.table ≡ desk.now.table }
    ensures table { pen.new.table ≡ desk.now.table }
    ensures asks { (now : ℕ) × (pen.new ≡ record pen.old { state = asked pen.old.state request now }) }
{
    assert!(rt; pen.is_idle());
    assert!(rt; pen.posts() < GREATEST_SERIAL);
    desk.post(pen, request);
}

// Looks by a pen that waits.
fn look<R: Abort, S: Store<Entry>>(rt: &R, desk: &Desk<S>, pen: &mut Pen<S>) -> Option<Answer>
    requires table { pen.old.table ≡ desk.now.table }
    ensures table { pen.new.table ≡ desk.now.table }
{
    assert!(rt; !pen.is_idle());
    desk.look(pen)
}

/// A value that tells its place.
#[derive(Drop)]
pub struct Prize(pub u16);

impl Fits for Prize {
    type Tag = u64;

    ghost fits = { λ tag p x. x.0 ≡ p };
}

// A prize for each of so many places.
fn prizes(alloc: Global, places: u16) -> Result<Vec<Prize>, AllocError>
    ensures { IfOk result (λ v. (p : ℕ) (x : Prize) → slice_get v.items p ≡ Some x → x.0 ≡ p) }
{
    let mut prizes = Vec::new(alloc);
    for place in 0..places {
        prizes.push(Prize(place))?;
    }
    Ok(prizes)
}
