// Pens that sleep. A new pen that falls asleep gives a licence, and a licence alone wakes a sleeping pen. So a thread that has no
// licence wakes none, and whoever has them all knows that none is awake.
ghost use Rattle.std.specs.Prelude.{◌≡◌, ◌<◌, []};
ghost use Rattle.pq_book.specs.Book.{AllHaveRoom};
ghost use Rattle.desk_core.specs.Layout.{lock_at};
ghost use Rattle.desk_core.specs.declared.model.View.TheVariants as view;
ghost use Rattle.announce_board.specs.Sleeping.{IsNew, SleepAllowed, WakeAllowed, sleeping, licence_of, woken};
ghost use Rattle.announce_board.specs.Steps.{pen_at};
ghost use Rattle.announce_board.specs.Tokens.{IsAt};

use crate::desk::Desk;
use crate::rule::{Board, BoardSeat};
use crate::testimony::Testimony;
use crate::tokens::Pen;
use atomic_table::{Badge, Join, Split};
use desk_core::View;
use desk_core::laws::law_reached_desks;
use leftist_heap::Store;
use pq_book::Entry;
use pq_types::Part;
use std::marker::Model;

/// A pen that sleeps, as new. It names no store, so that it can lie in a slot of another table. A contract sees of it what it
/// sees of a pen.
#[derive(Drop)]
pub struct Sleeper {
    badge: Badge<View>,
    place: u16,
}

impl Model for Sleeper {
    ghost use Rattle.announce_board.specs.Sleeping.{IsSleeper};
    ghost use Rattle.announce_board.specs.Tokens.{AtDesk, pen_in};

    ghost Value = { AtDesk };

    ghost view = { λ s. record { table = s.badge.table_id; state = pen_in s.badge.views } };

    ghost invariant = { λ s. IsSleeper s.badge.table_id s.badge.views s.place };
}

/// A pen falls asleep.
struct FallAsleep;

impl Split<View> for FallAsleep {
    ghost left = { sleeping };

    ghost right = { licence_of };
}

/// A pen is woken by a licence.
struct Wake;

impl Join<View> for Wake {
    ghost both = { woken };

    ghost spent = { view.Testimony [] 0 };
}

/// Pens fall asleep and are woken as the rule of the table allows.
fn law_sleep_is_allowed<S: Store<Entry<P>>, P: Part>()
    ensures sleep { SleepAllowed P.wide (AllHaveRoom S.room) }
    ensures wake { WakeAllowed P.wide (AllHaveRoom S.room) }
{
    law_reached_desks();
}

// The new pen falls asleep.
fn fall_asleep<S: Store<Entry<P>>, P: Part>(
    board: &Board<S, P>,
    mut seat: BoardSeat<S, P>,
    place: u16,
) -> (Sleeper, Testimony)
    requires here { seat.table_id ≡ board.now.table_id }
    requires at { IsAt board.now.table_id seat.me place }
    requires slots { seat.me.1 ≡ [] }
    requires new { IsNew (pen_at seat.me) }
    requires lock { lock_at < board.now.table_id.words }
    ensures sleeper { result.0 ≡ record { table = board.now.table_id; state = pen_at seat.me } }
    ensures licence { result.1 ≡ record { table = board.now.table_id; pens = []; licences = 1 } }
{
    law_sleep_is_allowed::<S, P>();
    let given = board.split_seat::<FallAsleep>(&mut seat);
    let sleeper = Sleeper {
        badge: seat.into_badge(),
        place,
    };
    let licence = Testimony {
        badge: given.into_badge(),
    };
    (sleeper, licence)
}

// The sleeping pen is woken by the licence.
fn wake_up<S: Store<Entry<P>>, P: Part>(
    board: &Board<S, P>,
    sleeper: Sleeper,
    licence: Testimony,
) -> Pen<S, P>
    requires lock { lock_at < board.now.table_id.words }
    requires sleeper { sleeper.table ≡ board.now.table_id }
    requires licence { licence.table ≡ board.now.table_id }
    requires no_pen { licence.pens ≡ [] }
    requires counts { 0 < licence.licences }
    ensures { result ≡ sleeper }
{
    law_sleep_is_allowed::<S, P>();
    let Sleeper { badge, place } = sleeper;
    let Testimony { badge: given } = licence;
    let mut seat: BoardSeat<S, P> = badge.into_seat();
    board.join_seat::<Wake>(&mut seat, given.into_seat());
    Pen {
        seat,
        place,
        posts: 0,
        idle: true,
        wakes: 0,
    }
}

impl<S: Store<Entry<P>>, P: Part> Desk<S, P> {
    /// The pen, which is new, falls asleep. The licence is a testimony of no pen: it wakes one pen of this desk, be it this one or
    /// another.
    pub fn put_to_sleep(&self, pen: Pen<S, P>) -> (Sleeper, Testimony)
        requires table { pen.table ≡ self.now.table }
        requires new { IsNew pen.state }
        ensures sleeper { result.0 ≡ pen }
        ensures licence { result.1 ≡ record { table = self.now.table; pens = []; licences = 1 } }
    {
        let Pen { seat, place, .. } = pen;
        fall_asleep(&self.table.shared, seat, place)
    }

    /// The sleeping pen is woken by a licence, and is as it was before it fell asleep.
    pub fn wake(&self, sleeper: Sleeper, licence: Testimony) -> Pen<S, P>
        requires sleeper { sleeper.table ≡ self.now.table }
        requires licence { licence.table ≡ self.now.table }
        requires no_pen { licence.pens ≡ [] }
        requires counts { 0 < licence.licences }
        ensures { result ≡ sleeper }
    {
        wake_up(&self.table.shared, sleeper, licence)
    }
}
