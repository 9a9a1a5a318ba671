// What a comer holds: a newcomer on its way, and one that has stopped.
ghost use Rattle.std.specs.Prelude.{◌≡◌, ◌<◌, ◌≤◌, false, true};
ghost use Rattle.split_core.specs.Places.{at, place, diagonal};
ghost use Rattle.split_core.specs.Collect.{EndedScan};
ghost use Rattle.split_core.specs.declared.places.TheConstants.{MAX_PLACES};
ghost use Rattle.split_grid.specs.Opening.{places_of};

use crate::rule::{Fits, View};
use atomic_table::Seat;
use split_core::laws::law_places;
use split_core::places::place_number;
use split_core::walker::Walker;
use std::marker::Model;

/// A comer on its way. It is the right to walk, and goes from thread to thread. A contract sees of
/// it its grid's table, tag and number of comers, and the comer.
#[derive(Drop)]
pub struct Newcomer<T: Fits> {
    pub(crate) seat: Seat<Option<T>, View<T::Tag>>,
    pub(crate) walker: Walker,
}

impl<T: Fits> Model for Newcomer<T> {
    ghost use Rattle.split_grid.specs.Tokens.{Walking, Walks};
    ghost use Rattle.split_grid.specs.Rule.{comer_in};

    ghost Value = { Walking T.Tag };

    ghost view = { λ n. record {
      table = n.seat.table_id;
      tag = n.seat.me.0.tag;
      comers = n.seat.me.0.comers;
      comer = comer_in n.seat.me.0;
    } };

    ghost invariant = { λ n. Walks n.seat.table_id.slots n.seat.me n.walker };
}

/// A comer that has stopped. A contract sees of it what it sees of a newcomer, and the scan to
/// which its next door belongs: a fresh one before the first scan and after `scan_begin`, else the
/// comer's. And it sees each door that its trail scans have read, with the word.
#[derive(Drop)]
pub struct Stopped<T: Fits> {
    pub(crate) seat: Seat<Option<T>, View<T::Tag>>,
    pub(crate) walker: Walker,
}

impl<T: Fits> Model for Stopped<T> {
    ghost use Rattle.split_grid.specs.Tokens.{Resting, Rests, scan_at};
    ghost use Rattle.split_grid.specs.Rule.{comer_in};

    ghost Value = { Resting T.Tag };

    ghost view = { λ s. record {
      table = s.seat.table_id;
      tag = s.seat.me.0.tag;
      comers = s.seat.me.0.comers;
      comer = comer_in s.seat.me.0;
      scan = scan_at s.walker.cursor.doors (comer_in s.seat.me.0);
      looks = s.seat.me.0.looks;
    } };

    ghost invariant = { λ s. Rests s.seat.table_id.slots s.seat.me s.walker };
}

/// What one stride has come to: the comer is still on its way, or it has stopped and has the value
/// of its place.
pub enum Stride<T: Fits> {
    Going(Newcomer<T>),
    Home(Stopped<T>, T),
}

// The place whose door a scan reads next that has read so many: it reads them in the order of the places.
pub(crate) fn place_behind(doors: u32) -> u16
    requires { doors < MAX_PLACES }
    ensures { result ≡ doors }
{
    doors as u16
}

impl<T: Fits> Newcomer<T> {
    /// The id of the comer.
    pub fn id(&self) -> u64
        ensures { result ≡ self.now.comer.id }
    {
        self.walker.id
    }
}

impl<T: Fits> Stopped<T> {
    /// The id of the comer.
    pub fn id(&self) -> u64
        ensures { result ≡ self.now.comer.id }
    {
        self.walker.id
    }

    /// The number of the place where it has stopped, below n(n + 1)/2 for n comers.
    pub fn place(&self) -> u16
        ensures place { result ≡ at self.now.comer.turns }
        ensures within { result < places_of self.now.comers }
    {
        law_places();
        place_number(self.walker.row, self.walker.column)
    }

    /// How many doors its scan has read: 0 before the first and after `scan_begin`, and each door
    /// of the grid once at most.
    pub fn doors(&self) -> u32
        ensures doors { result ≡ self.now.scan.doors }
        ensures within { result ≤ places_of self.now.comers }
    {
        law_places();
        self.walker.cursor.doors
    }

    // What is known of where it stands.
    pub(crate) fn stands(&self)
        ensures inside { diagonal self.now.comer.turns < self.now.comers }
        ensures sized { self.now.table.slots ≡ place 0 self.now.comers }
    {
        let _place = self.walker;
    }

    // Whether its scan is over. That scan is then the comer's.
    pub(crate) fn is_over(&self) -> bool
        ensures over { result ≡ self.now.scan.over }
        ensures own { self.now.scan.over ≡ true → self.now.scan ≡ self.now.comer.scan }
        ensures ended { self.now.scan.over ≡ true → EndedScan self.now.comer }
        ensures within { self.now.scan.doors ≤ places_of self.now.comers }
    {
        law_places();
        self.walker.cursor.over
    }

    // The place whose door its scan reads next.
    pub(crate) fn next_place(&self) -> u16
        requires { self.now.scan.over ≡ false }
        ensures { result ≡ place self.now.scan.row self.now.scan.column }
    {
        law_places();
        place_behind(self.walker.cursor.doors)
    }
}
