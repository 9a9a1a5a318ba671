// The running grid.
ghost use Rattle.std.specs.Prelude.{◌≡◌, ◌+◌, ◌*◌, ◌≤◌, false, true, MatchOption};
ghost use Rattle.split_core.specs.Scan.{fresh as fresh_scan};
ghost use Rattle.split_core.specs.Collect.{EndedScan};
ghost use Rattle.split_core.specs.declared.places.TheConstants.{MAX_COMERS};
ghost use Rattle.split_grid.specs.Calls.{IsOnItsWay, Strides, IsHome, IsStill, Finds, IsOver, ReadsOn, ReadsUpTo};
ghost use Rattle.split_grid.specs.Ways.{GoesOn};

use crate::rule::{Fits, GridTable};
use crate::steps::{read_next_door, take_step};
use crate::tokens::{Newcomer, Stopped, Stride};
use split_core::cursor::Cursor;
use split_core::laws::law_places;
use split_core::places::place_number;
use std::alloc::Global;
use std::marker::Model;

/// The grid of splitters that threads walk through a `&`, with a value of type T for each place. A
/// contract sees of it its table, its tag and the number of its comers.
#[derive(Drop)]
pub struct Grid<T: Fits> {
    pub(crate) table: GridTable<T, Global>,
    pub(crate) comers: usize,
    pub(crate) places: u16,
}

impl<T: Fits> Model for Grid<T> {
    ghost use Rattle.std.specs.Prelude.{length};
    ghost use Rattle.split_grid.specs.Tokens.{Running, IsGrid};

    ghost Value = { Running T.Tag };

    ghost view = { λ g. record { table = g.table.shared.table_id; tag = g.table.shared.key.tag; comers = g.comers } };

    ghost invariant = { λ g. IsGrid g.table.shared.table_id (length g.table.shared.key.ids.items) g.comers g.places };
}

impl<T: Fits> Grid<T> {
    /// How many comers it was opened for.
    pub fn comers(&self) -> usize
        ensures { result ≡ self.now.comers }
    {
        self.comers
    }

    /// Takes the next step of a comer on its way, exactly one event of the grid: the comer is
    /// afterwards what that one step makes of it. (That the step loads no further word, which
    /// would be no event, is read in the source.) Takes no memory, and never waits.
    pub fn stride(&self, newcomer: Newcomer<T>) -> Stride<T>
        requires table { newcomer.table ≡ self.now.table }
        ensures stood { IsOnItsWay newcomer }
        ensures stride { Strides T.fits newcomer result }
    {
        law_places();
        let Newcomer { mut seat, walker } = newcomer;
        let after = take_step(&self.table.shared, &mut seat, walker, self.places);
        if after.next.is_stopped() {
            let place = place_number(after.row, after.column);
            let value = self
                .table
                .shared
                .exchange(&mut seat, place as usize, None)
                .unwrap();
            let stopped = Stopped {
                seat,
                walker: after,
            };
            Stride::Home(stopped, value)
        } else {
            Stride::Going(Newcomer {
                seat,
                walker: after,
            })
        }
    }

    /// Strides until the comer has stopped: at most 4(d + 1) strides from its start to a stop on
    /// diagonal d, so at most 256. It has begun no scan, seen nothing, and looked at no door. The value
    /// is that of its place, and goes to nobody else. Takes no memory, and never waits, whatever the other comers
    /// do. Its way goes on from where the newcomer stood.
    #[tactic(auto, using(crate::proofs::Ways::at_start))]
    pub fn walk(&self, newcomer: Newcomer<T>) -> (Stopped<T>, T)
        requires table { newcomer.table ≡ self.now.table }
        ensures home { IsHome T.fits newcomer result.0 result.1 }
        ensures way { GoesOn newcomer.comer result.0.comer }
        ensures bounded { result.0.comer.steps ≤ 4 * MAX_COMERS }
    {
        let mut walker = newcomer;
        loop {
            match self.stride(walker) {
                Stride::Going(next) => walker = next,
                Stride::Home(stopped, value) => return (stopped, value),
            }
        }
    }

    /// The next door that the comer reads is that of place 0. No step is made.
    pub fn scan_begin(&self, stopped: &mut Stopped<T>)
        ensures { stopped.new ≡ record stopped.old { scan = fresh_scan } }
    {
        law_places();
        stopped.walker.cursor = Cursor::fresh();
    }

    /// Reads the doors of a scan in the order of the places, up to and with the next closed one,
    /// and answers its place. `None` once the scan is over: after the last place of a diagonal on
    /// which no door was closed, or of the grid; and again `None`, with no step, until
    /// `scan_begin`. Takes no memory, and never waits. A place that is answered lies behind all
    /// doors that the scan read before, so that a loop `while let Some(place) = ..` ends after at
    /// most as many turns as the grid has places, 2,080 at most. It makes no look for a trail scan.
    pub fn scan_next(&self, stopped: &mut Stopped<T>) -> Option<u16>
        requires table { stopped.old.table ≡ self.now.table }
        ensures still { IsStill stopped.old stopped.new }
        ensures answer { MatchOption result (IsOver stopped.old stopped.new) (λ p. Finds stopped.old p stopped.new) }
        ensures reads { ReadsUpTo stopped.old result stopped.new }
        ensures again { stopped.old.scan.over ≡ true → stopped.new ≡ stopped.old }
        ensures again_none { stopped.old.scan.over ≡ true → result ≡ None }
        ensures steps { stopped.new.comer.steps + stopped.old.scan.doors ≡ stopped.old.comer.steps + stopped.new.scan.doors }
        ensures own { stopped.new.scan ≡ stopped.new.comer.scan }
        ensures ended { stopped.new.scan.over ≡ true → EndedScan stopped.new.comer }
    {
        law_places();
        while !stopped.is_over() {
            let place = stopped.next_place();
            if self.read_door(stopped) {
                return Some(place);
            }
        }
        None
    }

    // Reads the next door, and tells whether it was closed.
    fn read_door(&self, stopped: &mut Stopped<T>) -> bool
        requires table { stopped.old.table ≡ self.now.table }
        requires more { stopped.old.scan.over ≡ false }
        ensures { ReadsOn stopped.old result stopped.new }
    {
        let (cursor, closed) = read_next_door(
            &self.table.shared,
            &mut stopped.seat,
            stopped.walker,
            self.comers,
        );
        stopped.walker.cursor = cursor;
        closed
    }

    /// Drops the values that nobody took.
    pub fn close(self) {}
}
