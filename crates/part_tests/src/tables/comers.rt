// The comers of a grid, which a test steps one by one.
ghost use Rattle.std.specs.Prelude.{◌≡◌, IfOk};
ghost use Rattle.std.specs.List.{All};

use crate::tables::{Prize, prizes};
use split_grid::{Grid, GridError, Newcomer, Stopped, Stride, Trail};
use std::alloc::{AllocError, Global};
use std::mem;
use std::process::Abort;

/// A comer on its way, and its grid.
#[derive(Drop)]
pub struct Going<'a> {
    grid: &'a Grid<Prize>,
    newcomer: Newcomer<Prize>,
    ghost here: { newcomer.table ≡ grid.now.table },
}

/// A comer that has stopped, with its prize, its grid and its trail scan.
#[derive(Drop)]
pub struct Home<'a> {
    grid: &'a Grid<Prize>,
    pub stopped: Stopped<Prize>,
    pub prize: Prize,
    trail: Trail,
    ghost here: { stopped.table ≡ grid.now.table },
    ghost follows: { trail.comers ≡ stopped.comers },
}

/// Where a comer is; `Away` while a stride is being made.
#[derive(Drop)]
pub enum Walk<'a> {
    Going(Going<'a>),
    Home(Home<'a>),
    Away,
}

impl<'a> Home<'a> {
    pub fn scan_next(&mut self) -> Option<u16> {
        self.grid.scan_next(&mut self.stopped)
    }

    /// A whole new scan: the places that it found closed go behind `found`, and how many doors it
    /// has read.
    pub fn scan(&mut self, found: &mut Vec<u16>) -> Result<u32, AllocError> {
        self.grid.scan_begin(&mut self.stopped);
        closed_places(self.grid, &mut self.stopped, found)?;
        Ok(self.stopped.doors())
    }

    /// The next place that its trail scan finds closed, and how many doors it read to come to it. Where
    /// there is none, the next trail scan is a new one.
    pub fn follow_next(&mut self) -> (Option<u16>, u32) {
        let before = self.trail.doors();
        let place = self.grid.trail_next(&mut self.stopped, &mut self.trail);
        let doors = self.trail.doors().saturating_sub(before);
        if place.is_none() {
            self.trail = self.grid.trail_begin(&self.stopped);
        }
        (place, doors)
    }
}

// The places that a scan finds closed, as a client of the grid goes through them.
fn closed_places(
    grid: &Grid<Prize>,
    stopped: &mut Stopped<Prize>,
    found: &mut Vec<u16>,
) -> Result<(), AllocError>
    requires { stopped.old.table ≡ grid.now.table }
    ensures table { stopped.new.table ≡ stopped.old.table }
    ensures comers { stopped.new.comers ≡ stopped.old.comers }
{
    while let Some(place) = grid.scan_next(stopped) {
        found.push(place)?;
    }
    Ok(())
}

impl<'a> Walk<'a> {
    // Where the comer is behind a stride; one that is home makes none.
    fn stride(self) -> Walk<'a> {
        let Walk::Going(Going { grid, newcomer }) = self else {
            return Walk::Away;
        };
        match grid.stride(newcomer) {
            Stride::Going(newcomer) => Walk::Going(Going { grid, newcomer }),
            Stride::Home(stopped, prize) => {
                let trail = grid.trail_begin(&stopped);
                Walk::Home(Home {
                    grid,
                    stopped,
                    prize,
                    trail,
                })
            }
        }
    }

    /// The place of a comer that is home.
    pub fn place(&self) -> Option<u16> {
        match self {
            Walk::Home(home) => Some(home.stopped.place()),
            _ => None,
        }
    }

    /// One stride: the place where it has stopped the comer, if it has.
    pub fn step(&mut self) -> Option<u16> {
        *self = mem::replace(self, Walk::Away).stride();
        self.place()
    }
}

/// Nobody has taken this place before, of so many.
pub fn take_place<R: Abort>(rt: &R, taken: &mut [bool], place: u16) {
    let Some(is_taken) = taken.get_mut(usize::from(place)) else {
        panic!(rt; "there is no such place")
    };
    assert!(rt; !*is_taken);
    *is_taken = true;
}

/// A grid of so many places with its prizes, and its newcomers.
pub fn opened(
    alloc: Global,
    ids: &[u64],
    places: u16,
) -> Result<(Grid<Prize>, Vec<Newcomer<Prize>>), GridError>
    ensures { IfOk result (λ r. All (λ n. n.table ≡ r.0.table) r.1.items) }
{
    match prizes(alloc, places) {
        Ok(values) => Grid::<Prize>::new(alloc, ids, 9, values),
        Err(AllocError) => Err(GridError::NoMemory),
    }
}

/// The comers of a new grid, all on their way.
pub fn all_going<'a>(
    alloc: Global,
    grid: &'a Grid<Prize>,
    mut newcomers: Vec<Newcomer<Prize>>,
) -> Result<Vec<Walk<'a>>, AllocError>
    requires { All (λ n. n.table ≡ grid.now.table) newcomers.items }
{
    let mut walks = Vec::with_capacity(alloc, newcomers.len())?;
    while let Some(newcomer) = newcomers.pop() {
        walks.push(Walk::Going(Going { grid, newcomer }))?;
    }
    walks.reverse();
    Ok(walks)
}
