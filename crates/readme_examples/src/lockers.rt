// Threads get lockers of their own, and none has to know which of the others will come.
ghost use Rattle.std.specs.Prelude.{◌≡◌, ◌≢◌, IfOk, Contains, length, Err};
ghost use Rattle.std.specs.List.{All};
ghost use Rattle.readme_examples.specs.Lockers.{AreNumbered};

use split_grid::{Fits, Grid, GridError, Newcomer};
use std::alloc::{AllocError, Global};
use std::thread;
use std::thread::Threads;

/// The locker at the place of this number.
#[derive(Drop)]
pub struct Locker {
    pub number: u16,
}

impl Fits for Locker {
    type Tag = ();

    ghost fits = { λ tag p x. x.number ≡ p };
}

/// A comer's locker, and the places that were taken, or passed, when it looked.
#[derive(Drop)]
pub struct Home {
    pub locker: Locker,
    pub taken: Vec<u16>,
}

/// A locker for each of so many places.
pub fn lockers(alloc: Global, places: u16) -> Result<Vec<Locker>, AllocError>
    ensures numbered { IfOk result (λ lockers. AreNumbered lockers.items) }
    ensures count { IfOk result (λ lockers. length lockers.items ≡ places) }
{
    let mut lockers = Vec::new(alloc);
    for number in 0..places {
        lockers.push(Locker { number })?;
    }
    Ok(lockers)
}

/// What each thread does: it takes the locker of the place where it stops, and then sees which
/// places are taken. Its own is one of them.
pub fn come_home(
    alloc: Global,
    grid: &Grid<Locker>,
    newcomer: Newcomer<Locker>,
) -> Result<Home, AllocError>
    requires { newcomer.table ≡ grid.now.table }
    ensures { IfOk result (λ home. Contains home.taken.items home.locker.number) }
{
    let (mut stopped, locker) = grid.walk(newcomer);
    let mut taken = Vec::new(alloc);
    while let Some(place) = grid.scan_next(&mut stopped) {
        taken.push(place)?;
    }
    Ok(Home { locker, taken })
}

/// All these comers come home, each in a thread of its own.
pub fn all_come_home<R: Threads + Sync>(
    rt: &R,
    alloc: Global,
    grid: &Grid<Locker>,
    newcomers: Vec<Newcomer<Locker>>,
) -> Result<Vec<Result<Home, AllocError>>, AllocError>
    requires { All (λ n. n.table ≡ grid.now.table) newcomers.items }
    ensures { IfOk result (λ homes. length homes.items ≡ length newcomers.items) }
{
    thread::map_vec(
        rt,
        newcomers,
        &|newcomer: Newcomer<Locker>| come_home(alloc, grid, newcomer),
    )
}

/// A grid with a locker at each of its 8 * 9 / 2 places, and its newcomers.
pub fn opened(
    alloc: Global,
    ids: &[u64; 8],
) -> Result<(Grid<Locker>, Vec<Newcomer<Locker>>), GridError>
    ensures here { IfOk result (λ r. All (λ n. n.table ≡ r.0.table) r.1.items) }
    ensures eight { IfOk result (λ r. length r.1.items ≡ 8) }
    ensures enough { result ≢ Err GridError.WrongCount }
{
    let Ok(values) = lockers(alloc, 36) else {
        return Err(GridError::NoMemory);
    };
    let made = Grid::new(alloc, ids, (), values)?;
    Ok(made)
}
