// Each value is dropped once.
ghost use Rattle.std.specs.Prelude.{◌≡◌, IfOk};
ghost use Rattle.std.specs.List.{All};

use split_grid::{Fits, Grid, GridError, Newcomer};
use std::alloc::{AllocError, Global};
use std::cell::Cell;
use test_aids::Counted;

/// A value that counts its drop, as the tag of its grid does.
#[derive(Drop)]
pub struct Value<'a>(Counted<'a>);

impl<'a> Fits for Value<'a> {
    type Tag = Counted<'a>;

    ghost fits = { λ tag p x. Unit {0} };
}

/// Values that count their drops here, one for each of so many places.
pub fn values_of<'a>(
    alloc: Global,
    drops: &'a Cell<u32>,
    places: u16,
) -> Result<Vec<Value<'a>>, AllocError> {
    let mut values = Vec::new(alloc);
    for _ in 0..places {
        values.push(Value(Counted::new(drops)))?;
    }
    Ok(values)
}

// A grid of these comers, whose values count their drops, and its newcomers. Its tag has gone by then.
fn opened<'a>(
    alloc: Global,
    drops: &'a Cell<u32>,
    ids: &[u64],
    places: u16,
) -> Result<(Grid<Value<'a>>, Vec<Newcomer<Value<'a>>>), GridError>
    ensures { IfOk result (λ r. All (λ n. n.table ≡ r.0.table) r.1.items) }
{
    let Ok(values) = values_of(alloc, drops, places) else {
        return Err(GridError::NoMemory);
    };
    let made = Grid::<Value>::new(alloc, ids, Counted::new(drops), values)?;
    drops.set(drops.get().saturating_sub(1));
    Ok(made)
}

// Whether a comer walks, and its value is dropped where it goes, and no sooner.
fn walks<T: Fits>(drops: &Cell<u32>, grid: &Grid<T>, newcomer: Newcomer<T>) -> bool
    requires { newcomer.table ≡ grid.now.table }
{
    let (stopped, value) = grid.walk(newcomer);
    drop(stopped);
    let before = drops.get();
    drop(value);
    before == 0 && drops.get() == 1
}

// Whether the last of these walks so, and none of the others drops a value.
fn last_walks<T: Fits>(drops: &Cell<u32>, grid: &Grid<T>, mut newcomers: Vec<Newcomer<T>>) -> bool
    requires { All (λ n. n.table ≡ grid.now.table) newcomers.items }
{
    let has_walked = match newcomers.pop() {
        Some(last) => walks(drops, grid, last),
        None => false,
    };
    drop(newcomers);
    has_walked && drops.get() == 1
}

// Whether the values of a grid of six places, where one comer walks, are dropped one by one.
fn drops_six<T: Fits>(drops: &Cell<u32>, made: (Grid<T>, Vec<Newcomer<T>>)) -> bool
    requires { All (λ n. n.table ≡ made.0.table) made.1.items }
{
    let (grid, newcomers) = made;
    let before = drops.get();
    let has_walked = last_walks(drops, &grid, newcomers);
    grid.close();
    before == 0 && has_walked && drops.get() == 6
}

#[test]
fn each_value_is_dropped_once(rt: HostRuntime) {
    let drops = Cell::new(0);
    let made = opened(rt.alloc(), &drops, &[7, 3, 9], 6).expect(&rt, "there is memory");
    assert!(rt; drops_six(&drops, made));
}

// Whether the three values of a grid go with it, and none with its newcomers.
fn drops_three<T: Fits>(drops: &Cell<u32>, made: (Grid<T>, Vec<Newcomer<T>>)) -> bool {
    let (grid, newcomers) = made;
    drop(grid);
    let dropped = drops.get();
    drop(newcomers);
    dropped == 3 && drops.get() == 3
}

#[test]
fn a_grid_that_goes_without_its_close_drops_its_values(rt: HostRuntime) {
    let drops = Cell::new(0);
    let made = opened(rt.alloc(), &drops, &[7, 3], 3).expect(&rt, "there is memory");
    assert!(rt; drops_three(&drops, made));
}
