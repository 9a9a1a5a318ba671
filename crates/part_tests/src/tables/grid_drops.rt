// A grid whose opening is refused memory drops its values and its tag.
use split_grid::{Fits, Grid, GridError, Newcomer};
use std::alloc::{AllocError, Global};
use std::cell::Cell;
use test_aids::Counted;

// A value that counts its drop, as the tag of its grid does.
#[derive(Drop)]
struct Value<'a>(Counted<'a>);

impl<'a> Fits for Value<'a> {
    type Tag = Counted<'a>;

    ghost fits = { λ tag p x. Unit {0} };
}

// Values that count their drops here, one for each of so many places.
fn values_of<'a>(
    alloc: Global,
    drops: &'a Cell<u32>,
    places: u16,
) -> Result<Vec<Value<'a>>, AllocError> {
    let mut values = Vec::new(alloc);
    for _ in 0..places {
        values.push(Value(Counted::new(drops)))?;
    }
    Ok(values)
}

// Whether the grid of three comers was made, whose tag goes at once and whose six values go with it, or all go at once.
fn is_made<T: Fits>(
    drops: &Cell<u32>,
    made: Result<(Grid<T>, Vec<Newcomer<T>>), GridError>,
) -> Option<bool> {
    match made {
        Ok((grid, newcomers)) => {
            let is_whole = newcomers.len() == 3 && drops.get() == 1;
            grid.close();
            (is_whole && drops.get() == 7).then_some(true)
        }
        Err(error) => (error == GridError::NoMemory && drops.get() == 7).then_some(false),
    }
}

// For runs in which a request for memory is refused, each in turn: the opening answers so, gives
// back what it took, and drops its values and its tag.
#[test]
fn the_opening_of_a_grid_without_memory_is_refused(rt: HostRuntime) {
    let drops = Cell::new(0u32);
    let Ok(values) = values_of(rt.alloc(), &drops, 6) else {
        return;
    };
    drops.set(0);
    let tag = Counted::new(&drops);
    let made = is_made(
        &drops,
        Grid::<Value>::new(rt.alloc(), &[7, 3, 9], tag, values),
    );
    assert!(rt; made.is_some());
    if made == Some(false) {
        println!(rt; "the opening was refused").expect(&rt, "it is written");
    }
}
