// Which grids are not made. Each refusal drops all values that it was handed, and the tag.
use crate::tables::grid_drops::{Value, values_of};
use split_core::ids::IdError;
use split_grid::{Grid, GridError};
use std::alloc::{AllocError, Global};
use std::cell::Cell;
use test_aids::Counted;

// The ids, how many values, and what is wrong with them.
const REFUSED: [(&[u64], u16, GridError); 4] = [
    (&[], 5, GridError::Comers(IdError::NoComers)),
    (
        &[7, 7],
        9,
        GridError::Comers(IdError::RepeatedId { index: 1 }),
    ),
    (&[7, 3], 4, GridError::WrongCount),
    (&[7, 3], 0, GridError::WrongCount),
];

// Why there is no grid of these comers with so many values, and how many of them and of its tag were dropped.
fn refusal(alloc: Global, ids: &[u64], count: u16) -> Result<(Option<GridError>, u32), AllocError> {
    let drops = Cell::new(0u32);
    let values = values_of(alloc, &drops, count)?;
    let tag = Counted::new(&drops);
    let error = Grid::<Value>::new(alloc, ids, tag, values).err();
    Ok((error, drops.get()))
}

#[test]
fn ids_are_refused_before_the_count_of_values(rt: HostRuntime) {
    for &(ids, count, wanted) in &REFUSED {
        let (error, drops) = refusal(rt.alloc(), ids, count).expect(&rt, "there is memory");
        assert!(rt; error == Some(wanted) && drops == u32::from(count) + 1);
    }
}
