// The grid's machine: ids that open none. Its runs are played by `walk`, and beside the running grid.
use super::numbered;
use split_core::ids::{IdError, check_ids};
use split_core::machine::Machine;
use std::alloc::Global;

// How many comers of a grid for these ids have started, and where there is none why.
fn started_of(alloc: Global, ids: &[u64]) -> Result<u32, IdError> {
    match Machine::new(alloc, ids) {
        Ok(grid) => Ok(grid.started()),
        Err(error) => Err(error),
    }
}

#[test]
fn bad_ids_open_no_grid(rt: HostRuntime) {
    const REFUSED: [(&[u64], IdError); 5] = [
        (&[], IdError::NoComers),
        (&[0; 65], IdError::TooManyComers),
        (&[0, 0], IdError::ZeroId { index: 0 }),
        (&[7, 0, 7], IdError::ZeroId { index: 1 }),
        (&[7, 7], IdError::RepeatedId { index: 1 }),
    ];
    for &(ids, error) in &REFUSED {
        assert!(rt; check_ids(ids) == Err(error));
        assert!(rt; started_of(rt.alloc(), ids) == Err(error));
    }
    assert!(rt; check_ids(&numbered::<64>()) == Ok(()));
}
