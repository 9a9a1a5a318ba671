// Eight threads in one grid.
ghost use Rattle.std.specs.Prelude.{◌≡◌};
ghost use Rattle.std.specs.List.{All};

use crate::tables::Prize;
use crate::tables::comers::{opened, take_place};
use split_grid::{Grid, Newcomer, Stopped};
use std::alloc::AllocError;
use std::process::Abort;
use std::thread;
use std::thread::Threads;

fn all_walk<R: Threads + Sync>(
    rt: &R,
    grid: &Grid<Prize>,
    newcomers: Vec<Newcomer<Prize>>,
) -> Result<Vec<(Stopped<Prize>, Prize)>, AllocError>
    requires { All (λ n. n.table ≡ grid.now.table) newcomers.items }
{
    thread::map_vec(rt, newcomers, &|n: Newcomer<Prize>| grid.walk(n))
}

// Each stands at the place of its prize, and no two at the same one.
fn stand_apart<R: Abort>(rt: &R, homes: &[(Stopped<Prize>, Prize)]) {
    let mut taken = [false; 36];
    for (stopped, Prize(place)) in homes {
        assert!(rt; stopped.place() == *place);
        take_place(rt, &mut taken, *place);
    }
}

// Eight walk, and stand apart.
fn all_walk_apart<R: Threads + Sync + Abort>(
    rt: &R,
    grid: &Grid<Prize>,
    newcomers: Vec<Newcomer<Prize>>,
) -> Result<(), AllocError>
    requires { All (λ n. n.table ≡ grid.now.table) newcomers.items }
{
    let homes = all_walk(rt, grid, newcomers)?;
    assert!(rt; homes.len() == 8);
    stand_apart(rt, homes.as_slice());
    Ok(())
}

#[test]
fn eight_walk(rt: HostRuntime) {
    const IDS: [u64; 8] = [11, 12, 13, 14, 15, 16, 17, 18];
    for _ in 0..100 {
        let (grid, newcomers) = opened(rt.alloc(), &IDS, 36).expect(&rt, "there is memory");
        all_walk_apart(&rt, &grid, newcomers).expect(&rt, "there is memory");
    }
}
