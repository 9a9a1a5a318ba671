// The running grid and the machine on the same runs: whoever stops makes a whole scan and whole trail
// scans at once, and whenever it is to step from then on it follows its trail to the next closed door;
// all that have stopped make whole scans again at the end.
use crate::structures::numbered;
use crate::tables::comers::{Home, Walk, all_going, opened};
use split_core::machine::Machine;
use split_core::seen::Seen;
use split_core::trail_machine::TrailMachine;
use std::alloc::{AllocError, Global};

// The machine, and the one with trail scans.
#[derive(Drop)]
struct Machines {
    plain: Machine<Global>,
    trailing: TrailMachine<Global>,
}

// One step of a comer on both: whether both came to the same.
fn steps_alike(machines: &mut Machines, id: u64, walk: &mut Walk) -> bool {
    let stop = match machines.plain.step(id) {
        Ok(Seen::Stopped(place)) => Some(place),
        Ok(_) => None,
        Err(_) => return false,
    };
    machines.trailing.step(id).is_ok() && walk.step() == stop && machines.plain.place_of(id) == stop
}

// Whether a whole scan by a comer on the machine finds these places closed and reads so many doors.
fn machine_scans(machines: &mut Machines, id: u64, found: &[u16], doors: u32) -> bool {
    let mut shut = 0usize;
    let mut read = 0u32;
    for _ in 0..2080 {
        match machines.plain.scan_step(id) {
            Ok(
                Seen::Door {
                    place,
                    closed,
                    over,
                },
            ) => {
                read = read.saturating_add(1);
                if closed {
                    if found.get(shut) != Some(&place) {
                        return false;
                    }
                    shut = shut.saturating_add(1);
                }
                if over {
                    break;
                }
            }
            Ok(_) => {}
            Err(_) => return false,
        }
    }
    read == doors && shut == found.len()
}

// Follows the trail of a comer on both, to the next closed door or to the end: whether it comes to that
// by the same doors, and whether the end was reached.
fn follows_alike(machines: &mut Machines, id: u64, home: &mut Home) -> (bool, bool) {
    let (found, doors) = home.follow_next();
    for door in 1..=doors {
        let Ok(
            Seen::Door {
                place,
                closed,
                over,
            },
        ) = machines.trailing.trail_step(id)
        else {
            return (false, true);
        };
        let told = if door == doors { found } else { None };
        let ends = door == doors && found.is_none();
        if told != closed.then_some(place) || ends && !over {
            return (false, true);
        }
    }
    (true, found.is_none())
}

// Whether what is left of a comer's trail scan, of a new one where none is under way, is the same on both.
fn trails_alike(machines: &mut Machines, id: u64, home: &mut Home) -> bool {
    for _ in 0..2080 {
        let (alike, over) = follows_alike(machines, id, home);
        if over {
            return alike;
        }
    }
    false
}

// Whether a comer, if it is home, finds the same places on both by a whole scan and by whole trail
// scans, and reads as many doors.
fn home_alike(
    alloc: Global,
    machines: &mut Machines,
    id: u64,
    walk: &mut Walk,
) -> Result<bool, AllocError> {
    let Walk::Home(home) = walk else {
        return Ok(true);
    };
    let mut found = Vec::new(alloc);
    let doors = home.scan(&mut found)?;
    Ok(
        machine_scans(machines, id, found.as_slice(), doors)
            && trails_alike(machines, id, home)
            && trails_alike(machines, id, home),
    )
}

// A step of a comer on both, and whole scans where that step stopped it; one that is home goes on along
// its trail: whether all was the same.
fn turn_alike(
    alloc: Global,
    machines: &mut Machines,
    id: u64,
    walk: &mut Walk,
) -> Result<bool, AllocError> {
    if let Walk::Home(home) = walk {
        return Ok(follows_alike(machines, id, home).0);
    }
    if !steps_alike(machines, id, walk) {
        return Ok(false);
    }
    home_alike(alloc, machines, id, walk)
}

// Whether each that is home makes the same scan on both; and how many are home.
fn all_scan_alike(
    alloc: Global,
    machines: &mut Machines,
    ids: &[u64],
    walks: &mut [Walk],
) -> Result<Option<u32>, AllocError> {
    let mut home_now = 0u32;
    for (who, walk) in walks.iter_mut().enumerate() {
        if walk.place().is_some() {
            home_now = home_now.saturating_add(1);
        }
        if who >= ids.len() || !home_alike(alloc, machines, ids[who], walk)? {
            return Ok(None);
        }
    }
    Ok(Some(home_now))
}

// Plays these steps on both. How many are home then, or `None` where the two went apart.
fn steps_all_alike(
    alloc: Global,
    machines: &mut Machines,
    ids: &[u64],
    walks: &mut [Walk],
    steps: &[usize],
) -> Result<Option<u32>, AllocError> {
    if walks.len() != ids.len() {
        return Ok(None);
    }
    for &who in steps {
        if who >= ids.len() || !turn_alike(alloc, machines, ids[who], &mut walks[who])? {
            return Ok(None);
        }
    }
    all_scan_alike(alloc, machines, ids, walks)
}

// The same of a new grid of so many places; `None` too where there was no memory.
fn played_alike(alloc: Global, ids: &[u64], places: u16, steps: &[usize]) -> Option<u32> {
    let Ok(plain) = Machine::new(alloc, ids) else {
        return None;
    };
    let Ok(trailing) = TrailMachine::new(alloc, ids) else {
        return None;
    };
    let mut machines = Machines { plain, trailing };
    let Ok((grid, newcomers)) = opened(alloc, ids, places) else {
        return None;
    };
    let Ok(mut walks) = all_going(alloc, &grid, newcomers) else {
        return None;
    };
    match steps_all_alike(alloc, &mut machines, ids, walks.as_mut_slice(), steps) {
        Ok(home) => home,
        Err(AllocError) => None,
    }
}

// Who steps in turn, and how many are home then.
const DOWN: [usize; 12] = [0, 0, 1, 1, 0, 0, 1, 1, 0, 0, 0, 0];

const APART: [usize; 14] = [0, 0, 0, 1, 1, 0, 1, 1, 1, 1, 0, 0, 0, 0];

const THREE: [usize; 28] = [
    0, 0, 1, 1, 2, 2, 0, 0, 1, 1, 2, 2, 0, 2, 0, 1, 1, 2, 0, 0, 2, 1, 1, 0, 2, 0, 0, 0,
];

// The ids, the places, who steps, and how many are home then. The fourth comer of the last row never
// steps.
const ROWS: [(&[u64], u16, &[usize], u32); 4] = [
    (&[7, 3], 3, &DOWN, 2),
    (&[7, 3], 3, &APART, 2),
    (&[7, 3, 9], 6, &THREE, 3),
    (&[7, 3, 9, 4], 10, &THREE, 3),
];

#[test]
fn grid_plays_machine(rt: HostRuntime) {
    for &(ids, places, steps, home) in &ROWS {
        let played = played_alike(rt.alloc(), ids, places, steps);
        assert!(rt; played == Some(home));
    }
}

// All step in turn until each has had 256 turns.
#[test]
fn grid_plays_machine_with_64_comers(rt: HostRuntime) {
    let mut turns = Vec::new(rt.alloc());
    for _ in 0..256 {
        for who in 0..64usize {
            turns.push(who).expect(&rt, "there is memory");
        }
    }
    let played = played_alike(rt.alloc(), &numbered::<64>(), 2080, turns.as_slice());
    assert!(rt; played == Some(64));
}
