// Which calls of the grid's machine take memory, and what its opening does without.
use super::numbered;
use split_core::ids::IdError;
use split_core::machine::Machine;
use split_core::seen::Seen;
use split_core::trail_machine::TrailMachine;
use std::alloc::{Allocator, Global};
use test_aids::{Forked, Refusing};

// Whether this comer makes a whole scan, and then a whole trail scan.
fn makes_both_scans<A: Allocator>(grid: &mut TrailMachine<A>, id: u64) -> bool {
    let mut over = 0u32;
    for _ in 0..4_160 {
        let read = if over == 0 {
            grid.scan_step(id)
        } else {
            grid.trail_step(id)
        };
        match read {
            Ok(Seen::Door { over: true, .. }) => over = over.saturating_add(1),
            Ok(_) => {}
            Err(_) => return false,
        }
        if over == 2 {
            return true;
        }
    }
    false
}

// Whether all of these comers come home and make both.
fn all_make_both_scans<A: Allocator>(grid: &mut TrailMachine<A>, ids: &[u64]) -> bool {
    for _ in 0..256 {
        for &id in ids {
            let _ = grid.step(id);
        }
    }
    for &id in ids {
        if !makes_both_scans(grid, id) {
            return false;
        }
    }
    true
}

// How many requests a grid with scans of both kinds makes at its opening, and once all of its comers have
// come home and have made both; nothing where one has not.
fn requests_of_scans<A: Allocator + Clone>(
    refusing: &Refusing<Global>,
    alloc: A,
    ids: &[u64],
) -> Option<(u64, u64)> {
    let Ok(mut grid) = TrailMachine::new(alloc, ids) else {
        return None;
    };
    let opening = refusing.requests();
    all_make_both_scans(&mut grid, ids).then_some((opening, refusing.requests()))
}

// A refusal takes none either: here each comer that is home is asked to step.
#[test]
fn steps_and_scans_of_both_kinds_ask_for_no_memory(rt: HostRuntime) {
    let refusing = Refusing::nothing(rt.alloc());
    let Some((opening, all)) = requests_of_scans(&refusing, &refusing, &numbered::<64>()) else {
        panic!(rt; "not all have scanned")
    };
    assert!(rt; opening == all);
}

// How many of three comers have started on a grid whose allocator is cloned from this one.
fn started_of_three(refusing: &Refusing<Global>) -> Result<u32, IdError> {
    match Machine::new(Forked::new(refusing), &[7, 3, 9]) {
        Ok(grid) => Ok(grid.started()),
        Err(error) => Err(error),
    }
}

// Each request of the opening is refused in turn, alone and with all that follow: the clones of the
// allocator, and the memory for LAST, for the doors and for the comers. The last of them, refused
// alone, is made good: the comers' list grows by later requests.
#[test]
fn each_request_of_an_opening_refused(rt: HostRuntime) {
    for number in 1..=5 {
        let is_refused = started_of_three(&Refusing::onwards(rt.alloc(), number))
            == Err(IdError::NoMemory);
        let is_made_good = started_of_three(&Refusing::nth(rt.alloc(), number)).is_ok();
        assert!(rt;
            is_refused && is_made_good == (number == 5),
            "request {number}"
        );
    }
    let refusing = Refusing::onwards(rt.alloc(), 6);
    assert!(rt; started_of_three(&refusing) == Ok(0) && refusing.requests() == 5);
}
