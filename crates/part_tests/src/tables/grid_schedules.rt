// Runs whose stops and scans are known.
use crate::structures::numbered;
use crate::tables::comers::{Home, Walk, all_going, opened, take_place};
use std::process::Abort;

// Strides of these comers in turn, and where each stops then.
fn stride_in_turn<R: Abort>(rt: &R, walks: &mut [Walk], strides: &[(usize, Option<u16>)]) {
    for &(who, place) in strides {
        let Some(walk) = walks.get_mut(who) else {
            panic!(rt; "there is no such comer")
        };
        assert!(rt; walk.step() == place);
    }
}

// The comer 3 has stopped at place 1, and scans to the end and once more: each place that it finds closed,
// and how many doors it has read then.
fn stands_and_scans<R: Abort>(rt: &R, mut three: Home) {
    const FOUND: [(Option<u16>, u32); 5] = [
        (Some(0), 1),
        (Some(1), 2),
        (Some(2), 3),
        (None, 3),
        (None, 3),
    ];
    assert!(rt; three.stopped.id() == 3 && three.prize.0 == 1);
    for (place, doors) in &FOUND {
        assert!(rt; three.scan_next() == *place && three.stopped.doors() == *doors);
    }
}

// The last of these comers, which is home.
fn last_home<'a, R: Abort>(rt: &R, walks: &mut Vec<Walk<'a>>) -> Home<'a> {
    let Some(Walk::Home(home)) = walks.pop() else {
        panic!(rt; "it is not home")
    };
    home
}

// Two stride so, and stop at the places 2 and 1; the second one scans.
fn stop_apart<R: Abort>(rt: &R, mut walks: Vec<Walk>) {
    const STRIDES: [(usize, Option<u16>); 14] = [
        (0, None),
        (0, None),
        (0, None),
        (1, None),
        (1, None),
        (0, None),
        (1, None),
        (1, None),
        (1, None),
        (1, Some(1)),
        (0, None),
        (0, None),
        (0, None),
        (0, Some(2)),
    ];
    stride_in_turn(rt, walks.as_mut_slice(), &STRIDES);
    let three = last_home(rt, &mut walks);
    let seven = last_home(rt, &mut walks);
    assert!(rt; seven.stopped.id() == 7 && seven.prize.0 == 2 && walks.is_empty());
    drop(seven);
    drop(walks);
    stands_and_scans(rt, three);
}

#[test]
fn nobody_stops_at_the_first_place(rt: HostRuntime) {
    let (grid, newcomers) = opened(rt.alloc(), &[7, 3], 3).expect(&rt, "there is memory");
    let walks = all_going(rt.alloc(), &grid, newcomers).expect(&rt, "there is memory");
    stop_apart(&rt, walks);
}

// Whether a comer may stop at this place only now: four turns a diagonal are enough.
fn is_soon(place: u16, turn: u32) -> bool {
    let mut last = 0u32;
    for d in 0..64u32 {
        if u32::from(place) <= last {
            return turn <= 4 * (d + 1);
        }
        last = last.saturating_add(d).saturating_add(2);
    }
    false
}

// One stride of each comer in this turn, and which places they have taken then: how many stopped.
fn all_stride<R: Abort>(rt: &R, walks: &mut [Walk], turn: u32, taken: &mut [bool]) -> u32 {
    let mut home = 0u32;
    for walk in walks {
        if let Some(place) = walk.step() {
            assert!(rt; is_soon(place, turn));
            take_place(rt, taken, place);
            home = home.saturating_add(1);
        }
    }
    home
}

// All stride in turn until each has had 256 turns: how many stopped.
fn all_come_home<R: Abort>(rt: &R, mut walks: Vec<Walk>) -> u32 {
    let mut taken = [false; 2080];
    let mut home = 0u32;
    for turn in 1..=256u32 {
        home = home.saturating_add(all_stride(rt, walks.as_mut_slice(), turn, &mut taken));
    }
    home
}

#[test]
fn sixty_four_stride_in_turn(rt: HostRuntime) {
    let (grid, newcomers) = opened(rt.alloc(), &numbered::<64>(), 2080).expect(
        &rt,
        "there is memory",
    );
    let walks = all_going(rt.alloc(), &grid, newcomers).expect(&rt, "there is memory");
    assert!(rt; all_come_home(&rt, walks) == 64);
}
