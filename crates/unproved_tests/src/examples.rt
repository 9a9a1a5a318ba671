// The examples run, and tell what is expected.
use flat_queue::{Handle, Member, Queue};
use leftist_heap::{Leftist, Store};
use pq_book::Entry;
use pq_types::{Answer, Item, Reply};
use readme_examples::agenda::{Agenda, Heap, Refused};
use readme_examples::clock::{Told, next_of_two};
use readme_examples::deadlines::running_order;
use readme_examples::epochs::{new_epoch, restock};
use readme_examples::first::run;
use readme_examples::lockers::Home;
use readme_examples::notes::hand_over;
use readme_examples::simulation::flashes;
use readme_examples::two_threads::all_push_and_take;
use readme_examples::workers::{WorkError, all_work, next_run};
use readme_examples::{lockers, timers};
use std::alloc::{AllocError, Global};
use std::process::Abort;
use std::sync::Wait;
use std::test::Fail;

// The queue is closed, and its journal has so many lines.
fn closes_with<R: Abort, S: Store<Entry>>(rt: &R, queue: Queue<S>, lines: u64) {
    let book = queue.close().expect(rt, "the lock is free");
    assert!(rt; book.len() == lines);
    drop(book);
}

// An event of this number at this time.
fn event(time: u32, number: u32) -> Item {
    Item {
        priority: time,
        value: number,
    }
}

#[test]
fn the_items_of_both_threads_come_out_in_order(rt: HostRuntime) -> Result<(), Fail> {
    let told = run(&rt, rt.alloc())?;
    assert_eq!(rt; told.as_slice(), [10, 10, 20, 20, 30, 30].as_slice());
    Ok(())
}

// How many items these threads took out, and the sum of their priorities.
fn taken_by<R: Abort>(
    rt: &R,
    threads: &[Result<(Member<Heap>, Vec<Item>), WorkError>],
) -> (usize, u64) {
    let mut count = 0usize;
    let mut sum = 0u64;
    for thread in threads {
        let Ok((_, taken)) = thread else {
            panic!(rt; "the thread has ended")
        };
        for item in taken.as_slice() {
            count = count.wrapping_add(1);
            sum = sum.wrapping_add(u64::from(item.priority));
        }
    }
    (count, sum)
}

// No pop finds the queue empty, since each thread has pushed as often as it pops.
#[test]
fn two_threads_take_out_what_they_pushed(rt: HostRuntime) -> Result<(), Fail> {
    let (queue, newcomers) = Queue::new(rt.alloc(), &[1, 2], 64)?;
    let threads = all_push_and_take(&rt, rt.alloc(), &queue, newcomers);
    closes_with(&rt, queue, 12);
    assert!(rt; taken_by(&rt, threads?.as_slice()) == (6, 120));
    Ok(())
}

// The pop of the one who heard of the push is behind it.
#[test]
fn a_note_hands_a_push_over(rt: HostRuntime) -> Result<(), Fail> {
    let (queue, mut newcomers) = Queue::new(rt.alloc(), &[1, 2], 64)?;
    let (Some(second), Some(first)) = (newcomers.pop(), newcomers.pop()) else {
        panic!(rt; "there are two newcomers")
    };
    let lines = hand_over(&rt, &queue, (first, second), event(30, 9))?;
    assert!(rt; lines == (1, 2));
    closes_with(&rt, queue, 2);
    Ok(())
}

// Of two events at one time the first one put in comes first.
#[test]
fn the_earlier_event_comes_first(rt: HostRuntime) -> Result<(), Fail> {
    let told = next_of_two(rt.alloc(), event(30, 9), event(30, 8))?;
    let wanted = Told {
        first: Answer::Entered(1, Reply::Pushed),
        second: Answer::Entered(2, Reply::Pushed),
        next: Answer::Entered(3, Reply::Got(event(30, 9))),
    };
    assert!(rt; told == wanted);
    Ok(())
}

// Eight comers have come home, each to a locker that no other has, and has seen that it is taken.
fn are_home<R: Abort>(rt: &R, homes: &[Result<Home, AllocError>]) {
    let mut is_taken = [false; 36];
    for home in homes {
        let Ok(home) = home else {
            panic!(rt; "there is memory")
        };
        let number = home.locker.number as usize;
        assert!(rt; number < 36 && !is_taken[number]);
        is_taken[number] = true;
        assert!(rt; home.taken.contains(&home.locker.number));
    }
    assert!(rt; homes.len() == 8);
}

#[test]
fn eight_threads_get_eight_lockers(rt: HostRuntime) -> Result<(), Fail> {
    const IDS: [u64; 8] = [11, 12, 13, 14, 15, 16, 17, 18];
    let (grid, newcomers) = lockers::opened(rt.alloc(), &IDS)?;
    let homes = lockers::all_come_home(&rt, rt.alloc(), &grid, newcomers);
    drop(grid);
    are_home(&rt, homes?.as_slice());
    Ok(())
}

// How often these workers, who have ended, ran each task.
fn runs_of<R: Abort, M>(rt: &R, workers: &[Result<(M, Vec<Item>), WorkError>]) -> [u8; 5] {
    let mut runs = [0u8; 5];
    for worker in workers {
        let Ok((_, tasks)) = worker else {
            panic!(rt; "the worker has ended")
        };
        for task in tasks.as_slice() {
            let number = task.priority as usize % 1000;
            assert!(rt; number < 5 && runs[number] < 4);
            runs[number] += 1;
        }
    }
    runs
}

// Each of four tasks is run four times, whoever runs it; each run is a push and a pop, and each
// worker ends by a pop that finds nothing.
#[test]
fn four_workers_run_all_tasks(rt: HostRuntime) -> Result<(), Fail> {
    let (queue, newcomers) = Queue::new(rt.alloc(), &[1, 2, 3, 4], 256)?;
    let workers = all_work(&rt, rt.alloc(), &queue, newcomers);
    closes_with(&rt, queue, 36);
    assert!(rt; runs_of(&rt, workers?.as_slice()) == [0, 4, 4, 4, 4]);
    assert!(rt; next_run(event(7, 3)) == Some(event(1007, 2)));
    assert!(rt; next_run(event(7, 0)).is_none());
    assert!(rt; next_run(event(u32::MAX, 3)).is_none());
    Ok(())
}

#[test]
fn jobs_are_run_by_deadline_and_then_by_arrival(rt: HostRuntime) -> Result<(), Fail> {
    let jobs = [event(30, 1), event(10, 2), event(30, 3), event(10, 5)];
    let order = running_order(rt.alloc(), &jobs)?;
    let [first, second, third, fourth] = jobs;
    assert!(rt; order.as_slice() == &[second, fourth, first, third][..]);
    Ok(())
}

// At 15 the lamp 5 comes first: its flash was put in at 10, that of the lamp 3 at 12.
#[test]
fn lamps_flash_in_the_order_of_the_times(rt: HostRuntime) -> Result<(), Fail> {
    let simulation = flashes(rt.alloc(), &[3, 5], 8)?;
    let wanted = [
        event(3, 3),
        event(5, 5),
        event(6, 3),
        event(9, 3),
        event(10, 5),
        event(12, 3),
        event(15, 5),
        event(15, 3),
    ];
    assert!(rt; simulation.happened() == &wanted[..]);
    assert!(rt; simulation.clock() == 15);
    Ok(())
}

// An agenda whose journal is full, with the events 8 at 20 and 9 at 30.
fn full_agenda(alloc: Global) -> Result<Agenda, Refused> {
    let mut agenda = Agenda::new(alloc, 4)?;
    for (time, number) in [(30, 9), (10, 7), (20, 8)] {
        agenda.push(event(time, number))?;
    }
    agenda.pop()?;
    Ok(agenda)
}

// The new epoch, of which two lines are taken, has room for two more.
fn goes_on<R: Abort>(rt: &R, agenda: &mut Agenda) {
    assert!(rt; agenda.push(event(25, 6)) == Ok(()));
    assert!(rt; agenda.pop() == Ok(Some(event(20, 8))));
    assert!(rt; agenda.pop() == Err(Refused::BookFull));
}

#[test]
fn a_full_agenda_goes_on_in_a_new_epoch(rt: HostRuntime) -> Result<(), Fail> {
    let full = full_agenda(rt.alloc())?;
    let moved = new_epoch(rt.alloc(), full.into_book(), 4).ok();
    let mut agenda = moved.expect(&rt, "there is room");
    goes_on(&rt, &mut agenda);
    drop(agenda);
    Ok(())
}

// The member pushes what the store holds, and pops it again.
fn takes_over<R: Abort + Wait>(rt: &R, mut handle: Handle<'_, Heap>, mut store: Heap) {
    assert!(rt; restock(rt, &mut handle, &mut store) == Ok(()));
    drop(store);
    assert!(rt; handle.pop(rt) == Ok((3, Some(event(20, 8)))));
    assert!(rt; handle.pop(rt) == Ok((4, Some(event(30, 9)))));
    drop(handle);
}

#[test]
fn what_a_book_held_goes_on_in_a_queue(rt: HostRuntime) -> Result<(), Fail> {
    let (store, _, _) = full_agenda(rt.alloc())?.into_book().into_parts();
    let (queue, mut newcomers) = Queue::new(rt.alloc(), &[1], 5)?;
    let newcomer = newcomers.pop().expect(&rt, "one may come");
    takes_over(&rt, queue.enter(newcomer), store);
    drop(queue);
    Ok(())
}

// A timer of this task.
fn timer(due: u64, task: u64) -> Item<u64> {
    Item {
        priority: due,
        value: task,
    }
}

// Deadlines that differ by a nanosecond, by 2^32 of them, and not at all; tasks that no 32 bits tell apart.
#[test]
fn timers_are_due_to_the_nanosecond(rt: HostRuntime) -> Result<(), Fail> {
    let (queue, mut newcomers) = timers::opened(rt.alloc(), &[1])?;
    let mut member = queue.enter(newcomers.pop().expect(&rt, "one may come"));
    let now = 1_764_172_800_000_000_000;
    for (due, task) in [
        (now + 4_294_967_296, 9),
        (now, u64::MAX),
        (now, 1 << 32),
        (now + 1, 0),
    ] {
        assert!(&rt; timers::set(&rt, &mut member, due, task).is_ok());
    }
    assert!(&rt; timers::next_due(&rt, &mut member, now - 1) == Ok(None));
    for task in [u64::MAX, 1 << 32] {
        assert!(&rt; timers::next_due(&rt, &mut member, now) == Ok(Some(timer(now, task))));
    }
    assert!(&rt; timers::next_due(&rt, &mut member, now) == Ok(None));
    assert!(&rt; timers::next_due(&rt, &mut member, now + 2) == Ok(Some(timer(now + 1, 0))));
    assert!(&rt;
        timers::next_due(&rt, &mut member, u64::MAX) == Ok(Some(timer(now + 4_294_967_296, 9)))
    );
    assert!(&rt; timers::next_due(&rt, &mut member, u64::MAX) == Ok(None));
    drop(member);
    drop(queue);
    Ok(())
}
