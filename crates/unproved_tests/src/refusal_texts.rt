// The texts of the refusals that no run of the program tells, and of those of a queue and a load.
use announce_board::{DeskError, LockHeld};
use flat_queue::{CallError, QueueError};
use pq_book::BookError;
use pq_types::Refusal;
use queue_load::{LoadError, WorkerError};
use split_core::ids::IdError;
use split_grid::GridError;
use std::alloc::Global;
use std::fmt::Display;

// Whether this is the error's text.
fn has_text<E: Display>(error: &E, alloc: Global, text: &str) -> bool {
    match error.to_string(alloc) {
        Ok(written) => written.as_str() == text,
        Err(_) => false,
    }
}

#[test]
fn refusals_of_the_parts_have_their_texts(rt: HostRuntime) {
    let comers = GridError::Comers(IdError::NoComers);
    assert!(rt; has_text(&comers, rt.alloc(), "no comers"));
    assert!(rt; has_text(&GridError::WrongCount, rt.alloc(), "wrong count"));
    assert!(rt; has_text(&GridError::NoMemory, rt.alloc(), "no memory"));
    assert!(rt;
        has_text(
            &DeskError::LinesOutOfRange,
            rt.alloc(),
            "lines out of range"
        )
    );
    assert!(rt; has_text(&DeskError::NoMemory, rt.alloc(), "no memory"));
    assert!(rt; has_text(&LockHeld, rt.alloc(), "lock held"));
    assert!(rt;
        has_text(
            &BookError::LinesOutOfRange,
            rt.alloc(),
            "lines out of range"
        )
    );
    assert!(rt; has_text(&BookError::NoMemory, rt.alloc(), "no memory"));
    assert!(rt; has_text(&IdError::NoMemory, rt.alloc(), "no memory"));
}

#[test]
fn refusals_of_a_queue_have_their_texts(rt: HostRuntime) {
    const OF_QUEUES: [(QueueError, &str); 3] = [
        (QueueError::Comers(IdError::NoComers), "no comers"),
        (QueueError::LinesOutOfRange, "lines out of range"),
        (QueueError::NoMemory, "no memory"),
    ];
    for (error, text) in &OF_QUEUES {
        assert!(rt; has_text(error, rt.alloc(), text));
    }
    const OF_CALLS: [(CallError, &str); 5] = [
        (CallError::NoMemory, "no memory"),
        (CallError::BookFull, "book full"),
        (CallError::Spent, "posts spent"),
        (CallError::GaveUp, "gave up"),
        (
            CallError::Refused(Refusal::Shut),
            "refused by the queue's rules",
        ),
    ];
    for (error, text) in &OF_CALLS {
        assert!(rt; has_text(error, rt.alloc(), text));
    }
    for (refusal, code) in [
        (Refusal::Shut, 51),
        (Refusal::Unarchived, 52),
        (Refusal::Full, 53),
    ] {
        assert!(rt; CallError::Refused(refusal).code() == code);
    }
}

const OUT_OF_MEMORY: LoadError = LoadError::Worker {
    id: 7,
    reason: WorkerError::NoMemory,
};

const OUT_OF_LINES: LoadError = LoadError::Worker {
    id: 7,
    reason: WorkerError::BookFull,
};

const GAVE_UP: LoadError = LoadError::Worker {
    id: 7,
    reason: WorkerError::GaveUp,
};

#[test]
fn refusals_of_a_load_have_their_texts(rt: HostRuntime) {
    const OF_LOADS: [(LoadError, &str); 5] = [
        (LoadError::NoMemory, "no memory"),
        (LoadError::NoThread, "no thread"),
        (OUT_OF_MEMORY, "no memory"),
        (OUT_OF_LINES, "book full"),
        (GAVE_UP, "gave up"),
    ];
    for (error, text) in &OF_LOADS {
        assert!(rt; has_text(error, rt.alloc(), text));
    }
}
