// Which queues are not opened.
use flat_queue::{Queue, QueueError};
use split_core::ids::IdError;

// The ids, the room for lines, and why there is no such queue, if there is none.
const OPENINGS: [(&[u64], u32, Option<QueueError>); 11] = [
    (&[], 0, Some(QueueError::Comers(IdError::NoComers))),
    (
        &[7; 65],
        0,
        Some(QueueError::Comers(IdError::TooManyComers)),
    ),
    (
        &[0],
        0,
        Some(QueueError::Comers(IdError::ZeroId { index: 0 })),
    ),
    (
        &[7, 0, 7],
        4,
        Some(QueueError::Comers(IdError::ZeroId { index: 1 })),
    ),
    (
        &[7, 7],
        0,
        Some(QueueError::Comers(IdError::RepeatedId { index: 1 })),
    ),
    (&[7, 8], 0, Some(QueueError::LinesOutOfRange)),
    (&[7], 0, Some(QueueError::LinesOutOfRange)),
    (&[7], 1_048_577, Some(QueueError::LinesOutOfRange)),
    (&[7], u32::MAX, Some(QueueError::LinesOutOfRange)),
    (&[u64::MAX], 1, None),
    (&[u64::MAX], 1_048_576, None),
];

#[test]
fn refusals_come_in_order(rt: HostRuntime) {
    for (ids, lines, error) in &OPENINGS {
        let refused = Queue::new(rt.alloc(), ids, *lines).err();
        assert!(rt; refused == *error, "{ids:?}");
    }
}
