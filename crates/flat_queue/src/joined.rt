// A count of those who have joined.
ghost use Rattle.std.specs.Prelude.{◌≤◌};
ghost use Rattle.split_core.specs.declared.places.TheConstants.{MAX_COMERS};

use split_core::places::MAX_COMERS;
use std::sync::atomic::{AtomicU32, Ordering};

/// Counts those who have joined a queue. Nothing that is proved speaks of it: where it is wrong, those
/// who wait nap for longer, or not as long. It changes only as a newcomer joins.
#[derive(Drop)]
pub(crate) struct JoinCount {
    count: AtomicU32,
}

impl JoinCount {
    /// Nobody has joined.
    pub(crate) fn new() -> JoinCount {
        JoinCount {
            count: AtomicU32::new(0),
        }
    }

    /// How many have joined, at most 64.
    pub(crate) fn get(&self) -> u32
        ensures { result ≤ MAX_COMERS }
    {
        self.count.load(Ordering::SeqCst).min(MAX_COMERS as u32)
    }

    /// One more has joined.
    pub(crate) fn add(&self) {
        self.count.fetch_add(1, Ordering::SeqCst);
    }
}
