// Priorities that are times.
ghost use Rattle.std.specs.Prelude.{◌≡◌, ℕ, ◌*◌, ◌^◌, ◌<◌, ◌≤◌, IfSome, IfNone};
ghost use Rattle.std.specs.Time.{instant_nanos, FitsClock};
ghost use Rattle.flat_queue.specs.Looking.{IsWanted};
ghost use Rattle.flat_queue.specs.Due.{due_nanos, IsDueAt};

use crate::looking::Wanted;
use std::time::{Duration, Instant};

// No duration has as many nanoseconds.
const DURATIONS: u128 = 18_446_744_073_709_551_616_000_000_000;

/// What times priorities are: items of priority p are due p units behind the start. All that wait at a queue for what is due
/// have the same times.
#[derive(Clone, Copy)]
pub struct Times {
    /// When items of priority 0 are due.
    pub start: Instant,
    /// How many nanoseconds a unit has; where it has none, all items are due at the start.
    pub unit: u64,
}

impl Times {
    /// When items of this priority are due. `None` where no clock comes to that time.
    pub fn due_at(&self, priority: u64) -> Option<Instant>
        ensures some { IfSome result (λ t. instant_nanos t ≡ due_nanos self.now priority) }
        ensures none { IfNone result (¬ FitsClock (due_nanos self.now priority)) }
    {
        let nanos = u128::from(priority).checked_mul(u128::from(self.unit))?;
        if nanos >= DURATIONS {
            return None;
        }
        self.start.checked_add(Duration::from_nanos_u128(nanos))
    }

    /// Those items that are due at this time, by their priorities.
    pub fn wanted_at(&self, now: Instant) -> Wanted
        ensures due { (priority : ℕ) → IsWanted result priority → IsDueAt self.now now priority }
        ensures all { (priority : ℕ) → priority < 2 ^ 64 → IsDueAt self.now now priority → IsWanted result priority }
    {
        match now.checked_duration_since(self.start) {
            None => Wanted::Nothing,
            Some(passed) => Wanted::UpTo(whole_units(passed.as_nanos(), self.unit)),
        }
    }
}

// The greatest number of units that have no more than so many nanoseconds.
fn whole_units(nanos: u128, unit: u64) -> u64
    ensures within { result * unit ≤ nanos }
    ensures greatest { (n : ℕ) → n < 2 ^ 64 → n * unit ≤ nanos → n ≤ result }
{
    if unit == 0 {
        return u64::MAX;
    }
    let whole = nanos / u128::from(unit);
    if whole > u128::from(u64::MAX) {
        return u64::MAX;
    }
    whole as u64
}
