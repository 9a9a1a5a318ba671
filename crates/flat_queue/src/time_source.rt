// Where a call that waits until a deadline has the time from.
ghost use Rattle.std.specs.Prelude.{Option, IfSome};
ghost use Rattle.std.specs.Time.{instant_nanos, FitsClock};
ghost use Rattle.std.specs.declared.time.Instant.{Instant};

use std::time::{Clock, Instant};

/// What is asked for the time. Each clock of the standard library is such a source.
pub trait TimeSource {
    ghost use Rattle.std.specs.Prelude.{Option};
    ghost use Rattle.std.specs.declared.time.Instant.{Instant};

    /// This source may tell this time, or that none can be read.
    ghost may_tell: { Self → Option Instant → Type 0 };

    /// The time now; `None` where none can be read.
    fn time(&self) -> Option<Instant>
        ensures { may_tell self.now result };
}

impl<C: Clock> TimeSource for C {
    ghost may_tell = { λ _ told. IfSome told (λ t. FitsClock (instant_nanos t)) };

    fn time(&self) -> Option<Instant> {
        Instant::now(self).ok()
    }
}
