// Until when a take waits.
ghost use Rattle.std.specs.Prelude.{◌≡◌, Option, None};
ghost use Rattle.std.specs.declared.time.Instant.{Instant};
ghost use Rattle.flat_queue.specs.Taking.{MayEnd};

use crate::event_count::EventCount;
use crate::take_steps::Left;
use crate::time_source::TimeSource;
use std::sync::Wait;
use std::time::Instant;

/// Until when a take waits: by a clock, or for ever.
pub trait Deadline {
    ghost use Rattle.std.specs.Prelude.{Option};
    ghost use Rattle.std.specs.declared.time.Instant.{Instant};

    /// A take may end late where the clock told this: a time, or that none can be read.
    ghost may_end: { Self → Option Instant → Type 0 };

    /// How much time is left, and what the clock told.
    fn left(&self) -> (Left, Option<Instant>)
        ensures { result.0 ≡ Left.Nothing → may_end self.now result.1 };

    /// Sleeps while the count of events is this one, and until then at most.
    fn sleep<R: Wait>(&self, rt: &R, waiters: &EventCount, seen: u64);
}

/// A deadline that never comes.
#[derive(Drop)]
pub struct Never;

impl Deadline for Never {
    ghost may_end = { λ _ _. ⊥ };

    fn left(&self) -> (Left, Option<Instant>) {
        (Left::Enough, None)
    }

    fn sleep<R: Wait>(&self, rt: &R, waiters: &EventCount, seen: u64) {
        waiters.sleep(rt, seen);
    }
}

/// This time, by this clock.
#[derive(Drop)]
pub struct By<'c, C: Wait + TimeSource> {
    pub clock: &'c C,
    pub at: Instant,
}

impl<'c, C: Wait + TimeSource> Deadline for By<'c, C> {
    ghost may_end = { λ by told. MayEnd (C.may_tell by.clock.now) by.at told };

    fn left(&self) -> (Left, Option<Instant>) {
        let Some(now) = self.clock.time() else {
            return (Left::Nothing, None);
        };
        if self
            .at
            .checked_duration_since(now)
            .is_some_and(|left| !left.is_zero())
        {
            return (Left::Enough, Some(now));
        }
        (Left::Nothing, Some(now))
    }

    fn sleep<R: Wait>(&self, _rt: &R, waiters: &EventCount, seen: u64) {
        waiters.sleep_until(self.clock, seen, self.at);
    }
}
