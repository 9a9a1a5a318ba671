// A load that tells how far it is, and whose journal is written while it runs.
ghost use Rattle.std.specs.Prelude.{◌≡◌, true, false, IfSome, IsFalse, IsNone, IsSome, IsTrue};
ghost use Rattle.flatpq.specs.Endings.{Answers, IsPlain, PrintsReport, WatchedWith};
ghost use Rattle.queue_load.specs.Watched.{EndsWatched};

use crate::endings::{Ending, Outputs, tell_ending};
use crate::journals::{Kept, Left, of_narrow, of_wide};
use leftist_heap::StoreKind;
use program_words::{Asked, Job, Plan};
use queue_load::{LoadError, Report, Watch, WatchedLoad, watched_report};
use std::io::Write;
use std::sync::Wait;
use std::thread::Threads;
use std::time::{Clock, Duration, Instant};

/// For how many seconds nothing is told once it was told how far a load is.
const PAUSE: u64 = 1;

/// Tells how far a load is, at most once a second, or never.
#[derive(Drop)]
pub struct Progress<'a, C: Clock, E: Write> {
    clock: &'a C,
    errors: E,
    last: Option<Instant>,
}

impl<'a, C: Clock, E: Write> Progress<'a, C, E> {
    /// One whose first second begins now; where it is not asked, or there is no time, it tells nothing.
    pub fn new(clock: &'a C, errors: E, is_asked: bool) -> Progress<'a, C, E>
        ensures never { IsFalse is_asked → IsNone result.last }
        ensures errors { result.errors ≡ errors }
    {
        let last = if is_asked {
            Instant::now(clock).ok()
        } else {
            None
        };
        Progress {
            clock,
            errors,
            last,
        }
    }

    // Whether a second has passed, of which the next begins then.
    fn is_due(&mut self) -> bool
        ensures never { IsNone self.old.last → (result ≡ false) × (self.new ≡ self.old) }
        ensures due { IsTrue result → IsSome self.new.last }
        ensures errors { self.new.errors ≡ self.old.errors }
    {
        let (Some(last), Ok(now)) = (self.last, Instant::now(self.clock)) else {
            return false;
        };
        if now.duration_since(last) < Duration::from_secs(PAUSE) {
            return false;
        }
        self.last = Some(now);
        true
    }
}

impl<'a, C: Clock, E: Write> Watch for Progress<'a, C, E> {
    fn tell(&mut self, rounds: u64, all: u32) {
        if self.is_due() {
            let _ = writeln!(self.errors, "flatpq: {rounds} of {all} rounds");
        }
    }
}

/// The load that is asked for, where it is watched: it is to be told how far it is, or its journal is
/// written while it runs. Whether its items are wide stands behind its plan and its store.
pub fn watched_load(asked: &Asked<'_>) -> Option<(Plan, StoreKind, bool)>
    ensures load { IfSome result (λ load. asked.now.job ≡ Job.Load load.0 load.1 load.2) }
    ensures plain { IsPlain asked.now → IsNone result }
{
    let Job::Load { plan, store, wide } = asked.job else {
        return None;
    };
    if asked.progress || (asked.journal.is_some() && !plan.is_short()) {
        return Some((plan, store, wide));
    }
    None
}

// How a load of narrow items ended, the Book that it left, if any, and whether its journal is written,
// where it has a report.
fn watched(
    load: Result<(Report, Option<Kept>, bool), LoadError>,
) -> (Result<Report, LoadError>, Option<Left>, Option<bool>)
    ensures { WatchedWith false load result.0 result.1 result.2 }
{
    match load {
        Ok((report, book, is_written)) => (Ok(report), of_narrow(book), Some(is_written)),
        Err(error) => (Err(error), None, None),
    }
}

// The same of a load of wide items.
fn watched_wide(
    load: Result<(Report, Option<Kept<u64>>, bool), LoadError>,
) -> (Result<Report, LoadError>, Option<Left>, Option<bool>)
    ensures { WatchedWith true load result.0 result.1 result.2 }
{
    match load {
        Ok((report, book, is_written)) => (Ok(report), of_wide(book), Some(is_written)),
        Err(error) => (Err(error), None, None),
    }
}

// Runs a load that is watched, of wide items or of narrow ones: how it ended, the Book that it left, if any, and whether its
// journal is written, where it has a report.
fn run_either<R: Threads + Wait + Sync, W: Write, V: Watch>(
    load: WatchedLoad<'_, R>,
    wide: bool,
    journal: &mut W,
    watch: &mut V,
) -> (Result<Report, LoadError>, Option<Left>, Option<bool>)
    ensures { (end : _) × EndsWatched wide load.entry.plan (W.contents journal.old) (W.contents journal.new) end
        × WatchedWith wide end result.0 result.1 result.2 }
{
    if wide {
        return watched_wide(watched_report(load, journal, watch));
    }
    watched(watched_report(load, journal, watch))
}

/// Runs a load that is watched, of wide items or of narrow ones, and tells how it ended: the exit status, the Book that it
/// left, if any, and whether its whole journal is written, where it has a report. The output gets the report and nothing
/// else, and the errors get nothing where the status is 0.
pub fn do_watched<R: Threads + Wait + Sync, O: Write, E: Write, W: Write, V: Watch>(
    load: WatchedLoad<'_, R>,
    wide: bool,
    journal: &mut W,
    watch: &mut V,
    outputs: &mut Outputs<O, E>,
) -> (u8, Option<Left>, Option<bool>)
    ensures ends { (end : _) × (loaded : _)
        × EndsWatched wide load.entry.plan (W.contents journal.old) (W.contents journal.new) end
        × WatchedWith wide end loaded result.1 result.2 × Answers (Ending.Loaded loaded) result.0
        × PrintsReport (O.contents outputs.old.output) (O.contents outputs.new.output) loaded result.0 }
    ensures errors { result.0 ≡ 0 → outputs.new.errors ≡ outputs.old.errors }
{
    let (loaded, left, is_written) = run_either(load, wide, journal, watch);
    let ending = Ending::Loaded(loaded);
    let status = tell_ending(&ending, &mut outputs.output, &mut outputs.errors);
    (status, left, is_written)
}
