// How the program ends: what it prints then, and the exit status.
ghost use Rattle.std.specs.Prelude.{◌≡◌, ◌≢◌, ◌⊎◌, ℕ, List, true, false, Some, Ok, Err, string_bytes};
ghost use Rattle.std.specs.Io.KnownBytes.{Appends};
ghost use Rattle.byte_writer.specs.Bytes.{AppendsPart};
ghost use Rattle.flatpq.specs.Endings.{JobEnds, PlayedWith, LoadedWith, IsTold, Answers};
ghost use Rattle.flatpq.specs.Endings.{Prints, books, ran_status, audited_status, report_status};
ghost use Rattle.queue_load.specs.Load.{EndsLoad};
ghost use Rattle.queue_load.specs.LoadFaults.{load_status};
ghost use Rattle.queue_load.specs.Report.{report_text};
ghost use Rattle.queue_texts.specs.Report.{audit_text};
ghost use Rattle.program_words.specs.Words.{IsRunnable};

use crate::journals::{Kept, Left, of_narrow, of_wide};
use byte_writer::write_bytes;
use leftist_heap::StoreKind;
use line_script::RunError;
use program_words::{Job, Plan, Usage};
use queue_load::{LoadError, Report, load_report, write_load_fault, write_report};
use queue_texts::{
    AuditRefusal, AuditReport, Refusal, run_audit, run_seq, run_walk, status_of,
    write_audit_report, write_fault,
};
use std::alloc::Global;
use std::io::{Read, Write};
use std::sync::Wait;
use std::thread::Threads;

/// What is said where the workers of a load were to pop more items than they push.
const POPS_EXCEED_PUSHES: &[u8] = b"flatpq: pops exceed pushes\n";

/// What is said where a number of lines was given for a journal that is to last.
const LINES_OF_LASTING: &[u8] = b"flatpq: --lines beside --lasting\n";

/// What is said where a journal was to be written that is not kept whole.
const JOURNAL_OF_LASTING: &[u8] = b"flatpq: a lasting journal is not kept whole\n";

/// How the program ends.
#[derive(Drop)]
pub enum Ending {
    /// The words ask for no job.
    NoJob(Usage),
    /// A script was run, and ended so.
    Ran(Result<(), RunError<Refusal>>),
    /// A load was run: this is its report, or why there is none.
    Loaded(Result<Report, LoadError>),
    /// A journal was audited: this is its report, or why there is none.
    Audited(Result<AuditReport, RunError<AuditRefusal>>),
}

/// Where the program writes: standard output and standard error.
#[derive(Drop)]
pub struct Outputs<O: Write, E: Write> {
    pub output: O,
    pub errors: E,
}

// Tells of the fault, and answers its status.
fn tell_fault<E: Write>(error: &RunError<Refusal>, errors: &mut E) -> u8
    ensures { result ≡ ran_status (Err error.now) }
{
    // Where standard error takes nothing, the status still tells.
    let _ = write_fault(error, errors);
    status_of(error)
}

// Writes the report, and answers its status; a report that can't be written is a fault of a write.
fn tell_report<O: Write, E: Write>(report: &Report, output: &mut O, errors: &mut E) -> u8
    ensures status { (result ≡ report_status report.now) ⊎ (result ≡ 6) }
    ensures ok { result ≢ 6 → Appends (O.contents output.old) (O.contents output.new) (report_text report.now) }
    ensures err { result ≡ 6 → AppendsPart (O.contents output.old) (O.contents output.new) (report_text report.now) }
    ensures errors { result ≢ 6 → errors.new ≡ errors.old }
{
    match write_report(report, output) {
        Ok(()) if report.audit => 0,
        Ok(()) => 5,
        Err(_) => tell_fault(&RunError::Output, errors),
    }
}

// Tells why there is no report, and answers the status of that.
fn tell_load_fault<E: Write>(error: &LoadError, errors: &mut E) -> u8
    ensures { result ≡ load_status error.now }
{
    let _ = write_load_fault(error, errors);
    error.status()
}

// Writes the report of an audit, and answers its status; one that can't be written is a fault of a
// write.
fn tell_audit<O: Write, E: Write>(report: &AuditReport, output: &mut O, errors: &mut E) -> u8
    ensures status { (result ≡ 0) ⊎ (result ≡ 6) }
    ensures ok { result ≢ 6 → Appends (O.contents output.old) (O.contents output.new) (audit_text report.now) }
    ensures err { result ≡ 6 → AppendsPart (O.contents output.old) (O.contents output.new) (audit_text report.now) }
    ensures errors { result ≢ 6 → errors.new ≡ errors.old }
{
    match write_audit_report(report, output) {
        Ok(()) => 0,
        Err(_) => tell_fault(&RunError::Output, errors),
    }
}

// Tells why an audit has no report, and answers the status of that.
fn tell_audit_fault<E: Write>(error: &RunError<AuditRefusal>, errors: &mut E) -> u8
    ensures { result ≡ audited_status (Err error.now) }
{
    let _ = writeln!(errors, "flatpq: {error}");
    match error {
        RunError::Refused(refusal) => refusal.status(),
        RunError::TooLong { line: _ } => 3,
        RunError::NoMemory => 4,
        RunError::Input | RunError::Output => 6,
    }
}

// Prints help: help that can't be written is a fault of a write.
fn tell_help<O: Write, E: Write>(text: &str, output: &mut O, errors: &mut E) -> u8
    ensures status { (result ≡ 0) ⊎ (result ≡ 6) }
    ensures errors { result ≡ 0 → errors.new ≡ errors.old }
    ensures whole { result ≡ 0 → Appends (O.contents output.old) (O.contents output.new) text.now }
    ensures cut { result ≡ 6 → AppendsPart (O.contents output.old) (O.contents output.new) text.now }
{
    match write_bytes(output, text.as_bytes()) {
        Ok(()) => 0,
        Err(_) => tell_fault(&RunError::Output, errors),
    }
}

// Prints help to the output, and to the errors why there is no job.
fn tell_usage<O: Write, E: Write>(usage: &Usage, output: &mut O, errors: &mut E) -> u8
    ensures status { Answers (Ending.NoJob usage.now) result }
    ensures output { IsTold (Ending.NoJob usage.now) ⊎ (output.new ≡ output.old) }
    ensures errors { result ≡ 0 → errors.new ≡ errors.old }
    ensures help { (text : _) → usage.now ≡ Usage.Help text → result ≡ 0
        → Appends (O.contents output.old) (O.contents output.new) (string_bytes text) }
    ensures help_cut { (text : _) → usage.now ≡ Usage.Help text → result ≡ 6
        → AppendsPart (O.contents output.old) (O.contents output.new) (string_bytes text) }
{
    let why = match usage {
        Usage::Help(text) => return tell_help(text, output, errors),
        Usage::NoMemory => return tell_fault(&RunError::NoMemory, errors),
        Usage::Refused(text) => text.as_bytes(),
        Usage::PopsExceedPushes => POPS_EXCEED_PUSHES,
        Usage::LinesOfLasting => LINES_OF_LASTING,
        Usage::JournalOfLasting => JOURNAL_OF_LASTING,
    };
    let _ = errors.write_all(why);
    2
}

/// Prints what there is to say of an ending, and answers the exit status. Help and a report go to
/// the output, and all else to the errors; help or a report that can't be written is a fault of a
/// write.
pub fn tell_ending<O: Write, E: Write>(ending: &Ending, output: &mut O, errors: &mut E) -> u8
    ensures status { Answers ending.now result }
    // Only help and a report are written to the output, and nothing to the errors where the status
    // is 0.
    ensures output { IsTold ending.now ⊎ (output.new ≡ output.old) }
    ensures errors { result ≡ 0 → errors.new ≡ errors.old }
    ensures help { (text : _) → ending.now ≡ Ending.NoJob (Usage.Help text) → result ≡ 0
        → Appends (O.contents output.old) (O.contents output.new) (string_bytes text) }
    ensures help_cut { (text : _) → ending.now ≡ Ending.NoJob (Usage.Help text) → result ≡ 6
        → AppendsPart (O.contents output.old) (O.contents output.new) (string_bytes text) }
    ensures report { (report : _) → ending.now ≡ Ending.Loaded (Ok report) → result ≢ 6
        → Appends (O.contents output.old) (O.contents output.new) (report_text report) }
    ensures cut { (report : _) → ending.now ≡ Ending.Loaded (Ok report) → result ≡ 6
        → AppendsPart (O.contents output.old) (O.contents output.new) (report_text report) }
    ensures audit { (report : _) → ending.now ≡ Ending.Audited (Ok report) → result ≢ 6
        → Appends (O.contents output.old) (O.contents output.new) (audit_text report) }
    ensures audit_cut { (report : _) → ending.now ≡ Ending.Audited (Ok report) → result ≡ 6
        → AppendsPart (O.contents output.old) (O.contents output.new) (audit_text report) }
{
    match ending {
        Ending::NoJob(usage) => tell_usage(usage, output, errors),
        Ending::Ran(Ok(())) => 0,
        Ending::Ran(Err(error)) => tell_fault(error, errors),
        Ending::Loaded(Ok(report)) => tell_report(report, output, errors),
        Ending::Loaded(Err(error)) => tell_load_fault(error, errors),
        Ending::Audited(Ok(report)) => tell_audit(report, output, errors),
        Ending::Audited(Err(error)) => tell_audit_fault(error, errors),
    }
}

// How a run of `seq` with narrow items ended.
fn narrow(run: Result<Kept, RunError<Refusal>>) -> Result<Left, RunError<Refusal>>
    ensures { books result ≡ run }
{
    match run {
        Ok(book) => Ok(Left::Narrow(book)),
        Err(error) => Err(error),
    }
}

// How one with wide items ended.
fn wide(run: Result<Kept<u64>, RunError<Refusal>>) -> Result<Left, RunError<Refusal>>
    ensures { books result ≡ run }
{
    match run {
        Ok(book) => Ok(Left::Wide(book)),
        Err(error) => Err(error),
    }
}

// How a run of `seq` ended, and the Book that it left.
fn played(run: Result<Left, RunError<Refusal>>) -> (Ending, Option<Left>)
    ensures { PlayedWith run result.0 result.1 }
{
    match run {
        Ok(book) => (Ending::Ran(Ok(())), Some(book)),
        Err(error) => (Ending::Ran(Err(error)), None),
    }
}

// How a load of narrow items ended, and the Book that it left, if any.
fn loaded(load: Result<(Report, Option<Kept>), LoadError>) -> (Ending, Option<Left>)
    ensures { LoadedWith false load result.0 result.1 }
{
    match load {
        Ok((report, book)) => (Ending::Loaded(Ok(report)), of_narrow(book)),
        Err(error) => (Ending::Loaded(Err(error)), None),
    }
}

// The same of a load of wide items.
fn loaded_wide(load: Result<(Report, Option<Kept<u64>>), LoadError>) -> (Ending, Option<Left>)
    ensures { LoadedWith true load result.0 result.1 }
{
    match load {
        Ok((report, book)) => (Ending::Loaded(Ok(report)), of_wide(book)),
        Err(error) => (Ending::Loaded(Err(error)), None),
    }
}

// Runs a load over a store of this kind, of wide items or of narrow ones: how it ended, and the Book that it left, if any.
fn load_ending<R: Threads + Wait + Sync>(
    rt: &R,
    alloc: Global,
    plan: Plan,
    store: StoreKind,
    wide: bool,
) -> (Ending, Option<Left>)
    ensures { (load : _) × LoadedWith wide load result.0 result.1 × EndsLoad wide plan load }
{
    if wide {
        return loaded_wide(load_report(rt, alloc, plan, store));
    }
    loaded(load_report(rt, alloc, plan, store))
}

// Runs the job over this input, and writes the text of a script's run: how it ended, and the Book that it left, if any.
fn run_job<R: Threads + Wait + Sync, I: Read, O: Write>(
    rt: &R,
    alloc: Global,
    job: Job,
    input: &mut I,
    output: &mut O,
) -> (Ending, Option<Left>)
    requires { IsRunnable job }
    ensures { (read : List ℕ) → I.remaining input.old ≡ Some read
        → (text : List ℕ) × Appends (O.contents output.old) (O.contents output.new) text
        × JobEnds job read (I.remaining input.new) result.0 result.1 text }
{
    match job {
        Job::Seq {
            lines,
            store,
            wide: false,
        } => played(narrow(run_seq(alloc, input, output, lines, store))),
        Job::Seq {
            lines,
            store,
            wide: true,
        } => played(wide(run_seq(alloc, input, output, lines, store))),
        Job::Walk { scans } => (Ending::Ran(run_walk(alloc, input, output, scans)), None),
        Job::Load { plan, store, wide } => load_ending(rt, alloc, plan, store, wide),
        Job::Audit { wide: false } => (
            Ending::Audited(run_audit::<u32, Global, I>(alloc, input)),
            None,
        ),
        Job::Audit { wide: true } => (
            Ending::Audited(run_audit::<u64, Global, I>(alloc, input)),
            None,
        ),
    }
}

/// Runs the job over this input, tells how it ended, and answers the exit status, and the Book that
/// it left: `seq` one where the whole script was played, a load where it has a report and its queue
/// was a short one. The output
/// gets the text of the run, or the report of a load, and nothing else; the errors get nothing where
/// the status is 0.
pub fn do_job<R: Threads + Wait + Sync, I: Read, O: Write, E: Write>(
    rt: &R,
    alloc: Global,
    job: Job,
    input: &mut I,
    outputs: &mut Outputs<O, E>,
) -> (u8, Option<Left>)
    requires { IsRunnable job }
    ensures ran { (read : List ℕ) → I.remaining input.old ≡ Some read
        → (ending : _) × (text : List ℕ) × JobEnds job read (I.remaining input.new) ending result.1 text
        × Answers ending result.0 × Prints (O.contents outputs.old.output) (O.contents outputs.new.output) ending text result.0 }
    ensures errors { result.0 ≡ 0 → outputs.new.errors ≡ outputs.old.errors }
{
    let (ending, left) = run_job(rt, alloc, job, input, &mut outputs.output);
    let status = tell_ending(&ending, &mut outputs.output, &mut outputs.errors);
    (status, left)
}
