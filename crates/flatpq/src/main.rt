//! `flatpq`: the combining priority queue as a program. `flatpq seq` carries out the commands of a
//! script on a queue of one thread, `flatpq walk` plays a schedule of comers on a grid of splitters,
//! `flatpq load` has workers in threads push and pop on one queue, and `flatpq audit` says whether a
//! journal is a lawful one. What these do stands in the libraries below: here are the words of the
//! command line, the help, and how the program ends.
//!
//! It promises that the text out is the definition's text of what was read, or the report of the
//! load, and that the exit status is that of the run's ending.
#![tactic(auto)]

mod endings;
mod journals;
mod watching;

ghost use Rattle.std.specs.Prelude.{◌≡◌, ◌≢◌, ◌⊎◌, ℕ, List, None, Some, codes, IfErr, IfSome, IsTrue};
ghost use Rattle.std.specs.Io.KnownBytes.{Appends};
ghost use Rattle.flatpq.specs.Endings.{Answers, IsPlain, JobEnds, Prints, PrintsReport, book_of};
ghost use Rattle.program_words.specs.Words.{IsRunnable, usage_status};
ghost use Rattle.queue_texts.specs.LineText.{journal_text};

use endings::{Ending, Outputs, do_job, tell_ending};
use journals::{Left, Place, save_left, write_left};
use leftist_heap::StoreKind;
use line_script::RunError;
use program_words::{Asked, Plan, Usage, read_words};
use queue_load::{Watch, WatchedLoad};
use std::io::{Read, Write};
use std::process::ExitCode;
use std::sync::Wait;
use std::thread::Threads;
use std::{env, fs, io};
use watching::{Progress, do_watched, watched_load};

/// What the program runs on: its host, and what starts the threads of a load.
#[derive(Drop)]
struct Host<'a, R> {
    rt: &'a HostRuntime,
    threads: &'a R,
}

// The words of the command line, the program's name first.
fn command_line(rt: &HostRuntime) -> Result<Vec<String>, Usage>
    ensures { IfErr result (λ usage. (usage ≡ Usage.NoMemory) ⊎ (usage_status usage ≡ 2)) }
{
    match env::args(rt) {
        Ok(words) => words.collect(rt.alloc()).map_err(|_| Usage::NoMemory),
        Err(error) if error.kind() == io::ErrorKind::OutOfMemory => Err(Usage::NoMemory),
        Err(_) => Err(Usage::Refused(String::from_str(
            rt.alloc(),
            "error: the command line is not UTF-8\n",
        )?)),
    }
}

// Writes the journal of the Book that the run left to where the words ask for it: whether it stands there.
fn is_kept<O: Write>(
    rt: &HostRuntime,
    left: Option<Left>,
    journal: Option<&str>,
    output: &mut O,
) -> bool
    ensures none { (left ≡ None) ⊎ (journal.entry ≡ None) → IsTrue result × (output.new ≡ output.old) }
    ensures file { IfSome journal.entry (λ to. to.now ≢ codes "-" → output.new ≡ output.old) }
    ensures output { IfSome journal.entry (λ to. to.now ≡ codes "-" → IfSome left (λ book. IsTrue result
        → Appends (O.contents output.old) (O.contents output.new) (journal_text 1 (book_of book).journal))) }
{
    let (Some(book), Some(path)) = (left, journal) else {
        return true;
    };
    if path == "-" {
        write_left(&book, output).is_ok()
    } else {
        save_left(rt, &book, path).unwrap_or(false)
    }
}

// Tells that a journal was not written, and answers the status of that.
fn journal_failed<E: Write>(errors: &mut E) -> u8
    ensures { result ≡ 6 }
{
    let _ = errors.write_all(b"flatpq: journal failed\n");
    6
}

// Writes the journal of the Book that the run left, unless a write failed before: the exit status then.
fn keep<O: Write, E: Write>(
    rt: &HostRuntime,
    status: u8,
    left: Option<Left>,
    journal: Option<&str>,
    outputs: &mut Outputs<O, E>,
) -> u8
    ensures status { (result ≡ status) ⊎ (result ≡ 6) }
    ensures none { journal.entry ≡ None → (result ≡ status) × (outputs.new.output ≡ outputs.old.output) }
    ensures failed { status ≡ 6 → outputs.new.output ≡ outputs.old.output }
    ensures output { IfSome journal.entry (λ to. to.now ≡ codes "-" → IfSome left (λ book. result ≢ 6
        → Appends (O.contents outputs.old.output) (O.contents outputs.new.output) (journal_text 1 (book_of book).journal))) }
    ensures errors { result ≢ 6 → outputs.new.errors ≡ outputs.old.errors }
{
    if status != 6 && !is_kept(rt, left, journal, &mut outputs.output) {
        return journal_failed(&mut outputs.errors);
    }
    status
}

// This load, in the threads of the host, whose journal is written while it runs, or is not.
fn load_on<'a, R>(
    host: &Host<'a, R>,
    load: (Plan, StoreKind, bool),
    is_written: bool,
) -> WatchedLoad<'a, R>
    ensures { result.plan ≡ load.0 }
{
    WatchedLoad {
        rt: host.threads,
        alloc: host.rt.alloc(),
        plan: load.0,
        kind: load.1,
        is_written,
    }
}

// Runs a load that is watched and whose journal is written to the file of this name while it runs.
fn archive<R: Threads + Wait + Sync, P: Watch, O: Write, E: Write>(
    host: &Host<'_, R>,
    load: (Plan, StoreKind, bool),
    path: &str,
    watch: &mut P,
    outputs: &mut Outputs<O, E>,
) -> u8
    ensures ends { (result ≡ 6) ⊎ ((loaded : _) × Answers (Ending.Loaded loaded) result
        × PrintsReport (O.contents outputs.old.output) (O.contents outputs.new.output) loaded result) }
    ensures errors { result ≡ 0 → outputs.new.errors ≡ outputs.old.errors }
{
    let Ok((mut file, place)) = Place::open(host.rt, path) else {
        return journal_failed(&mut outputs.errors);
    };
    let written = load_on(host, load, true);
    let (status, _, written) = do_watched(written, load.2, &mut file, watch, outputs);
    let is_whole = status != 6 && written == Some(true);
    if place.end(host.rt, is_whole) || status == 6 || written.is_none() {
        return status;
    }
    journal_failed(&mut outputs.errors)
}

// Runs a load that is watched, and writes its journal.
fn watch<R: Threads + Wait + Sync, O: Write, E: Write>(
    host: &Host<'_, R>,
    asked: &Asked<'_>,
    load: (Plan, StoreKind, bool),
    outputs: &mut Outputs<O, E>,
) -> u8
    ensures ends { asked.now.journal ≡ None → (loaded : _) × Answers (Ending.Loaded loaded) result
        × PrintsReport (O.contents outputs.old.output) (O.contents outputs.new.output) loaded result }
    ensures errors { result ≡ 0 → outputs.new.errors ≡ outputs.old.errors }
{
    let mut progress = Progress::new(host.rt, host.rt.stderr(), asked.progress);
    if let (Some(path), false) = (asked.journal, load.0.is_short()) {
        return archive(host, load, path, &mut progress, outputs);
    }
    let nowhere = &mut io::sink();
    let unwritten = load_on(host, load, false);
    let (status, left, _) = do_watched(unwritten, load.2, nowhere, &mut progress, outputs);
    keep(host.rt, status, left, asked.journal, outputs)
}

// Does the job over this input, and writes its journal, unless a write failed before.
fn finish<R: Threads + Wait + Sync, I: Read, O: Write, E: Write>(
    host: &Host<'_, R>,
    asked: &Asked<'_>,
    input: &mut I,
    outputs: &mut Outputs<O, E>,
) -> u8
    requires { IsRunnable asked.now.job }
    // Of a job alone, all that do_job promises of it.
    ensures ran { IsPlain asked.now → (read : List ℕ) → I.remaining input.old ≡ Some read
        → (ending : _) × (left : _) × (text : List ℕ) × JobEnds asked.now.job read (I.remaining input.new) ending left text
        × Answers ending result × Prints (O.contents outputs.old.output) (O.contents outputs.new.output) ending text result }
    ensures errors { result ≡ 0 → outputs.new.errors ≡ outputs.old.errors }
{
    if let Some(load) = watched_load(asked) {
        return watch(host, asked, load, outputs);
    }
    let (status, left) = do_job(host.threads, host.rt.alloc(), asked.job, input, outputs);
    keep(host.rt, status, left, asked.journal, outputs)
}

// Runs the job over the file that the words name, or over standard input. A file that can't be opened
// is a fault of a read.
fn run<R: Threads + Wait + Sync, O: Write, E: Write>(
    host: &Host<'_, R>,
    asked: &Asked<'_>,
    outputs: &mut Outputs<O, E>,
) -> u8
    requires { IsRunnable asked.now.job }
    ensures { result ≡ 0 → outputs.new.errors ≡ outputs.old.errors }
{
    let Some(path) = asked.file else {
        return finish(host, asked, &mut host.rt.stdin(), outputs);
    };
    match fs::open(host.rt, path) {
        Ok(mut file) => finish(host, asked, &mut file, outputs),
        Err(_) => {
            let unread = Ending::Audited(Err(RunError::Input));
            tell_ending(&unread, &mut outputs.output, &mut outputs.errors)
        }
    }
}

// Runs what the words ask for, or tells why there is nothing to run.
fn run_words<R: Threads + Wait + Sync, O: Write, E: Write>(
    host: &Host<'_, R>,
    words: &[String],
    outputs: &mut Outputs<O, E>,
) -> u8
    ensures { result ≡ 0 → outputs.new.errors ≡ outputs.old.errors }
{
    match read_words(host.rt.alloc(), words) {
        Ok(asked) => run(host, &asked, outputs),
        Err(usage) => tell_ending(
            &Ending::NoJob(usage),
            &mut outputs.output,
            &mut outputs.errors,
        ),
    }
}

fn main(rt: HostRuntime) -> ExitCode {
    let mut outputs = Outputs {
        output: rt.stdout(),
        errors: rt.stderr(),
    };
    let host = Host {
        rt: &rt,
        threads: &rt,
    };
    let status = match command_line(&rt) {
        Ok(words) => run_words(&host, words.as_slice(), &mut outputs),
        Err(usage) => tell_ending(
            &Ending::NoJob(usage),
            &mut outputs.output,
            &mut outputs.errors,
        ),
    };
    ExitCode::from(status)
}
