//! `queue_bench`: one timed run of workers in threads on a priority queue, by the calls for Rattle; those for other languages are
//! timed by clients of the archive. `queue_bench KIND WORKERS PUSHES POPS` prints `KIND,WORKERS,CALLS,NANOSECONDS,audit ok`, or
//! `audit failed` as the last field. Behind it a run of `array-rounds` tells `ROUNDS,SERVED,DOORS`: how many rounds its workers
//! made, how many requests these served, and how many doors they read.
//!
//! It promises no speed. What it times is proved safe, and each call of a queue is one that its
//! contract allows.
#![tactic(auto)]

mod audit;
mod callers;
mod error;
mod load;
mod ordered_book;
mod rounds;
mod runs;
mod start_line;
mod words;
mod work;

use audit::judged;
use runs::run;
use std::env::Env;
use std::process::ExitCode;
use std::sync::Wait;
use std::thread::Threads;
use std::time::Clock;
use std::{env, io};
use words::{Trial, USAGE, read_words};

// The words of the command line behind the program's name.
fn command_line<R: Env + AllocGlobal>(rt: &R) -> Option<Vec<String>> {
    let mut words = env::args(rt).ok()?;
    words.next()?;
    words.collect(rt.alloc()).ok()
}

// Runs, and prints the line of the run: the exit status.
fn report<R: Threads + Wait + Clock + Print + Eprint + AllocGlobal + Sync>(
    rt: &R,
    trial: Trial<'_>,
) -> io::Result<u8> {
    match run(rt, rt.alloc(), trial).map(|ended| judged(trial.load, ended)) {
        Ok(outcome) => {
            println!(rt; "{},{outcome}", trial.word)?;
            Ok(if outcome.is_sound { 0 } else { 1 })
        }
        Err(error) => {
            eprintln!(rt; "queue_bench: {error}")?;
            Ok(1)
        }
    }
}

fn main(rt: HostRuntime) -> io::Result<ExitCode> {
    let words = command_line(&rt).unwrap_or(Vec::new(rt.alloc()));
    let status = match read_words(words.as_slice()) {
        Some(trial) => report(&rt, trial)?,
        None => {
            eprintln!(rt; "{USAGE}")?;
            2
        }
    };
    Ok(ExitCode::from(status))
}
