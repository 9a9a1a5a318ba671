// Whether a run lost nothing: what its workers took out and what it left, against its load.
use crate::error::BenchError;
use crate::load::Load;
use crate::work::Worked;
use leftist_heap::Store;
use pq_book::{Book, Entry};
use std::alloc::Global;
use std::fmt;
use std::time::Duration;

/// What all workers of a run did, where there was one, and how many items it left, with the sum of their priorities, where its
/// journal has a line for each call.
#[derive(Clone, Copy)]
pub struct Ended {
    pub whole: Option<Worked>,
    pub left: Option<(u32, u64)>,
}

/// What a run tells, and whether it lost nothing. Where its workers made rounds themselves, its line tells what these did.
#[derive(Clone, Copy)]
pub struct Outcome {
    pub load: Load,
    pub whole: Option<Worked>,
    pub is_sound: bool,
}

impl fmt::Display for Outcome {
    fn fmt<W: fmt::Write>(&self, f: &mut fmt::Formatter<W>) -> fmt::Result {
        let took = self
            .whole
            .map_or(Duration::ZERO, |it| it.ended.duration_since(it.began));
        let found = if self.is_sound { "ok" } else { "failed" };
        write!(
            f,
            "{},{},{},audit {found}",
            self.load.workers,
            self.load.calls,
            took.as_nanos()
        )?;
        match self.whole {
            Some(worked) if worked.counts.rounds > 0 => {
                let counts = worked.counts;
                write!(f, ",{},{},{}", counts.rounds, counts.served, counts.doors)
            }
            _ => Ok(()),
        }
    }
}

// The items that are left in a Book's store, where its journal had so many lines in all: their number, and the sum of their
// priorities. Of a lasting Book's journal the last lines alone are in memory, so none of its lines is looked at.
fn left_in<S: Store<Entry>>(book: Book<S, Global>, lines: u32) -> Option<(u32, u64)> {
    if book.len() != u64::from(lines) {
        return None;
    }
    let (mut store, _, _) = book.into_parts();
    let mut sum = 0u64;
    for number in 0..=lines {
        let Some(entry) = store.pop() else {
            return Some((number, sum));
        };
        sum = sum.wrapping_add(u64::from(entry.priority));
    }
    None
}

// What all workers did.
fn gathered(workers: Vec<Result<Worked, BenchError>>) -> Result<Option<Worked>, BenchError> {
    let mut whole: Option<Worked> = None;
    for worked in workers {
        let worked = worked?;
        whole = Some(whole.map_or(worked, |before| before.with(worked)));
    }
    Ok(whole)
}

/// The end of a run whose workers ended so and left this Book.
pub fn end_of<S: Store<Entry>>(
    workers: Vec<Result<Worked, BenchError>>,
    book: Book<S, Global>,
    load: Load,
) -> Result<Ended, BenchError> {
    let left = left_in(book, load.calls);
    let whole = gathered(workers)?;
    Ok(Ended { whole, left })
}

/// The outcome of a run that ended so: it lost nothing where what came out and what is left is what the load pushes.
pub fn judged(load: Load, ended: Ended) -> Outcome {
    let is_sound = match (ended.whole, ended.left) {
        (Some(out), Some((number, sum))) => {
            out.got == load.calls.wrapping_sub(load.items)
                && out.got.wrapping_add(number) == load.items
                && out.sum.wrapping_add(sum) == load.sum()
        }
        _ => false,
    };
    Outcome {
        load,
        whole: ended.whole,
        is_sound,
    }
}
