// What each worker does, and when.
use crate::callers::Caller;
use crate::error::BenchError;
use crate::load::{Load, item};
use crate::rounds::RoundCounts;
use crate::start_line::StartLine;
use pq_types::Request;
use std::sync::Wait;
use std::time::{Clock, Instant};

/// When a worker began and ended, the number of the items that it took out, the sum of their
/// priorities, and what the rounds did that it made itself, where it is one that tells.
#[derive(Clone, Copy)]
pub struct Worked {
    pub began: Instant,
    pub ended: Instant,
    pub got: u32,
    pub sum: u64,
    pub counts: RoundCounts,
}

impl Worked {
    /// What both did, from the beginning of the first to the end of the last.
    pub fn with(self, other: Worked) -> Worked {
        Worked {
            began: self.began.min(other.began),
            ended: self.ended.max(other.ended),
            got: self.got.wrapping_add(other.got),
            sum: self.sum.wrapping_add(other.sum),
            counts: self.counts.with(other.counts),
        }
    }
}

// What the clock says.
fn now<R: Clock>(rt: &R) -> Result<Instant, BenchError> {
    Instant::now(rt).map_err(|_| BenchError::Clock)
}

/// What each worker does: it waits for the others, pushes its items and pops.
pub fn work<C: Caller, R: Wait + Clock>(
    rt: &R,
    caller: &mut C,
    line: &StartLine,
    worker: u32,
    load: Load,
) -> Result<Worked, BenchError> {
    line.wait(rt);
    let began = now(rt)?;
    let mut got = 0u32;
    let mut sum = 0u64;
    for number in 0..load.pushes {
        let push = Request::Push(item(worker, number));
        caller.call(rt, push).map_err(|it| BenchError::Call(it))?;
    }
    for _ in 0..load.pops {
        if let Some(item) = caller
            .call(rt, Request::Pop)
            .map_err(|it| BenchError::Call(it))?
        {
            got = got.wrapping_add(1);
            sum = sum.wrapping_add(u64::from(item.priority));
        }
    }
    Ok(Worked {
        began,
        ended: now(rt)?,
        got,
        sum,
        counts: caller.counts(),
    })
}
