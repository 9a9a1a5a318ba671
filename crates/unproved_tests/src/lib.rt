//! The tests that `./test` runs and does not prove: `tests/unproved` runs them with checks at run time and under
//! the address sanitizer. They count drops and requests for memory, go through every size, compare texts, make calls,
//! and run loads and the examples.
//!
//! Worked runs, which say step by step what comes out, are proved too: `part_tests` and `queue_tests` have those.
#![tactic(auto)]

#[cfg(test)]
mod announced;
#[cfg(test)]
mod batches;
#[cfg(test)]
mod common;
#[cfg(test)]
mod counts;
#[cfg(test)]
mod dues;
#[cfg(test)]
mod ends;
#[cfg(test)]
mod examples;
#[cfg(test)]
mod hints;
#[cfg(test)]
mod load_kinds;
#[cfg(test)]
mod loads;
#[cfg(test)]
mod looks;
#[cfg(test)]
mod paused_stores;
#[cfg(test)]
mod pools;
#[cfg(test)]
mod queue;
#[cfg(test)]
mod refusal_texts;
#[cfg(test)]
mod rests;
#[cfg(test)]
mod scripts;
#[cfg(test)]
mod shared_calls;
#[cfg(test)]
mod structures;
#[cfg(test)]
mod tables;
#[cfg(test)]
mod takes;
#[cfg(test)]
mod tickets;
#[cfg(test)]
mod up_to;
#[cfg(test)]
mod waits;
