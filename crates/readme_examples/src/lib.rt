//! Proved examples in Rattle, as a client of the library writes them: a simulator's clock in a
//! `Book`, an agenda for one thread, jobs with deadlines, a simulation of events, what goes on when
//! a journal is full, threads that get places of their own from a `Grid`, a scheduler's workers
//! that share a `Queue`, and timers in a queue of wide items.
//!
//! What they promise follows from the public contracts of the crates below alone.
#![tactic(auto)]

pub mod agenda;
pub mod clock;
pub mod deadlines;
pub mod epochs;
pub mod first;
pub mod lockers;
pub mod notes;
pub mod simulation;
pub mod timers;
pub mod two_threads;
pub mod workers;
