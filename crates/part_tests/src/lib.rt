//! The worked runs of what stands below the queue, over public calls: of stores, Books and the machine
//! of splitters; of the running grid and the running desk; and of scripts of which a read or a write fails.
//! Its other tests are run without a proof: `unproved_tests` has them.
//!
//! They stand in a crate of their own, so that the crates that they test are proved once: the tests
//! of a crate have all of it proved again.
#![tactic(auto)]

#[cfg(test)]
mod scripts;
#[cfg(test)]
mod structures;
#[cfg(test)]
mod tables;
