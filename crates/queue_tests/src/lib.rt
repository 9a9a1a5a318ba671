//! The worked runs of the queue that threads join, over its public calls. Its other tests are run without a proof:
//! `unproved_tests` has them.
//!
//! They stand in a crate of their own, so that the crates that they test are proved once: the tests
//! of a crate have all of it proved again.
#![tactic(auto)]

#[cfg(test)]
mod tests;
