//! The queue for C programs: a static library whose calls take handles, each a struct of one pointer.
//! A handle is null, or points to an open queue, a member, lines of a journal or a replay of them; the calls see which,
//! and answer 42 where it is another than they need.
#![tactic(auto)]

mod archiving;
mod asking;
mod batches;
mod boxed_replay;
mod buffers;
mod calling;
mod calls;
mod closing;
mod codes;
mod contents;
mod counting;
mod handle;
mod joining;
mod journal;
mod length;
mod looking;
mod opening;
mod peeking;
mod place;
mod plain;
mod plain_batch;
mod raw_box;
mod reading;
mod replaying;
mod returning;
mod shutting;
mod tickets;
mod wait_steps;
