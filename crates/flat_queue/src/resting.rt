// How a caller rests between two turns in vain.
ghost use Rattle.std.specs.Prelude.{◌≡◌, ◌≤◌};
ghost use Rattle.split_core.specs.declared.places.TheConstants.{MAX_COMERS};
ghost use Rattle.flat_queue.specs.declared.resting.Pause.{Pause};
ghost use Rattle.flat_queue.specs.Resting.{nap_of, own_nap, naps_behind, rest_of_tries, Pauses};

use crate::handle::Handle;
use crate::member::Member;
use crate::pending::Pending;
use leftist_heap::Store;
use pq_book::Entry;
use pq_types::Part;
use std::hint;
use std::sync::Wait;
use std::thread::{self, Parker};
use std::time::Duration;

/// How a call that found the lock held goes on. It tries the lock again at first; then it posts its request, and rests between
/// two turns in vain: it spins, then yields its thread, and then naps; or yields on, where it has no naps. Any numbers will
/// do. Each call begins anew.
#[derive(Clone, Copy, Debug, PartialEq, Eq)]
pub struct Rest {
    /// How often it tries the lock again before it posts, each time behind a pause of the processor. A call that posts
    /// nothing spins so often before it yields or naps.
    pub tries: u32,
    /// How often it spins.
    pub spins: u32,
    /// How often it yields its thread, behind the spins.
    pub yields: u32,
    /// The naps behind these.
    pub naps: Option<Naps>,
}

/// Naps, of which each is twice as long as the one before, up to the longest; but none is shorter than
/// so long for each who has joined, so that no more wake at a time, the more who nap. In microseconds;
/// the system may add some, as 50 on Linux.
#[derive(Clone, Copy, Debug, PartialEq, Eq)]
pub struct Naps {
    /// How long the next one is, where that is at most the longest.
    pub next: u32,
    /// No nap is longer, but for those who have joined.
    pub longest: u32,
    /// How long a nap is at least, for each who has joined.
    pub each: u32,
}

/// What a caller does in one rest.
#[derive(Clone, Copy)]
pub enum Pause {
    /// It gives the processor a hint that it spins.
    Spin,
    /// It lets other threads have the processor.
    Yield,
    /// It sleeps for so many microseconds.
    Nap(u64),
}

impl Rest {
    // One or two microseconds: whoever has the lock has it for less than one for each request.
    const TRIES: u32 = 32;

    /// Yields alone: a call that waits looks again as soon as it gets a processor. For fewer threads
    /// than processors, and where a hundredth of the calls may not take a nap's time.
    pub const YIELDING: Rest = Rest {
        tries: Rest::TRIES,
        spins: 0,
        yields: 0,
        naps: None,
    };

    /// Naps at once, of 8 microseconds for each who has joined and of 50 at least: few threads run at a
    /// time, and whoever leads answers those asleep. For the most calls in all.
    pub const NAPPING: Rest = Rest {
        tries: Rest::TRIES,
        spins: 0,
        yields: 0,
        naps: Some(Naps {
            next: 50,
            longest: 50,
            each: 8,
        }),
    };

    /// How each member rests that was told nothing else: it naps at once, since whoever leads may
    /// have been put aside for those who only yield.
    pub const DEFAULT: Rest = Rest::NAPPING;

    /// How a call rests that only tries the lock, and posts nothing: its tries are spins.
    pub fn of_tries(self) -> Rest
        ensures { result ≡ rest_of_tries self }
    {
        Rest {
            spins: self.spins.saturating_add(self.tries),
            ..self
        }
    }

    /// What the next rest is, where so many have joined. The caller rests by what is left thereafter.
    pub fn next_pause(&mut self, joined: u32) -> Pause
        ensures { Pauses joined self.old result self.new }
    {
        if self.spins > 0 {
            self.spins -= 1;
            return Pause::Spin;
        }
        if self.yields > 0 {
            self.yields -= 1;
            return Pause::Yield;
        }
        let Some(naps) = self.naps else {
            return Pause::Yield;
        };
        self.naps = Some(naps.behind_next());
        Pause::Nap(naps.nap(joined))
    }

    /// Rests once, where so many have joined. It may wait, and changes nothing but what is left of this.
    pub fn rest<R: Wait>(&mut self, rt: &R, joined: u32)
        ensures { (pause : Pause) × Pauses joined self.old pause self.new }
    {
        match self.next_pause(joined) {
            Pause::Spin => hint::spin_loop(),
            Pause::Yield => thread::yield_now(),
            Pause::Nap(microseconds) => {
                Parker::new().park_timeout(rt, Duration::from_micros(microseconds));
            }
        }
    }
}

impl Default for Rest {
    fn default() -> Rest {
        Rest::DEFAULT
    }
}

impl Naps {
    // How long the next nap is by itself.
    fn own(self) -> u32
        ensures { result ≡ own_nap self }
    {
        self.next.min(self.longest)
    }

    // How long the next nap is, where so many have joined.
    fn nap(self, joined: u32) -> u64
        ensures { result ≡ nap_of joined self }
    {
        let for_all = u64::from(self.each) * u64::from(joined);
        for_all.max(u64::from(self.own()))
    }

    // The naps behind the next one.
    fn behind_next(self) -> Naps
        ensures { result ≡ naps_behind self }
    {
        Naps {
            next: self.own().saturating_mul(2).min(self.longest),
            longest: self.longest,
            each: self.each,
        }
    }
}

impl<S: Store<Entry<P>>, P: Part> Member<S, P> {
    /// How its calls rest.
    pub fn rest(&self) -> Rest
        ensures { result ≡ self.now.rest }
    {
        self.rest
    }

    /// From now on its calls rest so. Nothing else of the member changes.
    pub fn set_rest(&mut self, rest: Rest)
        ensures { self.new ≡ record self.old { rest = rest } }
    {
        self.rest = rest;
    }
}

impl<'q, S: Store<Entry<P>>, P: Part> Handle<'q, S, P> {
    /// How many have joined its queue, by which its naps are as long.
    pub fn joined(&self) -> u32
        ensures { result ≤ MAX_COMERS }
    {
        self.queue.joined()
    }

    /// How its calls rest.
    pub fn rest(&self) -> Rest
        ensures { result ≡ self.now.rest }
    {
        self.member.rest()
    }

    /// The same handle, whose calls rest so.
    pub fn resting(self, rest: Rest) -> Handle<'q, S, P>
        ensures { result ≡ record self.entry { rest = rest } }
    {
        let Handle { queue, mut member } = self;
        member.set_rest(rest);
        Handle { queue, member }
    }
}

impl<'q, S: Store<Entry<P>>, P: Part> Pending<'q, S, P> {
    /// How many have joined its queue, by which its naps are as long.
    pub fn joined(&self) -> u32
        ensures { result ≤ MAX_COMERS }
    {
        self.queue.joined()
    }

    /// The same call, which rests so, as do those of the handle that it comes back as.
    pub fn resting(self, rest: Rest) -> Pending<'q, S, P>
        ensures { result ≡ record self.entry { rest = rest } }
    {
        let Pending { queue, mut member } = self;
        member.set_rest(rest);
        Pending { queue, member }
    }
}
