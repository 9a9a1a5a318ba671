// How many lines a load needs.
ghost use Rattle.std.specs.Prelude.{◌≡◌, ◌<◌, ◌≤◌, ◌^◌, ◌↔◌, IsTrue};
ghost use Rattle.program_words.specs.Lines.{lines_of, all_of, each_of, IsShort};

use crate::plan::Plan;
use pq_types::MOST_LINES;

impl Plan {
    /// How many times the workers do in all rounds what each does so many times in one.
    #[tactic(auto, using(crate::proofs::Plans::few_of))]
    pub fn in_all(&self, each: u32) -> u64
        requires few { each ≤ 16384 }
        ensures count { result ≡ all_of self.now each }
        ensures few { result ≤ 2 ^ 41 }
    {
        u64::from(self.workers) * (u64::from(self.rounds) * u64::from(each))
    }

    /// How many requests each worker makes in all rounds.
    pub fn of_each(&self) -> u64
        ensures { result ≡ each_of self.now }
    {
        u64::from(self.rounds) * u64::from(self.pushes + self.pops)
    }

    /// How many requests the workers make, each of which takes a line of the journal.
    pub fn requests(&self) -> u64
        ensures count { result ≡ lines_of self.now }
        ensures some { 0 < result }
    {
        self.in_all(self.pushes + self.pops)
    }

    /// Whether a short queue has room for all requests, whose journal is kept whole.
    pub fn is_short(&self) -> bool
        ensures { IsTrue result ↔ IsShort self.now }
    {
        self.requests() <= MOST_LINES
    }
}
