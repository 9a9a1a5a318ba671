// What the workers of a load do: how many they are, which items each pushes, how often it pops, and how
// often it does all that.
ghost use Rattle.std.specs.Prelude.{◌≡◌, ◌+◌, ◌*◌, ◌<◌, ◌≤◌, IfOk, IfErr};
ghost use Rattle.program_words.specs.Plan.{IsLoad, IsNoLoad, AreRounds, load_item, part_factor};

use pq_types::{Item, Part};
use thiserror::Error;

/// The most workers of a load.
pub const MOST_WORKERS: u32 = 64;

/// The most items that a worker pushes, and the most that it pops.
pub const MOST_PUSHES: u32 = 8_192;

/// The most rounds of a load.
pub const MOST_ROUNDS: u32 = 1_000_000;

/// Why there is no such load.
#[derive(Clone, Copy, Debug, PartialEq, Eq, Error)]
pub enum PlanError {
    /// The number of workers, that of their pushes or that of their rounds is out of its range.
    #[error("number out of range")]
    OutOfRange,
    /// The workers were to pop more items than they push.
    #[error("pops exceed pushes")]
    PopsExceedPushes,
}

/// A load: so many workers, each of which pushes so many items and then pops so many times, which is
/// no more, and all that in so many rounds: each round pushes the same items again. There are 1 to 64
/// workers, 1 to 8,192 pushes of each in a round, and 1 to 1,000,000 rounds.
#[derive(Clone, Copy)]
pub struct Plan {
    /// How many workers there are.
    pub workers: u32,
    /// How many items each of them pushes in a round.
    pub pushes: u32,
    /// How many times each of them pops in a round.
    pub pops: u32,
    /// How many rounds each of them makes.
    pub rounds: u32,
    pub ghost fits: { IsLoad workers pushes pops rounds },
}

impl Plan {
    /// The load of these numbers and of one round, if there is one.
    pub fn new(workers: u32, pushes: u32, pops: u32) -> Result<Plan, PlanError>
        ensures ok { IfOk result (λ plan. (plan.workers ≡ workers) × (plan.pushes ≡ pushes) × (plan.pops ≡ pops)) }
        ensures rounds { IfOk result (λ plan. plan.rounds ≡ 1) }
        ensures err { IfErr result (λ error. IsNoLoad workers pushes pops error) }
    {
        if workers == 0 || workers > MOST_WORKERS || pushes == 0 || pushes > MOST_PUSHES {
            return Err(PlanError::OutOfRange);
        }
        if pops > pushes {
            return Err(PlanError::PopsExceedPushes);
        }
        Ok(Plan {
            workers,
            pushes,
            pops,
            rounds: 1,
        })
    }

    /// The same load of so many rounds, if they are in their range.
    pub fn with_rounds(self, rounds: u32) -> Result<Plan, PlanError>
        ensures ok { IfOk result (λ plan. (plan.workers ≡ self.workers) × (plan.pushes ≡ self.pushes) × (plan.pops ≡ self.pops)) }
        ensures rounds { IfOk result (λ plan. plan.rounds ≡ rounds) }
        ensures err { IfErr result (λ error. (error ≡ PlanError.OutOfRange) × (¬ (AreRounds rounds))) }
    {
        if rounds == 0 || rounds > MOST_ROUNDS {
            return Err(PlanError::OutOfRange);
        }
        let Plan {
            workers,
            pushes,
            pops,
            rounds: _,
        } = self;
        Ok(Plan {
            workers,
            pushes,
            pops,
            rounds,
        })
    }
}

// How many times the part of a narrow item each part of an item of this width is.
fn factor_of<P: Part>() -> u64
    ensures { result ≡ part_factor P.wide }
{
    if P::is_wide() {
        return 4_294_967_297;
    }
    1
}

/// The item that this worker pushes behind so many others: its value is the worker's number, and
/// its priority `(7919 * index + 104729 * worker) mod 1000003`. Of a wide item both are 4,294,967,297 times that, so that
/// both halves of each part are equal.
#[tactic(auto, using(crate::proofs::Plans::in_width, crate::proofs::Plans::below_most, crate::proofs::Plans::few_times))]
pub fn item_of<P: Part>(worker: u32, index: u32) -> Item<P>
    requires worker { worker ≤ MOST_WORKERS }
    requires index { index < MOST_PUSHES }
    ensures item { result ≡ load_item P.wide worker index }
    ensures small { result.priority < part_factor P.wide * 1000003 }
{
    let factor = factor_of::<P>();
    let priority = (7_919 * index + 104_729 * worker) % 1_000_003;
    Item::of_parts(factor * u64::from(priority), factor * u64::from(worker))
}
