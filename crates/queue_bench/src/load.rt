// What each worker does in a run.
ghost use Rattle.std.specs.Prelude.{◌≡◌, ◌+◌, ◌*◌, ◌%◌};

use pq_types::{Item, MOST_LINES};

// The most workers of a run.
const MOST_WORKERS: u32 = 64;

/// So many workers, of which each pushes its items and then pops; with the number of the items that all push, and of all calls.
#[derive(Clone, Copy)]
pub struct Load {
    pub workers: u32,
    pub pushes: u32,
    pub pops: u32,
    pub items: u32,
    pub calls: u32,
}

impl Load {
    /// 1 to 64 workers, of which each pushes at least once and pops no more often than it pushes,
    /// and all of which together make at most as many calls as a journal has lines.
    pub fn new(workers: u32, pushes: u32, pops: u32) -> Option<Load> {
        if workers == 0 || workers > MOST_WORKERS || pushes == 0 || pops > pushes {
            return None;
        }
        let items = pushes.checked_mul(workers)?;
        let calls = pops.checked_mul(workers)?.checked_add(items)?;
        if u64::from(calls) > MOST_LINES {
            return None;
        }
        Some(Load {
            workers,
            pushes,
            pops,
            items,
            calls,
        })
    }

    /// The sum of the priorities that all workers push.
    pub fn sum(&self) -> u64 {
        let mut sum = 0u64;
        for worker in 0..self.workers {
            for number in 0..self.pushes {
                sum = sum.wrapping_add(u64::from(item(worker, number).priority));
            }
        }
        sum
    }
}

/// The item of this number that this worker pushes: the priorities are spread over a million.
pub fn item(worker: u32, number: u32) -> Item
    ensures priority { result.priority ≡ (7919 * worker + 104_729 * number) % 1_000_003 }
    ensures value { result.value ≡ number }
{
    let spread = 7919 * u64::from(worker) + 104_729 * u64::from(number);
    Item {
        priority: (spread % 1_000_003) as u32,
        value: number,
    }
}
