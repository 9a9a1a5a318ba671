// A scheduler with deadlines: a job's deadline is its priority, and its number its value.
ghost use Rattle.std.specs.Prelude.{◌≡◌, ℕ, IfOk, IsErrOf};
ghost use Rattle.pq_types.specs.Queue.{IsAscending};
ghost use Rattle.readme_examples.specs.Deadlines.{due_at};

use crate::agenda::{Agenda, Refused};
use pq_types::{Item, MOST_LINES};
use std::alloc::Global;

/// The order in which the jobs are run, which arrive one after another before the first is run: by
/// their deadlines, and those of one deadline as they arrived. These two facts leave no other order.
///
/// Each job is a push and a pop, and the last pop finds nothing: so there are at most 524,287 jobs,
/// else `LinesOutOfRange`, and then the journal has a line for each call. `NoMemory` where memory
/// was refused.
pub fn running_order(alloc: Global, jobs: &[Item]) -> Result<Vec<Item>, Refused>
    ensures deadlines { IfOk result (λ order. IsAscending order.items) }
    ensures enough { ¬ (IsErrOf result Refused.BookFull) }
    ensures arrival { IfOk result (λ order. (deadline : ℕ) → due_at deadline order.items ≡ due_at deadline jobs.now) }
{
    if jobs.len() >= MOST_LINES as usize / 2 {
        return Err(Refused::LinesOutOfRange);
    }
    let mut agenda = Agenda::new(alloc, 2 * jobs.len() as u32 + 1)?;
    for job in jobs {
        agenda.push(*job)?;
    }
    let mut order = Vec::new(alloc);
    while let Some(job) = agenda.pop()? {
        order.push(job)?;
    }
    Ok(order)
}
