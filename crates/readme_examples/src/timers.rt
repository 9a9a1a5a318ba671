// Timers: when one is due, in nanoseconds, is its priority, and a number of 64 bits, as of a task, is its value. Both are wide.
ghost use Rattle.std.specs.Prelude.{◌≡◌, ◌≤◌, IfOk, IfSome};
ghost use Rattle.std.specs.List.{All};
ghost use Rattle.pq_types.specs.Item.{item};
ghost use Rattle.pq_types.specs.declared.request.Request.TheVariants.{Push};
ghost use Rattle.pq_types.specs.declared.answer.Reply.TheVariants.{Pushed};
ghost use Rattle.flat_queue.specs.Calling.{IsCalled};

use flat_queue::{CallError, Handle, Newcomer, Queue, QueueError, UpTo};
use leftist_heap::Leftist;
use pq_book::Entry;
use pq_types::Item;
use std::alloc::Global;
use std::sync::Wait;

type Heap = Leftist<Entry<u64>, Global>;

/// A queue of timers for the threads of these ids, and a newcomer for each.
pub fn opened(alloc: Global, ids: &[u64]) -> Result<(Queue<Heap, u64>, Vec<Newcomer>), QueueError>
    ensures { IfOk result (λ r. All (λ n. n.queue ≡ r.0) r.1.items) }
{
    Queue::wide_lasting(alloc, ids, Leftist::new(alloc))
}

/// Sets a timer: the number of its journal line.
pub fn set<R: Wait>(
    rt: &R,
    timers: &mut Handle<'_, Heap, u64>,
    due: u64,
    task: u64,
) -> Result<u64, CallError>
    ensures { IfOk result (λ number. IsCalled timers.old (Push (item due task)) number Pushed timers.new) }
{
    timers.push(
        rt,
        Item {
            priority: due,
            value: task,
        },
    )
}

/// The first timer, taken out, where it is due by now; where the first is due later, it stays.
pub fn next_due<R: Wait>(
    rt: &R,
    timers: &mut Handle<'_, Heap, u64>,
    now: u64,
) -> Result<Option<Item<u64>>, CallError>
    ensures { IfOk result (λ told. IfSome told (λ timer. timer.priority ≤ now)) }
{
    let (_, found) = timers.pop_up_to(rt, now)?;
    match found {
        UpTo::Got(timer) => Ok(Some(timer)),
        UpTo::Later(_) | UpTo::Empty => Ok(None),
    }
}
