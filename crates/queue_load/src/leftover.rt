// What a journal leaves in its queue: how many items, and their priorities added up.
ghost use Rattle.std.specs.Prelude.{◌≡◌, ◌+◌, ◌*◌, ◌<◌, ◌≤◌, ◌^◌, length, map, sum_by};
ghost use Rattle.pq_types.specs.Entry.{item_of};
ghost use Rattle.pq_types.specs.Item.{bound_of};
ghost use Rattle.pq_types.specs.History.{left, IsLegal};
ghost use Rattle.pq_types.specs.Operation.{request_of};
ghost use Rattle.queue_load.specs.Leftover.{HoldsFor, left_by};

use leftist_heap::Store;
use pq_book::Entry;
use pq_types::laws::law_one_more_line;
use pq_types::{Done, Line, MOST_LINES, Part, Reply};

/// The items that a journal leaves in its queue.
#[derive(Clone, Copy)]
pub struct Leftover {
    pub count: u64,
    /// Their priorities, added up.
    pub sum: u128,
}

// What is left after one line more, of what was left before it.
fn after_line<P: Part>(before: Leftover, line: &Line<P>) -> Leftover
    requires room { (before.count < 2 ^ 60) × (before.sum < 2 ^ 100) }
    requires holds { HoldsFor before (request_of line.now.operation) line.now.reply }
    ensures after { result ≡ left_by before line.now.operation line.now.reply }
    ensures count { result.count ≤ before.count + 1 }
    ensures sum { result.sum ≤ before.sum + bound_of P.wide }
{
    let Leftover { count, sum } = before;
    match (&line.operation.done, &line.reply) {
        (Done::Push(item), _) => Leftover {
            count: count + 1,
            sum: sum + u128::from(item.priority.as_u64()),
        },
        (Done::Pop | Done::Remove(_), Reply::Got(item)) => Leftover {
            count: count - 1,
            sum: sum - u128::from(item.priority.as_u64()),
        },
        (Done::Move(priority, _), Reply::Got(item)) => Leftover {
            count,
            sum: sum - u128::from(item.priority.as_u64()) + u128::from(priority.as_u64()),
        },
        _ => before,
    }
}

/// What the journal leaves, read off its lines: what was pushed, less what was taken out, each moved item under its last
/// priority. Takes no memory.
pub fn leftover_of<P: Part>(lines: &[Line<P>]) -> Leftover
    requires legal { IsLegal lines.now }
    requires few { length lines.now ≤ MOST_LINES }
    ensures count { result.count ≡ length (left lines.now) }
    ensures sum { result.sum ≡ sum_by (λ x. x.priority) (left lines.now) }
    ensures small { result.sum ≤ bound_of P.wide * MOST_LINES }
{
    law_one_more_line();
    let mut leftover = Leftover { count: 0, sum: 0 };
    for line in lines {
        leftover = after_line(leftover, line);
    }
    leftover
}

/// What the store holds, which is emptied for it. Takes no memory.
pub fn leftover_in<S: Store<Entry<P>>, P: Part>(store: S) -> Leftover
    ensures count { result.count ≡ length (map item_of (S.content store)) }
    ensures sum { result.sum ≡ sum_by (λ x. x.priority) (map item_of (S.content store)) }
    ensures small { result.sum ≤ bound_of P.wide * result.count }
{
    let mut store = store;
    let count = store.len() as u64;
    let mut sum = 0;
    while let Some(entry) = store.pop() {
        sum += u128::from(entry.priority.as_u64());
    }
    Leftover { count, sum }
}
