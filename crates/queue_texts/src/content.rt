// What is left in a store.
ghost use Rattle.std.specs.Prelude.{◌≡◌, ◌+◌, ◌-◌, ◌<◌, ◌≤◌, ◌*◌, ◌^◌, map, length};
ghost use Rattle.pq_types.specs.Entry.{item_of};
ghost use Rattle.queue_texts.specs.Sums.{sum_priorities};

use leftist_heap::Store;
use pq_book::Entry;
use pq_types::Part;

// Takes the first item out, and tells its priority; 0 where there is none.
fn next_priority<S: Store<Entry<P>>, P: Part>(store: &mut S) -> u128
    ensures sum { result + sum_priorities (map item_of (S.content store.new))
        ≡ sum_priorities (map item_of (S.content store.old)) }
    ensures length { length (S.content store.new) ≡ length (S.content store.old) - 1 }
    ensures small { result < 2 ^ 64 }
{
    match store.pop() {
        Some(entry) => u128::from(entry.priority.as_u64()),
        None => 0,
    }
}

/// The priorities of all items of the store, added up; it takes them out.
pub fn sum_of<S: Store<Entry<P>>, P: Part>(store: &mut S) -> u128
    ensures sum { result ≡ sum_priorities (map item_of (S.content store.old)) }
    ensures small { result ≤ 2 ^ 64 * length (S.content store.old) }
{
    let count = store.len();
    let mut sum = 0u128;
    for taken in 0..count {
        sum += next_priority(store);
    }
    sum
}
