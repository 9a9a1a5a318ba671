// Items in a C program's memory, and a call's own copies of them.
ghost use Rattle.std.specs.Prelude.{◌≡◌, ◌≤◌, ◌++◌, map, length, take, drop};
ghost use Rattle.queue_c.specs.Plain.{plain_item, told_item};
ghost use Rattle.queue_c.specs.declared.buffers.TheConstants.{MOST_MANY};

use crate::plain::{PlainItem, tell_item};
use pq_types::Item;

/// How many items one call takes in or hands out at most: so many it copies.
pub const MOST_MANY: usize = 64;

/// The item that C hands over.
pub fn plain_item(item: &PlainItem) -> Item<u64>
    ensures { result ≡ plain_item item.now }
{
    Item {
        priority: item.priority,
        value: item.value,
    }
}

/// The first of these items, no more than one call takes in.
pub fn first_of(items: &[PlainItem]) -> &[PlainItem]
    ensures first { result.now ≡ take MOST_MANY items.now }
    ensures few { length result.now ≤ MOST_MANY }
{
    &items[..MOST_MANY.min(items.len())]
}

/// Copies the items of C into as many slots.
pub fn take_in(items: &[PlainItem], slots: &mut [Item<u64>])
    requires { length slots.old ≡ length items.now }
    ensures { slots.new ≡ map plain_item items.now }
{
    for i in 0..items.len() {
        slots[i] = plain_item(&items[i]);
    }
}

/// Copies the first so many slots to C, and leaves what its buffer has behind them.
pub fn hand_out(slots: &[Item<u64>], done: usize, items: &mut [PlainItem])
    requires slots { done ≤ length slots.now }
    requires buffer { done ≤ length items.old }
    ensures { items.new ≡ map told_item (take done slots.now) ++ drop done items.old }
{
    for i in 0..done {
        items[i] = tell_item(&slots[i]);
    }
}
