// The queue's definition as a plain program: a sorted vector.
ghost use Rattle.std.specs.Prelude.{◌≡◌, ◌≤◌, true, false, [], length, take, drop, reverse, OnOk, OnErr, IfErr};
ghost use Rattle.std.specs.List.{AllByRecursion};
ghost use Rattle.leftist_heap.specs.Order.{IsAscendingBy, with_item_by};
ghost use Rattle.leftist_heap.specs.Order.{not_above_by};

use crate::exact::Exact;
use crate::store::Store;
use std::alloc::Allocator;
use std::marker::Model;

/// A store that keeps its items in a sorted vector. A push moves every item that is not above the
/// new one, and a pop moves none.
#[derive(Drop)]
pub struct SortedVec<T: Exact, A: Allocator + Clone> {
    // The least item is the last, since only there a vector lets an item go without moving others.
    descending: Vec<T, A>,
}

impl<T: Exact, A: Allocator + Clone> Model for SortedVec<T, A> {
    ghost use Rattle.std.specs.Prelude.{List, reverse};
    ghost use Rattle.leftist_heap.specs.Order.{IsAscendingBy};
    ghost use Rattle.leftist_heap.specs.Order.{not_above_by};

    ghost Value = { List T };

    ghost view = { λ s. reverse s.descending.items };

    ghost invariant = { λ s. IsAscendingBy (not_above_by T.cmp) (reverse s.descending.items) };
}

impl<T: Exact, A: Allocator + Clone> SortedVec<T, A> {
    /// A store with no items. Takes no memory.
    pub fn new(alloc: A) -> Self
        ensures { result ≡ [] }
    {
        SortedVec {
            descending: Vec::new(alloc),
        }
    }
}

// How many of the items in descending order are above this one. They stand before all others.
fn count_above<T: Exact>(descending: &[T], item: &T) -> usize
    requires { IsAscendingBy (not_above_by T.cmp) (reverse descending.now) }
    ensures within { result ≤ length descending.now }
    ensures above { AllByRecursion (λ x. not_above_by T.cmp x item.now ≡ false) (take result descending.now) }
    ensures not_above { AllByRecursion (λ x. not_above_by T.cmp x item.now ≡ true) (drop result descending.now) }
{
    descending.partition_point(|other| other.cmp(item).is_gt())
}

// Puts the item behind all that are above it. Where the vector cannot grow, the item comes back and
// the vector is as it was.
fn insert_in_order<T: Exact, A: Allocator + Clone>(
    descending: &mut Vec<T, A>,
    item: T,
) -> Result<(), T>
    requires { IsAscendingBy (not_above_by T.cmp) (reverse descending.old.items) }
    ensures ok { OnOk result (reverse descending.new.items
        ≡ with_item_by (not_above_by T.cmp) item (reverse descending.old.items)) }
    ensures err { OnErr result (descending.new.items ≡ descending.old.items) }
    ensures handed_back { IfErr result (λ back. back ≡ item) }
    ensures ascending { IsAscendingBy (not_above_by T.cmp) (reverse descending.new.items) }
{
    let place = count_above(descending, &item);
    match descending.insert(place, item) {
        Ok(()) => Ok(()),
        Err(refused) => Err(refused.value),
    }
}

impl<T: Exact, A: Allocator + Clone> Store<T> for SortedVec<T, A> {
    ghost content = { λ s. s };

    fn push(&mut self, item: T) -> Result<(), T> {
        insert_in_order(&mut self.descending, item)
    }

    fn pop(&mut self) -> Option<T> {
        self.descending.pop()
    }

    fn least(&self) -> Option<&T> {
        self.descending.last()
    }

    fn len(&self) -> usize {
        self.descending.len()
    }

    fn is_empty(&self) -> bool {
        self.descending.is_empty()
    }
}
