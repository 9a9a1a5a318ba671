// What the queue holds: an item as a value and as a word.
ghost use Rattle.std.proofs.Common.{rules};
ghost use Rattle.std.specs.Prelude.{◌≡◌, nat_eq};
ghost use Rattle.std.specs.Cmp.Rules.{comparing};
ghost use Rattle.std.specs.Ordering.{eq_of_both, on};
ghost use Rattle.pq_types.specs.Item.{item, IsItemOf, item_word};

use crate::part::Part;
use std::alloc::AllocError;
use std::marker::Model;

/// What the queue holds: a priority, by which it is ordered, the least first, and a value, which it
/// carries and never looks at. Of equal priorities the one pushed first comes out first.
#[derive(Copy, Debug)]
pub struct Item<P: Part = u32> {
    pub priority: P,
    pub value: P,
}

impl<P: Part> Model for Item<P> {
    ghost use Rattle.pq_types.specs.Item.{Item as Parts, item};

    ghost Value = { Parts };

    ghost view = { λ x. item (P.number x.priority) (P.number x.value) };

    ghost inverse = { λ x. record { priority = P.part_of x.priority; value = P.part_of x.value } };

    ghost inverse_ok = { λ a h i. record { priority = P.back a.priority i; value = P.back a.value i } };
}

impl<P: Part> Clone for Item<P> {
    ghost is_clone = { λ x y. x ≡ y };

    ghost is_infallible = { λ _. Unit };

    fn clone(&self) -> Result<Item<P>, AllocError> {
        Ok(*self)
    }
}

impl<P: Part> PartialEq for Item<P> {
    ghost eq = { eq_of_both (on (λ x. x.priority) nat_eq) (on (λ x. x.value) nat_eq) };

    ghost laws = { Prim.search (comparing, rules) };

    fn eq(&self, other: &Item<P>) -> bool {
        self.priority.as_u64() == other.priority.as_u64()
            && self.value.as_u64() == other.value.as_u64()
    }
}

impl<P: Part> Eq for Item<P> {
    ghost laws = { Prim.search (comparing, rules) };
}

impl<P: Part> Item<P> {
    /// The item of these parts.
    pub fn of_parts(priority: u64, value: u64) -> Item<P>
        requires { IsItemOf P.wide (item priority value) }
        ensures { result ≡ item priority value }
    {
        Item {
            priority: P::of_u64(priority),
            value: P::of_u64(value),
        }
    }

    /// Its priority and its value, which are in the range of its width.
    pub fn parts(&self) -> (u64, u64)
        ensures parts { item result.0 result.1 ≡ self.now }
        ensures range { IsItemOf P.wide self.now }
    {
        (self.priority.as_u64(), self.value.as_u64())
    }
}

impl Item {
    /// The item as one word: the priority in its upper 32 bits, the value in the lower.
    pub fn word(self) -> u64
        ensures { result ≡ item_word self }
    {
        u64::from(self.priority) * 4_294_967_296 + u64::from(self.value)
    }

    /// The item that has this word: each word is that of one item.
    pub fn of_word(word: u64) -> Item
        ensures { item_word result ≡ word }
    {
        Item {
            priority: (word / 4_294_967_296) as u32,
            value: (word % 4_294_967_296) as u32,
        }
    }
}
