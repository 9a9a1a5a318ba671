// Orders that tell every two values apart.
ghost use Rattle.std.specs.Prelude.{◌≡◌, ℕ};
ghost use Rattle.std.specs.Ordering.{nat_cmp};
ghost use Rattle.std.specs.declared.cmp.Ordering.TheVariants.{Equal};
ghost use Rattle.std.proofs.lemmas.Map.Lookups.{exact_unsigned};

/// Items that compare `Equal` are the same value. So the ascending list of some items is one list,
/// and it doesn't matter which of two equal ones a heap hands out first.
pub trait Exact: Ord + Drop {
    /// Its rank.
    ghost rank_of: { Self → ℕ };

    /// Its rank, a number by which a heap in an array compares items without a branch: a store takes an item only where the ranks
    /// put it and each item that it has in their order.
    fn rank(&self) -> u128
        ensures { result ≡ rank_of self.now };

    /// The law: equal items are the same value.
    ghost equal_is_same: { (x : Self) → (y : Self) → Self.cmp x y ≡ Equal → x ≡ y };
}

impl Exact for u32 {
    ghost equal_is_same = { exact_unsigned };

    ghost rank_of = { λ n. n };

    fn rank(&self) -> u128 {
        u128::from(*self)
    }
}

impl Exact for u64 {
    ghost equal_is_same = { exact_unsigned };

    ghost rank_of = { λ n. n };

    fn rank(&self) -> u128 {
        u128::from(*self)
    }
}
