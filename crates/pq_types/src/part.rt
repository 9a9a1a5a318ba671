// The types that the two parts of an item may have.
ghost use Rattle.std.specs.Prelude.{◌≡◌, ℕ, ◌<◌, ◌^◌, Bool, true, false};
ghost use Rattle.std.proofs.Common.{refl};
ghost use Rattle.pq_types.specs.Item.{bound_of};

/// A number of 32 or of 64 bits.
pub trait Part: Copy + Eq + Drop {
    /// The number that it is, and the part that is a number.
    ghost number: { Self → ℕ };

    ghost part_of: { ℕ → Self };

    /// No two parts are the same number.
    ghost back: { (x : Self) → part_of (number x) ≡ x };

    /// Whether it has 64 bits.
    ghost wide: { Bool };

    /// Whether it has 64 bits.
    fn is_wide() -> bool
        ensures { result ≡ wide };

    /// It as a number of 64 bits.
    fn as_u64(self) -> u64
        ensures value { result ≡ number self }
        ensures range { result < bound_of wide };

    /// The part that is this number.
    fn of_u64(n: u64) -> Self
        requires { n < bound_of wide }
        ensures { number result ≡ n };
}

impl Part for u32 {
    ghost number = { λ n. n };

    ghost part_of = { λ n. n };

    ghost back = { λ x. refl };

    ghost wide = { false };

    fn is_wide() -> bool {
        false
    }

    fn as_u64(self) -> u64 {
        u64::from(self)
    }

    fn of_u64(n: u64) -> u32 {
        n as u32
    }
}

impl Part for u64 {
    ghost number = { λ n. n };

    ghost part_of = { λ n. n };

    ghost back = { λ x. refl };

    ghost wide = { true };

    fn is_wide() -> bool {
        true
    }

    fn as_u64(self) -> u64 {
        self
    }

    fn of_u64(n: u64) -> u64 {
        n
    }
}
