/// A whole number of 64 or 128 bits, for the lengths of a graph.
pub trait Length: Copy {
    ghost use Rattle.std.specs.Prelude.{◌≡◌, ℕ, ◌+◌, ◌-◌, ◌<◌, ◌≤◌, ◌↔◌, max, IsTrue};

    ghost value: { Self → ℕ };

    ghost limit: { ℕ };

    /// Converts a weight.
    fn of(weight: u64) -> Self
        ensures { value result ≡ weight };

    /// Adds two lengths.
    fn plus(self, other: Self) -> Self
        requires { value self + value other < limit }
        ensures { value result ≡ value self + value other };

    /// Takes a length from one that is not less.
    fn minus(self, other: Self) -> Self
        requires { value other ≤ value self }
        ensures { value result ≡ value self - value other };

    /// Returns the greater of two lengths.
    fn or_greater(self, other: Self) -> Self
        ensures { value result ≡ max (value self) (value other) };

    /// Compares two lengths.
    fn is(self, other: Self) -> bool
        ensures { IsTrue result ↔ (value self ≡ value other) };

    /// Converts to 128 bits.
    fn to_u128(self) -> u128
        ensures { result ≡ value self };

    ghost clone_is_same: { (x y : Self) → Self.is_clone x y → y ≡ x };
}

impl Length for u64 {
    ghost use Rattle.std.specs.Prelude.{ℕ, ◌^◌};

    ghost value = { λ n. n };

    ghost limit = { 2 ^ 64 };

    ghost clone_is_same = { λ x y h. h };

    fn of(weight: u64) -> u64 {
        weight
    }

    fn plus(self, other: u64) -> u64 {
        self + other
    }

    fn minus(self, other: u64) -> u64 {
        self - other
    }

    fn or_greater(self, other: u64) -> u64 {
        self.max(other)
    }

    fn is(self, other: u64) -> bool {
        self == other
    }

    fn to_u128(self) -> u128 {
        u128::from(self)
    }
}

impl Length for u128 {
    ghost use Rattle.std.specs.Prelude.{ℕ, ◌^◌};

    ghost value = { λ n. n };

    ghost limit = { 2 ^ 128 };

    ghost clone_is_same = { λ x y h. h };

    fn of(weight: u64) -> u128 {
        u128::from(weight)
    }

    fn plus(self, other: u128) -> u128 {
        self + other
    }

    fn minus(self, other: u128) -> u128 {
        self - other
    }

    fn or_greater(self, other: u128) -> u128 {
        self.max(other)
    }

    fn is(self, other: u128) -> bool {
        self == other
    }

    fn to_u128(self) -> u128 {
        self
    }
}
