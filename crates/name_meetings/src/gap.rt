ghost use Rattle.std.specs.Prelude.{◌≡◌, ◌≤◌, ◌-ℤ◌, ℤ, ⊤, neg_ℤ, pos, int_lt};
ghost use Rattle.trace_types.specs.Limits.{most_grace};

use std::marker::{Send, Sync};

/// A number that holds gaps, in nanoseconds.
pub(crate) trait Gap: Copy + Send + Sync {
    /// The number.
    ghost value: { Self → ℤ };

    /// Whether it can hold the gap between this time and any other such time.
    ghost fits: { ℤ → Type 0 };

    /// Gives 0.
    fn zero() -> Self
        ensures { value result ≡ pos 0 };

    /// Gives the gap from an end to a start, negative where the start comes before.
    fn between(end: i64, start: i64) -> Self
        requires end { fits end }
        requires start { fits start }
        ensures { value result ≡ start -ℤ end };

    /// Tells whether it is less than the other.
    fn is_less(self, other: Self) -> bool
        ensures { result ≡ int_lt (value self) (value other) };

    /// Tells whether it is below minus the grace, in nanoseconds: an overlap of more than that.
    fn is_beyond(self, grace: u64) -> bool
        requires { grace ≤ most_grace }
        ensures { result ≡ int_lt (value self) (neg_ℤ (pos grace)) };

    /// Gives the number with all its bits.
    fn wide(self) -> i128
        ensures { result ≡ value self };
}

impl Gap for i64 {
    ghost use Rattle.std.specs.Prelude.{◌≡◌, true};
    ghost use Rattle.name_meetings.specs.inner.Gaps.{is_narrow};

    ghost value = { λ x. x };

    ghost fits = { λ time. is_narrow time ≡ true };

    fn zero() -> i64 {
        0
    }

    fn between(end: i64, start: i64) -> i64 {
        start - end
    }

    fn is_less(self, other: i64) -> bool {
        self < other
    }

    fn is_beyond(self, grace: u64) -> bool {
        self < -(grace as i64)
    }

    fn wide(self) -> i128 {
        i128::from(self)
    }
}

impl Gap for i128 {
    ghost value = { λ x. x };

    ghost fits = { λ time. ⊤ };

    fn zero() -> i128 {
        0
    }

    fn between(end: i64, start: i64) -> i128 {
        i128::from(start) - i128::from(end)
    }

    fn is_less(self, other: i128) -> bool {
        self < other
    }

    fn is_beyond(self, grace: u64) -> bool {
        self < -i128::from(grace)
    }

    fn wide(self) -> i128 {
        self
    }
}
