ghost use Rattle.std.specs.Prelude.{◌≡◌, ◌<◌, ◌^◌};

use std::marker::Model;

/// A part of a whole, seen as both.
#[derive(Clone, Copy, Debug)]
pub struct Share {
    part: u128,
    whole: u128,
}

impl Model for Share {
    ghost use Rattle.std.specs.Prelude.{ℕ, ◌<◌, ◌^◌};

    ghost Value = { ℕ × ℕ };

    ghost view = { λ a. (a.part, a.whole) };

    ghost inverse = { λ p. record { part = p.0; whole = p.1 } };

    ghost invariant = { λ a. record {
      part : a.part < 2 ^ 100;
      whole : a.whole < 2 ^ 110;
    } };
}

impl Share {
    /// Makes a share of these numbers.
    pub fn of(part: u128, whole: u128) -> Share
        requires part { part < 2 ^ 100 }
        requires whole { whole < 2 ^ 110 }
        ensures { result ≡ (part, whole) }
    {
        Share { part, whole }
    }

    /// Returns the part.
    pub fn part(&self) -> u128
        ensures value { result ≡ self.now.0 }
        ensures small { result < 2 ^ 100 }
    {
        self.part
    }

    /// Returns the whole.
    pub fn whole(&self) -> u128
        ensures value { result ≡ self.now.1 }
        ensures small { result < 2 ^ 110 }
    {
        self.whole
    }
}
