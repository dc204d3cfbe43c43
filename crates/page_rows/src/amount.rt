ghost use Rattle.std.specs.Prelude.{◌≡◌, ◌<◌, ◌^◌};

use std::marker::Model;

/// A number of a page, seen as the number: it has at most 24 digits, so that it is below 2^80.
#[derive(Debug, Drop)]
pub struct Amount {
    value: u128,
}

impl Model for Amount {
    ghost use Rattle.std.specs.Prelude.{ℕ, ◌<◌, ◌^◌};

    ghost Value = { ℕ };

    ghost view = { λ a. a.value };

    ghost invariant = { λ a. a.value < 2 ^ 80 };
}

impl Amount {
    /// Makes a number of a page.
    pub fn of(value: u128) -> Amount
        requires { value < 2 ^ 80 }
        ensures { result ≡ value }
    {
        Amount { value }
    }

    /// Returns the number.
    pub fn get(&self) -> u128
        ensures value { result ≡ self.now }
        ensures small { result < 2 ^ 80 }
    {
        self.value
    }
}
