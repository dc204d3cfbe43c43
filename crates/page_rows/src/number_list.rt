ghost use Rattle.std.specs.Prelude.{◌≡◌};

use crate::Amount;
use std::marker::Model;

/// Numbers in order, seen as their list.
#[derive(Debug, Drop)]
pub struct NumberList {
    items: Vec<Amount>,
}

impl Model for NumberList {
    ghost use Rattle.std.specs.Prelude.{List, ℕ};

    ghost Value = { List ℕ };

    ghost view = { λ a. a.items.items };
}

impl NumberList {
    /// Makes the list of these numbers. Takes no memory.
    pub fn of(items: Vec<Amount>) -> NumberList
        ensures { result ≡ items.items }
    {
        NumberList { items }
    }

    /// Lends the numbers, in order.
    pub fn items(&self) -> &[Amount]
        ensures { result.now ≡ self.now }
    {
        &self.items
    }
}
