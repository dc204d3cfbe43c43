ghost use Rattle.std.specs.Prelude.{◌≡◌, ◌++◌, ◌∷◌, [], OnOk};

use std::alloc::{AllocError, Global};
use std::marker::Model;

/// Numbers in order, seen as their list.
#[derive(Debug, Drop)]
pub struct NumberList {
    items: Vec<usize>,
}

impl Model for NumberList {
    ghost use Rattle.std.specs.Prelude.{List, ℕ};

    ghost Value = { List ℕ };

    ghost view = { λ a. a.items.items };
}

impl NumberList {
    /// Makes the empty list. Takes no memory.
    pub fn new(alloc: Global) -> NumberList
        ensures { result ≡ [] }
    {
        NumberList {
            items: Vec::new(alloc),
        }
    }

    /// Lends the numbers, in order.
    pub fn items(&self) -> &[usize]
        ensures { result.now ≡ self.now }
    {
        &self.items
    }

    /// Appends a number. The only error is out of memory.
    pub fn push(&mut self, number: usize) -> Result<(), AllocError>
        ensures { OnOk result (self.new ≡ self.old ++ number ∷ []) }
    {
        self.items.push(number)?;
        Ok(())
    }
}
