use std::alloc::AllocError;
use std::marker::Model;

/// A list of vertices or indices.
#[derive(Drop)]
pub struct NumberList {
    items: Vec<u32>,
}

impl Model for NumberList {
    ghost use Rattle.std.specs.Prelude.{List, ℕ};

    ghost Value = { List ℕ };

    ghost view = { λ a. a.items.items };
}

impl NumberList {
    ghost use Rattle.std.specs.Prelude.{◌≡◌, [], ◌∷◌, ◌++◌, OnOk, OnErr};

    /// Makes the list of these numbers. It takes no memory.
    pub fn of(items: Vec<u32>) -> NumberList
        ensures { result ≡ items.items }
    {
        NumberList { items }
    }

    /// Returns the numbers in order.
    pub fn items(&self) -> &[u32]
        ensures { result.now ≡ self.now }
    {
        self.items.as_slice()
    }

    /// Returns the numbers as a `Vec`. It takes no memory.
    pub fn into_items(self) -> Vec<u32>
        ensures { result.items ≡ self }
    {
        let NumberList { items } = self;
        items
    }

    /// Adds a number at the end.
    pub(crate) fn push(&mut self, number: u32) -> Result<(), AllocError>
        ensures ok { OnOk result (self.new ≡ self.old ++ number ∷ []) }
        ensures err { OnErr result (self.new ≡ self.old) }
    {
        self.items.push(number)?;
        Ok(())
    }
}
