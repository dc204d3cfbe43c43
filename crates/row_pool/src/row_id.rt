ghost use Rattle.std.specs.Prelude.{◌≡◌};

use std::marker::Model;

/// The name of one live row of a pool. It can't be copied, so a row that was given back has no name
/// left. Dropping it leaves the row live.
#[derive(Drop)]
pub struct RowId {
    number: u32,
}

impl Model for RowId {
    ghost use Rattle.std.specs.Prelude.{ℕ};

    ghost Value = { ℕ };

    ghost view = { λ id. id.number };
}

impl RowId {
    /// Names the row with this index.
    pub(crate) fn new(number: u32) -> RowId
        ensures { result ≡ number }
    {
        RowId { number }
    }

    /// Returns the row's index in its pool.
    pub(crate) fn number(&self) -> u32
        ensures { result ≡ self.now }
    {
        self.number
    }
}
