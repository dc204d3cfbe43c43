ghost use Rattle.std.specs.Prelude.{◌≡◌};

use crate::TailRow;
use std::marker::Model;

/// Rows of segments in order, seen as their list.
#[derive(Debug, Drop)]
pub struct TailRowList {
    items: Vec<TailRow>,
}

impl Model for TailRowList {
    ghost use Rattle.std.specs.Prelude.{List};
    ghost use Rattle.slow_tail.specs.declared.tail_row.TailRow.{TailRow};

    ghost Value = { List TailRow };

    ghost view = { λ a. a.items.items };
}

impl TailRowList {
    /// Makes the list of these rows. It takes no memory.
    pub fn of(items: Vec<TailRow>) -> TailRowList
        ensures { result ≡ items.items }
    {
        TailRowList { items }
    }

    /// Lends the rows, in order.
    pub fn items(&self) -> &[TailRow]
        ensures { result.now ≡ self.now }
    {
        &self.items
    }

    /// Gives the rows back. It takes no memory.
    pub fn into_items(self) -> Vec<TailRow>
        ensures { result.items ≡ self }
    {
        self.items
    }
}
