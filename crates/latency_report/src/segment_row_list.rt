ghost use Rattle.std.specs.Prelude.{◌≡◌};

use crate::SegmentRow;
use std::marker::Model;

/// Rows of segments in order, seen as their list.
#[derive(Debug, Drop)]
pub struct SegmentRowList {
    items: Vec<SegmentRow>,
}

impl Model for SegmentRowList {
    ghost use Rattle.std.specs.Prelude.{List};
    ghost use Rattle.latency_report.specs.declared.segment_row.SegmentRow.{SegmentRow};

    ghost Value = { List SegmentRow };

    ghost view = { λ a. a.items.items };
}

impl SegmentRowList {
    /// Makes the list of these rows. It takes no memory.
    pub fn of(items: Vec<SegmentRow>) -> SegmentRowList
        ensures { result ≡ items.items }
    {
        SegmentRowList { items }
    }

    /// Lends the rows, in order.
    pub fn items(&self) -> &[SegmentRow]
        ensures { result.now ≡ self.now }
    {
        &self.items
    }

    /// Gives the rows back. It takes no memory.
    pub fn into_items(self) -> Vec<SegmentRow>
        ensures { result.items ≡ self }
    {
        self.items
    }
}
