ghost use Rattle.std.specs.Prelude.{◌≡◌};

use crate::Segment;
use std::marker::Model;

/// Segments in order, seen as their list.
#[derive(Debug, Drop)]
pub struct SegmentList {
    items: Vec<Segment>,
}

impl Model for SegmentList {
    ghost use Rattle.std.specs.Prelude.{List};
    ghost use Rattle.trace_types.specs.declared.segment.Segment.{Segment};

    ghost Value = { List Segment };

    ghost view = { λ a. a.items.items };
}

impl SegmentList {
    /// Makes the list of these segments. Takes no memory.
    pub fn of(items: Vec<Segment>) -> SegmentList
        ensures { result ≡ items.items }
    {
        SegmentList { items }
    }

    /// Lends the segments, in order.
    pub fn items(&self) -> &[Segment]
        ensures { result.now ≡ self.now }
    {
        &self.items
    }

    /// Gives the segments back. Takes no memory.
    pub fn into_items(self) -> Vec<Segment>
        ensures { result.items ≡ self }
    {
        self.items
    }
}
