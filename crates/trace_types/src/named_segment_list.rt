ghost use Rattle.std.specs.Prelude.{◌≡◌};

use crate::NamedSegment;
use std::marker::Model;

/// Named segments in order, seen as their list.
#[derive(Debug, Drop)]
pub struct NamedSegmentList {
    items: Vec<NamedSegment>,
}

impl Model for NamedSegmentList {
    ghost use Rattle.std.specs.Prelude.{List};
    ghost use Rattle.trace_types.specs.declared.named_segment.NamedSegment.{NamedSegment};

    ghost Value = { List NamedSegment };

    ghost view = { λ a. a.items.items };
}

impl NamedSegmentList {
    /// Makes the list of these segments. Takes no memory.
    pub fn of(items: Vec<NamedSegment>) -> NamedSegmentList
        ensures { result ≡ items.items }
    {
        NamedSegmentList { items }
    }

    /// Lends the segments, in order.
    pub fn items(&self) -> &[NamedSegment]
        ensures { result.now ≡ self.now }
    {
        &self.items
    }

    /// Gives the segments back. Takes no memory.
    pub fn into_items(self) -> Vec<NamedSegment>
        ensures { result.items ≡ self }
    {
        self.items
    }
}
