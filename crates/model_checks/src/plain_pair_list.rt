ghost use Rattle.std.specs.Prelude.{◌≡◌};

use crate::plain_pair::PlainPair;
use std::marker::Model;

/// Pairs of names in order, seen as their list.
#[derive(Debug, Drop)]
pub(crate) struct PlainPairList {
    items: Vec<PlainPair>,
}

impl Model for PlainPairList {
    ghost use Rattle.std.specs.Prelude.{List};
    ghost use Rattle.trace_types.specs.Segments.{SegmentName};

    ghost Value = { List (SegmentName × SegmentName) };

    ghost view = { λ a. a.items.items };
}

impl PlainPairList {
    /// Makes the list of these pairs. Takes no memory.
    pub(crate) fn of(items: Vec<PlainPair>) -> PlainPairList
        ensures { result ≡ items.items }
    {
        PlainPairList { items }
    }

    /// Lends the pairs, in order.
    pub(crate) fn items(&self) -> &[PlainPair]
        ensures { result.now ≡ self.now }
    {
        &self.items
    }

    /// Gives the pairs back. Takes no memory.
    pub(crate) fn into_items(self) -> Vec<PlainPair>
        ensures { result.items ≡ self }
    {
        self.items
    }
}
