use std::marker::Model;
use trace_types::NameText;

/// Two names, ordered by the first and then by the second. Contracts see them as a pair of names.
#[derive(PartialEq, Eq, PartialOrd, Ord, Debug, Drop)]
pub(crate) struct PlainPair {
    /// The name on the left of the relation.
    pub first: NameText,
    /// The name on its right.
    pub second: NameText,
}

impl Model for PlainPair {
    ghost use Rattle.trace_types.specs.Segments.{SegmentName};

    ghost Value = { SegmentName × SegmentName };

    ghost view = { λ a. (a.first, a.second) };

    ghost inverse = { λ p. record { first = p.0; second = p.1 } };
}
