use std::marker::Model;
use trace_types::NameText;

/// Two names of a catalogue, borrowed. Contracts see them as a pair of names.
#[derive(Debug, Drop)]
pub(crate) struct NamePair<'a> {
    /// The name on the left of the relation.
    pub first: &'a NameText,
    /// The name on its right.
    pub second: &'a NameText,
}

impl<'a> Model for NamePair<'a> {
    ghost use Rattle.trace_types.specs.Segments.{SegmentName};

    ghost Value = { SegmentName × SegmentName };

    ghost view = { λ a. (a.first.now, a.second.now) };
}
