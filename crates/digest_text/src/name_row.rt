use std::marker::Model;
use trace_types::NameText;

/// A name of a digest, and a mark for each name before it. Contracts see the two.
#[derive(Debug, Drop)]
pub struct NameRow {
    /// The name.
    pub name: NameText,
    /// What is refuted of each name before it and this one, in the order of names.
    pub marks: Vec<u8>,
}

impl Model for NameRow {
    ghost use Rattle.std.specs.Prelude.{List, ℕ};
    ghost use Rattle.trace_types.specs.Segments.{SegmentName};

    ghost Value = { SegmentName × List ℕ };

    ghost view = { λ a. (a.name, a.marks.items) };
}
