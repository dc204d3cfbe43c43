use trace_rules::Figures;

/// The figures of the segments with one name, in nanoseconds.
#[derive(Clone, Copy, Debug, PartialEq, Eq)]
pub struct SegmentRow {
    /// The number of the name in the catalogue.
    pub name: u32,
    /// The figures of their durations.
    pub figures: Figures,
    /// On how many critical paths there is one.
    pub on_path: u32,
    /// How long they last there together.
    pub on_path_sum: u128,
}
