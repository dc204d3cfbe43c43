/// Which rows of the evidence are printed.
#[derive(Clone, Copy, Debug, PartialEq, Eq)]
pub struct Choice {
    /// The least number of traces that have to support a relation.
    pub least: u32,
    /// Whether orders that follow from others are left out.
    pub reduced: bool,
}
