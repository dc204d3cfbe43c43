use crate::BarRow;

/// A segment of a load that is shown.
#[derive(Debug, Drop)]
pub struct PlacedBar {
    /// The number of the load, from 1.
    pub load: usize,
    /// The segment.
    pub bar: BarRow,
}
