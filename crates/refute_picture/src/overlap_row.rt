use page_rows::Amount;
use trace_types::Text;

/// Two boxes that overlap, and the first load that shows it.
#[derive(Debug, Drop)]
pub struct OverlapRow {
    /// The number of the first box.
    pub first: Amount,
    /// The number of the second.
    pub second: Amount,
    /// How many pairs of their names are in one load.
    pub both: Amount,
    /// The day of the load.
    pub day: Amount,
    /// Its number on this day, from 0.
    pub index: Amount,
    /// Its request.
    pub request: Text,
    /// How long the segments of the shorter box last in all loads.
    pub time: u128,
}
