use pipeline_tests::DaySheet;

/// A sheet with its day.
#[derive(Drop)]
pub struct DatedSheet {
    /// The day, in days of 86,400 seconds since 1970.
    pub day: u32,
    /// The sheet of its traces.
    pub sheet: DaySheet,
}
