use crate::LineParts;

/// What was read of bytes.
#[derive(Debug, Drop)]
pub(crate) struct LinesRead {
    /// One entry for each line that is not blank.
    pub(crate) lines: LineParts,
    /// The number of the last line, blank or not.
    pub(crate) last: u32,
}
