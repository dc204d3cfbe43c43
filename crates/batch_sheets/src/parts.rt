/// The least number of traces that is worth a thread of its own.
pub(crate) const LEAST_PART: usize = 64;
