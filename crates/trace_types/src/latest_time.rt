/// The latest time of an event, in nanoseconds since 1970: the start of the year 2100.
pub const LATEST_TIME: u64 = 4_102_444_800_000_000_000;

/// The same time in microseconds since 1970.
pub const LATEST_TIME_IN_MICROSECONDS: u64 = 4_102_444_800_000_000;
