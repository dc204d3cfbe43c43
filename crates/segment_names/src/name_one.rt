use trace_types::Trace;

/// Why a trace is not named. The trace is given back as it was.
#[derive(Debug, Drop)]
pub enum NameOne {
    /// Out of memory.
    Memory {
        /// The trace that was to be named.
        trace: Trace,
    },
    /// The name of a segment is not in the catalogue.
    Unknown {
        /// The trace that was to be named.
        trace: Trace,
        /// The index of the first such segment.
        segment: u32,
    },
}
