use trace_types::Text;

/// Where a claim finds its trace.
#[derive(Debug, Drop)]
pub(crate) struct TracePlace {
    /// The day, in days of 86,400 seconds since 1970.
    pub(crate) day: u32,
    /// The index among the traces of that day, counted from 0.
    pub(crate) index: u32,
    /// The request.
    pub(crate) request: Text,
}
