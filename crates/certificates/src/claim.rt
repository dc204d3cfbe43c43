use crate::Matter;
use trace_types::Text;

/// What a line of a certificate says: that this trace refutes this relation.
#[derive(Debug, PartialEq, Eq, Drop)]
pub struct Claim {
    /// The number of the line, from 1 over the whole certificate.
    pub line: u32,
    /// The relation.
    pub matter: Matter,
    /// The day of the trace, in days of 86,400 seconds since 1970.
    pub day: u32,
    /// The index of the trace among those of its day, counted from 0.
    pub index: u32,
    /// The request of the trace.
    pub request: Text,
}
