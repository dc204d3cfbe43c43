use segment_cut::TraceFault;
use trace_types::Text;

/// A trace that was refused.
#[derive(Debug, Drop)]
pub struct Refused {
    /// Its request.
    pub request: Text,
    /// Why it was refused.
    pub fault: TraceFault,
}
