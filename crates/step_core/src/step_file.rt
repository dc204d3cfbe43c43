use crate::{Start, StepEventList};

/// A file of steps.
#[derive(Debug, Drop)]
pub struct StepFile {
    /// How the machine is opened; none in a file that has only blank lines.
    pub start: Option<Start>,
    /// The steps, in order.
    pub events: StepEventList,
}
