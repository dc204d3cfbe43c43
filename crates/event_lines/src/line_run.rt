use crate::Command;
use event_table::EventTable;

/// A control line: its number and what it asks for.
#[derive(Clone, Copy, Debug)]
pub struct ControlLine {
    /// The number of the line, from 1 over the whole input.
    pub line: u32,
    /// What it asks for.
    pub command: Command,
}

/// Events that follow one another, and the control line after them, if there is one.
#[derive(Debug, Drop)]
pub struct LineRun {
    /// The events, in the order of their lines.
    pub events: EventTable,
    /// The control line that ends the run; none where a long run was cut, or a piece of
    /// the input ends.
    pub control: Option<ControlLine>,
}
