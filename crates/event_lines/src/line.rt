use crate::Command;
use trace_types::Event;

/// A good line of the input, as contracts see it; code keeps lines in runs (`LineRun`).
#[derive(Debug, Drop)]
pub enum Line {
    /// An event line.
    Event {
        /// The event, which has the number of its line.
        event: Event,
    },
    /// A control line.
    Control {
        /// The number of the line, from 1 over the whole input.
        line: u32,
        /// The command.
        command: Command,
    },
}
