use crate::NamedChange;
use certificates::ClaimList;
use event_lines::{Command, EventParts};
use evidence_rules::Choice;

/// What a session is asked to do.
#[derive(Debug, Drop)]
pub enum Job {
    /// Add the traces of a batch of events.
    Add {
        /// The events, by line.
        events: EventParts,
    },
    /// Carry out the command of another control line than `add`.
    Control {
        /// The command.
        command: Command,
    },
    /// Print the first row of the model and the first two of the report.
    Summary,
    /// Print how long the critical paths would be if the segments of one name took less time.
    WhatIf {
        /// How much less.
        change: NamedChange,
    },
    /// Print the report on the slowest traces.
    Tail,
    /// Print a certificate: for each refuted relation the first trace that refutes it.
    Why,
    /// Print which claims of a certificate the traces show.
    Verify {
        /// The claims.
        claims: ClaimList,
    },
    /// Print what stands behind the relations that the traces leave.
    Evidence {
        /// How much of it.
        choice: Choice,
    },
}
