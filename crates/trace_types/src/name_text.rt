ghost use Rattle.std.specs.Prelude.{◌≡◌, IfOk};

use crate::Text;
use std::alloc::{AllocError, Global};
use std::marker::Model;

/// The name of a segment: its task, its start event and its end event. Names are ordered by these
/// three in turn, each by its bytes. Contracts see a name as its three texts.
#[derive(PartialEq, Eq, PartialOrd, Ord, Debug, Drop)]
pub struct NameText {
    /// The task of both events.
    pub task: Text,
    /// The name of the event that the segment starts with.
    pub start: Text,
    /// The name of the event that it ends with.
    pub end: Text,
}

impl Model for NameText {
    ghost use Rattle.trace_types.specs.Segments.{SegmentName};

    ghost Value = { SegmentName };

    ghost view = { λ a. (a.task, a.start, a.end) };

    ghost inverse = { λ n. record { task = n.0; start = n.1; end = n.2 } };
}

impl NameText {
    /// Copies the name. The only error is out of memory.
    pub fn copy(&self, alloc: Global) -> Result<NameText, AllocError>
        ensures { IfOk result (λ n. n ≡ self.now) }
    {
        Ok(NameText {
            task: self.task.copy(alloc)?,
            start: self.start.copy(alloc)?,
            end: self.end.copy(alloc)?,
        })
    }
}
