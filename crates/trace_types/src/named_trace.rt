ghost use Rattle.std.specs.Prelude.{◌≡◌, ◌≤◌, IfOk};
ghost use Rattle.trace_types.specs.Limits.{most_grace};
ghost use Rattle.trace_types.specs.NamedSegments.{number_of_name, number_of_task};
ghost use Rattle.trace_types.specs.NamedSegments.{number_of_element, named_start, named_end};
ghost use Rattle.trace_types.specs.SegmentLists.{NamesDiffer, TasksStandTogether, JoinInTasks};
ghost use Rattle.trace_types.specs.SegmentLists.{ElementsCountUp};

use crate::{NamedSegmentList, Text};
use std::alloc::{AllocError, Global};

/// A trace whose segments are named by the numbers of a catalogue.
#[derive(Debug, Drop)]
pub struct NamedTrace {
    /// The request of every event.
    pub request: Text,
    /// The day of its first event, in days of 86,400 seconds since 1970.
    pub day: u32,
    /// The greatest adjusted time of its events less the least, in nanoseconds.
    pub latency: u64,
    /// By how much two segments may overlap and refute nothing, in nanoseconds.
    pub grace: u64,
    /// The segments: task after task, and within a task by time.
    pub segments: NamedSegmentList,
    ghost grace_within: { grace ≤ most_grace },
    ghost names_differ: { NamesDiffer number_of_name segments },
    ghost together: { TasksStandTogether number_of_task segments },
    ghost joined: { JoinInTasks number_of_task named_start named_end segments },
    ghost elements: { ElementsCountUp number_of_element segments },
}

/// Copies the segments.
fn copy_segments(alloc: Global, segments: &NamedSegmentList) -> Result<NamedSegmentList, AllocError>
    ensures { IfOk result (λ copy. copy ≡ segments.now) }
{
    let mut copy = Vec::with_capacity(alloc, segments.items().len())?;
    copy.extend_from_slice(segments.items())?;
    Ok(NamedSegmentList::of(copy))
}

impl NamedTrace {
    /// Sets the grace, in nanoseconds, at most 1,000,000,000.
    pub fn with_grace(self, grace: u64) -> NamedTrace
        requires { grace ≤ most_grace }
        ensures changed { result.grace ≡ grace }
        ensures request { result.request ≡ self.request }
        ensures day { result.day ≡ self.day }
        ensures latency { result.latency ≡ self.latency }
        ensures segments { result.segments ≡ self.segments }
    {
        NamedTrace {
            request: self.request,
            day: self.day,
            latency: self.latency,
            grace,
            segments: self.segments,
        }
    }

    /// Copies the trace. The only error is out of memory.
    pub fn copy(&self, alloc: Global) -> Result<NamedTrace, AllocError>
        ensures { IfOk result (λ t. t ≡ self.now) }
    {
        Ok(NamedTrace {
            request: self.request.copy(alloc)?,
            day: self.day,
            latency: self.latency,
            grace: self.grace,
            segments: copy_segments(alloc, &self.segments)?,
        })
    }
}
