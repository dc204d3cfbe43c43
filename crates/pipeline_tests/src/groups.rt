ghost use Rattle.std.specs.Prelude.{◌<◌, length, IfOk};
ghost use Rattle.pipeline_tests.specs.inner.Groups.{AreGroups, AreRuns, IsRunEnd};
ghost use Rattle.pipeline_tests.specs.inner.Stays.{AreStays, StaysStandTogether};

use crate::stays::Stay;
use std::alloc::{AllocError, Global};
use trace_types::NamedTrace;

/// The stays of one task.
#[derive(Clone, Copy)]
pub(crate) struct TaskStays<'a> {
    /// The task.
    pub task: u32,
    /// One stay for each element that the task handles, in the order in which they begin.
    pub stays: &'a [Stay],
}

/// Finds the end of the run of stays of one task that begins at this index.
fn run_end(stays: &[Stay], from: usize) -> usize
    requires { from < length stays.now }
    ensures { IsRunEnd stays.now from result }
{
    let task = stays[from].task;
    let mut to = from + 1;
    while to < stays.len() && stays[to].task == task {
        to += 1;
    }
    to
}

/// Groups stays by task, in the order in which the tasks first stand.
fn runs_of(alloc: Global, stays: &[Stay]) -> Result<Vec<TaskStays<'_>>, AllocError>
    requires { StaysStandTogether stays.now }
    ensures { IfOk result (λ groups. AreRuns stays.now (length stays.now) groups.items) }
{
    let mut groups = Vec::new(alloc);
    let mut from = 0;
    while from < stays.len() {
        let to = run_end(stays, from);
        groups.reserve(1)?;
        groups.push_reserved(TaskStays {
            task: stays[from].task,
            stays: &stays[from..to],
        });
        from = to;
    }
    Ok(groups)
}

/// Groups the stays of a trace by task, the tasks rising. The only error is that memory ran out.
pub(crate) fn by_task<'a>(
    alloc: Global,
    trace: &NamedTrace,
    stays: &'a [Stay],
) -> Result<Vec<TaskStays<'a>>, AllocError>
    requires { AreStays trace.now (length trace.now.segments) stays.now }
    ensures { IfOk result (λ groups. AreGroups trace.now 64 groups.items) }
{
    let mut groups = runs_of(alloc, stays)?;
    groups.sort_unstable_by_key(|group| group.task);
    Ok(groups)
}
