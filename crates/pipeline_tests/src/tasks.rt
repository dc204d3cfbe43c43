ghost use Rattle.std.specs.Prelude.{◌+◌, ◌<◌, All, IsTrue, OnOk};
ghost use Rattle.hypothesis_index.specs.Refuting.{RefutesTasks};
ghost use Rattle.pipeline_tests.specs.declared.groups.TaskStays.{TaskStays};
ghost use Rattle.pipeline_tests.specs.inner.Groups.{IsGroup, TasksRise};
ghost use Rattle.pipeline_tests.specs.inner.Pairs.{IsAmong, IsWithBefore, task_start};
ghost use Rattle.refute_tests.specs.Clearing.{AddsExactly};
ghost use Rattle.word_rows.specs.Rows.{below};

use crate::groups::{TaskStays, by_task};
use crate::pairs::clear_pair;
use crate::stays::{Stay, find_stays};
use hypothesis_index::laws::pairs_follow;
use std::alloc::{AllocError, Global};
use trace_types::NamedTrace;
use word_rows::RowMaker;
use word_rows::laws::below_wider;

/// Clears what a task refutes with those before it, which have lesser numbers.
fn clear_below(
    maker: &mut RowMaker,
    trace: &NamedTrace,
    before: &[TaskStays<'_>],
    high: &TaskStays<'_>,
) -> Result<(), AllocError>
    requires groups { All (IsGroup trace.now) before.now }
    requires high { IsGroup trace.now high.now }
    requires rise { TasksRise before.now }
    requires less { All (λ (g : TaskStays). g.task < high.now.task) before.now }
    requires no_later { IsTrue (below (task_start high.now.task + 1) maker.old) }
    ensures cleared { OnOk result (AddsExactly maker.old
        (λ r. IsWithBefore before.now high.now.task r × RefutesTasks r trace.now) maker.new) }
    ensures no_later { OnOk result
        (IsTrue (below (task_start (high.now.task + 1) + 1) maker.new)) }
    ensures fits { OnOk result (IsTrue (below 126 maker.old) → IsTrue (below 126 maker.new)) }
{
    // For the proof alone.
    below_wider();
    pairs_follow();
    for low in before {
        clear_pair(maker, trace, low, high)?;
    }
    Ok(())
}

/// Clears what each task refutes with those before it. In the row so far only word 0 was begun.
fn clear_groups(
    maker: &mut RowMaker,
    trace: &NamedTrace,
    groups: &[TaskStays<'_>],
) -> Result<(), AllocError>
    requires groups { All (IsGroup trace.now) groups.now }
    requires rise { TasksRise groups.now }
    requires blank { IsTrue (below 1 maker.old) }
    ensures cleared { OnOk result (AddsExactly maker.old
        (λ r. IsAmong groups.now r × RefutesTasks r trace.now) maker.new) }
    ensures fits { OnOk result (IsTrue (below 126 maker.new)) }
{
    // For the proof alone.
    below_wider();
    pairs_follow();
    for (index, high) in groups.iter().enumerate() {
        let (before, _) = groups.split_at(index);
        clear_below(maker, trace, before, high)?;
    }
    Ok(())
}

/// Clears the places of exactly those relations between tasks that the trace refutes. In the row so
/// far only word 0 was begun. The stays are found in the list: what it held is dropped, and its
/// memory serves again. The only error is that memory ran out.
pub(crate) fn clear_tasks(
    alloc: Global,
    stays: &mut Vec<Stay>,
    maker: &mut RowMaker,
    trace: &NamedTrace,
) -> Result<(), AllocError>
    requires { IsTrue (below 1 maker.old) }
    ensures cleared { OnOk result
        (AddsExactly maker.old (λ r. RefutesTasks r trace.now) maker.new) }
    ensures fits { OnOk result (IsTrue (below 126 maker.new)) }
{
    find_stays(trace, stays)?;
    let groups = by_task(alloc, trace, stays.as_slice())?;
    clear_groups(maker, trace, groups.as_slice())?;
    Ok(())
}
