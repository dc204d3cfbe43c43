ghost use Rattle.std.specs.Prelude.{◌≡◌, ◌∷◌, [], map, IfOk, OnOk};
ghost use Rattle.trace_types.specs.Segments.{SegmentName};
ghost use Rattle.model_checks.specs.inner.Growing.{AddsDistinct};

use std::alloc::{AllocError, Global};
use trace_types::{NameText, Text};

/// Adds the task where it is new.
fn add_task(alloc: Global, tasks: &mut Vec<Text>, task: &Text) -> Result<(), AllocError>
    ensures { OnOk result (AddsDistinct (task.now ∷ []) tasks.old.items tasks.new.items) }
{
    if !tasks.contains(task) {
        tasks.push(task.copy(alloc)?)?;
    }
    Ok(())
}

/// Lists the tasks of the names, each once.
pub(crate) fn distinct_tasks(alloc: Global, names: &[NameText]) -> Result<Vec<Text>, AllocError>
    ensures { IfOk result (λ tasks.
        AddsDistinct (map (λ (name : SegmentName). name.0) names.now) [] tasks.items) }
{
    let mut tasks = Vec::new(alloc);
    for name in names {
        add_task(alloc, &mut tasks, &name.task)?;
    }
    Ok(tasks)
}
