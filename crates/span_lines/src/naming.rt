ghost use Rattle.std.specs.Prelude.{◌≡◌, ◌<◌, All, length, map, IfOk};
ghost use Rattle.call_contexts.specs.ContextOrder.{AreOrdered};
ghost use Rattle.call_contexts.specs.Contexts.{HaveAbove, frames_of};
ghost use Rattle.context_names.specs.Bases.{event_base, task_base};
ghost use Rattle.context_names.specs.Labels.{labels_of};
ghost use Rattle.context_names.specs.Tasks.{task_names};

use crate::event_names::EventNames;
use call_contexts::{Context, ContextOrder};
use context_names::{TaskNames, name_contexts, name_tasks};
use std::alloc::{AllocError, Global};

/// The names of the events of contexts, and of the pieces of threads.
#[derive(Debug, Drop)]
pub(crate) struct ContextNames {
    pub(crate) events: EventNames,
    pub(crate) tasks: TaskNames,
}

/// Names contexts and the pieces of their threads. The only error is out of memory.
pub(crate) fn make_names(
    alloc: Global,
    contexts: &[Context<'_>],
    order: &[usize],
    threads: &[usize],
) -> Result<ContextNames, AllocError>
    requires same { length threads.now ≡ length contexts.now }
    requires within { All (λ x. x < length contexts.now) order.now }
    ensures events { IfOk result (λ names. names.events
        ≡ labels_of order.now threads.now (map event_base (frames_of contexts.now))) }
    ensures tasks { IfOk result (λ names. names.tasks
        ≡ task_names order.now threads.now (map task_base (frames_of contexts.now))) }
{
    let labels = name_contexts(alloc, contexts, order, threads)?;
    let events = EventNames::new(alloc, labels)?;
    let tasks = name_tasks(alloc, contexts, order, threads)?;
    Ok(ContextNames { events, tasks })
}
