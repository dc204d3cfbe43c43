ghost use Rattle.std.specs.Prelude.{◌≡◌, ◌<◌, All, length, map, IfOk};
ghost use Rattle.call_contexts.specs.Contexts.{frames_of};
ghost use Rattle.context_names.specs.Bases.{task_base};
ghost use Rattle.context_names.specs.Tasks.{first_of_threads, task_names};

use crate::TaskNames;
use crate::bases::make_bases;
use crate::numbers::number_bases;
use call_contexts::Context;
use std::alloc::{AllocError, Global};

/// The most bytes of the base of a task.
const MOST: usize = 40;

/// Gives the contexts that begin threads, in order.
fn find_first(alloc: Global, order: &[usize], threads: &[usize]) -> Result<Vec<usize>, AllocError>
    requires { All (λ x. x < length threads.now) order.now }
    ensures { IfOk result (λ first. first.items ≡ first_of_threads order.now threads.now) }
{
    let mut first = Vec::new(alloc);
    for number in order {
        if threads[*number] == *number {
            first.push(*number)?;
        }
    }
    Ok(first)
}

/// Names the pieces of threads. The only error is out of memory.
pub fn name_tasks(
    alloc: Global,
    contexts: &[Context<'_>],
    order: &[usize],
    threads: &[usize],
) -> Result<TaskNames, AllocError>
    requires same { length threads.now ≡ length contexts.now }
    requires within { All (λ x. x < length contexts.now) order.now }
    ensures { IfOk result (λ names. names
        ≡ task_names order.now threads.now (map task_base (frames_of contexts.now))) }
{
    let bases = make_bases(alloc, contexts, MOST)?;
    let first = find_first(alloc, order, threads)?;
    let numbers = number_bases(alloc, &first, &bases)?;
    Ok(TaskNames::of(bases, numbers))
}
