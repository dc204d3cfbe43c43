ghost use Rattle.std.specs.Prelude.{◌≡◌, ◌<◌, ℕ, All, IfOk, List, length, map};
ghost use Rattle.std.specs.Borrow.{Bor};
ghost use Rattle.certificate_rows.specs.Orders.{numbered_name, numbered_task};
ghost use Rattle.trace_types.specs.Segments.{SegmentName};

use segment_names::Catalogue;
use std::alloc::{AllocError, Global};
use trace_types::{NameText, Text};

/// Lends the texts of the names with these numbers. The only error is out of memory.
pub(crate) fn lend_names<'c>(
    alloc: Global,
    catalogue: &'c Catalogue,
    numbers: &[u32],
) -> Result<Vec<&'c NameText>, AllocError>
    requires { All (λ n. n < length catalogue.now.names) numbers.now }
    ensures { IfOk result (λ names. map (λ (n : Bor SegmentName). n.now) names.items
        ≡ map (numbered_name catalogue.now) numbers.now) }
{
    let mut names = Vec::with_capacity(alloc, numbers.len())?;
    'numbers: for at in 0..numbers.len() {
        names.push(catalogue.text_of(numbers[at]))?;
    }
    Ok(names)
}

/// Lends the texts of the tasks with these numbers, likewise.
pub(crate) fn lend_tasks<'c>(
    alloc: Global,
    catalogue: &'c Catalogue,
    numbers: &[u32],
) -> Result<Vec<&'c Text>, AllocError>
    requires { All (λ n. n < length catalogue.now.tasks) numbers.now }
    ensures { IfOk result (λ tasks. map (λ (t : Bor (List ℕ)). t.now) tasks.items
        ≡ map (numbered_task catalogue.now) numbers.now) }
{
    let mut tasks = Vec::with_capacity(alloc, numbers.len())?;
    'numbers: for at in 0..numbers.len() {
        tasks.push(catalogue.task_text(numbers[at]))?;
    }
    Ok(tasks)
}
