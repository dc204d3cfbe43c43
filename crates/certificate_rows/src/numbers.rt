ghost use Rattle.std.specs.Prelude.{◌≡◌, ◌<◌, ◌≤◌, IfOk, length, map};
ghost use Rattle.certificate_rows.specs.Orders.{name_number_cmp, task_number_cmp};
ghost use Rattle.trace_types.specs.Listing.{ListsExactly};

use segment_names::Catalogue;
use std::alloc::{AllocError, Global};

/// Lists the numbers of these entries. The only error is out of memory.
fn numbers_in<T>(alloc: Global, entries: &[(&T, u32)]) -> Result<Vec<u32>, AllocError>
    ensures { IfOk result (λ numbers. numbers.items ≡ map (λ e. e.1) entries.now) }
{
    entries.iter().map(|entry| entry.1).collect(alloc)
}

/// Lists the numbers of a catalogue's names in name order. No text is copied. The only error is out
/// of memory.
pub fn names_in_order(alloc: Global, catalogue: &Catalogue) -> Result<Vec<u32>, AllocError>
    ensures listed { IfOk result (λ numbers. ListsExactly (name_number_cmp catalogue.now)
        (λ n. n < length catalogue.now.names) numbers.items) }
    ensures few { IfOk result (λ numbers. length numbers.items ≤ 512) }
{
    let count = catalogue.names();
    let mut named = Vec::with_capacity(alloc, count as usize)?;
    'names: for number in 0..count {
        named.push((catalogue.text_of(number), number))?;
    }
    named.sort_unstable();
    numbers_in(alloc, &named)
}

/// Lists the numbers of a catalogue's tasks in the order of their texts, as `names_in_order` does.
pub fn tasks_in_order(alloc: Global, catalogue: &Catalogue) -> Result<Vec<u32>, AllocError>
    ensures listed { IfOk result (λ numbers. ListsExactly (task_number_cmp catalogue.now)
        (λ n. n < length catalogue.now.tasks) numbers.items) }
    ensures few { IfOk result (λ numbers. length numbers.items ≤ 512) }
{
    let count = catalogue.tasks();
    let mut named = Vec::with_capacity(alloc, count as usize)?;
    'tasks: for number in 0..count {
        named.push((catalogue.task_text(number), number))?;
    }
    named.sort_unstable();
    numbers_in(alloc, &named)
}
