ghost use Rattle.std.specs.Prelude.{◌≡◌, ◌≤◌, length, vec_len, IfOk};
ghost use Rattle.std.specs.Cmp.Lexicographic.{slice_cmp};
ghost use Rattle.std.specs.Ordering.{nat_cmp};
ghost use Rattle.kept_names.specs.Listings.{AreItemsBelow, ListsMarked};
ghost use Rattle.trace_types.specs.NameOrder.{name_cmp};

use crate::listed::{Listed, list_where};
use segment_names::Catalogue;
use std::alloc::{AllocError, Global};
use trace_types::{NameText, Text};

/// Lists the marked names of a catalogue in name order. The only error is out of memory.
pub fn list_names<'a>(
    alloc: Global,
    catalogue: &'a Catalogue,
    marks: &[bool],
) -> Result<Vec<Listed<'a, NameText>>, AllocError>
    requires { length marks.now ≡ 512 }
    ensures marked { IfOk result (λ items.
        ListsMarked name_cmp catalogue.now.names marks.now items.items) }
    ensures listed { IfOk result (λ items.
        AreItemsBelow name_cmp (length catalogue.now.names) items.items) }
    ensures few { IfOk result (λ items. vec_len items ≤ 512) }
{
    let count = catalogue.names();
    let mut items = Vec::with_capacity(alloc, count as usize)?;
    for number in 0..count {
        let wanted = marks[number as usize];
        list_where(wanted, &mut items, catalogue.text_of(number), number)?;
    }
    items.sort_unstable();
    Ok(items)
}

/// Lists the marked tasks of a catalogue in rising order. The only error is out of memory.
pub fn list_tasks<'a>(
    alloc: Global,
    catalogue: &'a Catalogue,
    marks: &[bool],
) -> Result<Vec<Listed<'a, Text>>, AllocError>
    requires { length marks.now ≡ 64 }
    ensures marked { IfOk result (λ items.
        ListsMarked (slice_cmp nat_cmp) catalogue.now.tasks marks.now items.items) }
    ensures listed { IfOk result (λ items. AreItemsBelow (slice_cmp nat_cmp) 64 items.items) }
    ensures few { IfOk result (λ items. vec_len items ≤ 512) }
{
    let count = catalogue.tasks();
    let mut items = Vec::with_capacity(alloc, count as usize)?;
    for number in 0..count {
        let wanted = marks[number as usize];
        list_where(wanted, &mut items, catalogue.task_text(number), number)?;
    }
    items.sort_unstable();
    Ok(items)
}
