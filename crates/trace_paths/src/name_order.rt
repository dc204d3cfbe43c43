ghost use Rattle.std.specs.Prelude.{◌≡◌, IfOk, Some, length, slice_get, true};
ghost use Rattle.trace_types.specs.Listing.{ListsExactly};
ghost use Rattle.trace_paths.specs.NameOrders.{number_cmp};

use segment_names::Catalogue;
use std::alloc::{AllocError, Global};

/// Lists the numbers of the names that are marked, in name order. There is a mark for each name of
/// the catalogue. No text is copied. The only error is that memory ran out.
pub fn names_in_order(
    alloc: Global,
    catalogue: &Catalogue,
    marked: &[bool],
) -> Result<Vec<u32>, AllocError>
    requires { length marked.now ≡ length catalogue.now.names }
    ensures { IfOk result (λ numbers. ListsExactly (number_cmp catalogue.now.names)
        (λ n. slice_get marked.now n ≡ Some true) numbers.items) }
{
    let mut named = Vec::with_capacity(alloc, marked.len())?;
    'names: for number in 0..catalogue.names() {
        if marked[number as usize] {
            named.push((catalogue.text_of(number), number))?;
        }
    }
    named.sort_unstable();
    let mut numbers = Vec::with_capacity(alloc, named.len())?;
    'named: for entry in &named {
        numbers.push(entry.1)?;
    }
    Ok(numbers)
}
