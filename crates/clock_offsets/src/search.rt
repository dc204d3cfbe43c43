ghost use Rattle.std.specs.Prelude.{◌≡◌, ◌^◌, ◌<◌, IfOk, None, length, replicate};
ghost use Rattle.clock_offsets.specs.inner.Links.{AreNumbers, AreLinks};
ghost use Rattle.clock_offsets.specs.inner.Search.{AreDepths, AreMachineOffsets};

use crate::frontier::visit_next;
use crate::link::Link;
use crate::parents::set_offsets;
use crate::searched::Searched;
use event_table::RawEvents;
use std::alloc::{AllocError, Global};

/// Makes a list of this many machines of which none has been visited.
fn no_depths(alloc: Global, count: usize) -> Result<Vec<Option<usize>>, AllocError>
    ensures { IfOk result (λ depths. depths.items ≡ replicate count None) }
{
    let mut depths = Vec::with_capacity(alloc, count)?;
    for _at in 0..count {
        depths.push(None)?;
    }
    Ok(depths)
}

/// Finds the depth and the offset of each machine, by its number, in a breadth-first search from the
/// reference.
pub(crate) fn search_offsets(
    alloc: Global,
    trace: &RawEvents<'_>,
    numbers: &[usize],
    links: &[Vec<Link>],
) -> Result<Searched, AllocError>
    requires few { length trace.now.trace.events < 2 ^ 32 }
    requires numbered { AreNumbers trace.now.trace.events numbers.now }
    requires linked { AreLinks trace.now.trace.events numbers.now links.now }
    ensures depths { IfOk result (λ s.
        AreDepths trace.now.trace.events numbers.now s.depths.items) }
    ensures offsets { IfOk result (λ s.
        AreMachineOffsets trace.now.trace.events numbers.now s.offsets.items) }
{
    let count = trace.len();
    let reference = numbers[0];
    let mut depths = no_depths(alloc, count)?;
    let mut offsets = vec![in alloc; 0i128; count]?;
    let mut frontier = vec![in alloc; reference]?;
    depths[reference] = Some(0);
    let mut depth = 0;
    'outward: while !frontier.is_empty() {
        let next = visit_next(alloc, links, &frontier, depth + 1, &mut depths)?;
        set_offsets(trace, numbers, links, &depths, &next, depth, &mut offsets);
        frontier = next;
        depth += 1;
    }
    Ok(Searched { depths, offsets })
}
