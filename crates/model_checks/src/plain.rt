ghost use Rattle.std.specs.Prelude.{◌<◌, ◌^◌, length, map, IfOk};
ghost use Rattle.trace_types.specs.Listing.{ListsExactly, CountsDistinct};
ghost use Rattle.trace_types.specs.NameOrder.{name_cmp, pair_cmp};
ghost use Rattle.trace_types.specs.Parts.{by_text, segments_of};
ghost use Rattle.trace_types.specs.Relations.{HappensBefore, ExcludesUnordered};
ghost use Rattle.trace_types.specs.Segments.{name_of, task_of};

use crate::distinct_names::distinct_names;
use crate::distinct_tasks::distinct_tasks;
use crate::pair_lists::pair_lists;
use crate::plain_pair_list::PlainPairList;
use std::alloc::{AllocError, Global};
use trace_types::Trace;

/// The relations between the names of its segments that a list of traces leaves (Chow et al., "The
/// Mystery Machine", OSDI 2014, section 3.2).
#[derive(Debug, Drop)]
pub(crate) struct PlainModel {
    /// The number of different names of the segments.
    pub names: u32,
    /// The number of their different tasks.
    pub tasks: u32,
    /// The pairs of which the first happens before the second, in rising order.
    pub hb: PlainPairList,
    /// The pairs that are mutually exclusive with no fixed order, the lesser name first, by rising
    /// pair.
    pub mx: PlainPairList,
}

/// Finds the model of a list of traces. It asks every trace for each pair of names, so its time
/// grows with the square of their number; its memory with the names and the pairs alone. The only
/// error is out of memory.
pub(crate) fn plain_model(alloc: Global, traces: &[Trace]) -> Result<PlainModel, AllocError>
    requires { length (segments_of by_text traces.now) < 2 ^ 32 }
    ensures names { IfOk result (λ model.
        CountsDistinct model.names (map name_of (segments_of by_text traces.now))) }
    ensures tasks { IfOk result (λ model.
        CountsDistinct model.tasks (map task_of (segments_of by_text traces.now))) }
    ensures hb { IfOk result (λ model. ListsExactly (pair_cmp name_cmp)
        (λ pair. HappensBefore by_text traces.now pair.0 pair.1) model.hb) }
    ensures mx { IfOk result (λ model. ListsExactly (pair_cmp name_cmp)
        (λ pair. ExcludesUnordered by_text name_cmp traces.now pair.0 pair.1) model.mx) }
{
    let names = distinct_names(alloc, traces)?;
    let tasks = distinct_tasks(alloc, &names)?;
    let lists = pair_lists(alloc, traces, &names)?;
    Ok(PlainModel {
        names: names.len() as u32,
        tasks: tasks.len() as u32,
        hb: PlainPairList::of(lists.before),
        mx: PlainPairList::of(lists.exclusive),
    })
}
