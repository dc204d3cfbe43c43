ghost use Rattle.std.specs.Prelude.{◌≡◌, ◌<◌, All, length, map, IfOk};
ghost use Rattle.context_names.specs.Machines.{AreNamed, machines_of};
ghost use Rattle.span_calls.specs.Seen.{span_at};
ghost use Rattle.span_lines.specs.inner.FirstEntries.{AreFirst};
ghost use Rattle.span_requests.specs.SpansOnce.{lent_spans};

use crate::requests::find_first_entries;
use context_names::{MachineNames, name_machines};
use indexmap::IndexMap;
use span_types::Span;
use std::alloc::{AllocError, Global};

/// What machines and requests are named by.
#[derive(Debug, Drop)]
pub(crate) struct InputNames<'a> {
    /// The names of machines.
    pub(crate) machines: MachineNames<'a>,
    /// Of each trace the id of its first entry.
    pub(crate) first: IndexMap<&'a str, &'a str>,
}

/// Names the machines of spans, and finds the first of these entries of each trace. The only error
/// is out of memory.
pub(crate) fn name_input<'a>(
    alloc: Global,
    spans: &[&'a Span],
    entries: &[u32],
) -> Result<InputNames<'a>, AllocError>
    requires { All (λ e. e < length spans.now) entries.now }
    ensures machines { IfOk result (λ names.
        names.machines.machines ≡ machines_of (lent_spans spans.now)) }
    ensures named { IfOk result (λ names.
        AreNamed names.machines.machines names.machines.names) }
    ensures first { IfOk result (λ names.
        AreFirst (map (span_at (lent_spans spans.now)) entries.now) names.first) }
{
    let machines = name_machines(alloc, spans)?;
    let first = find_first_entries(alloc, spans, entries)?;
    Ok(InputNames { machines, first })
}
