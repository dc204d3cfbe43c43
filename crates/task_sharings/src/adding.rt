ghost use Rattle.std.specs.Prelude.{◌≡◌, ◌*◌, ◌<◌, ◌≤◌, ◌^◌};
ghost use Rattle.task_sharings.specs.inner.Adding.{with_trace};

use evidence_rules::Sharing;

/// Adds to the figures of two tasks the trace with this index, in which they share so many elements.
pub(crate) fn with_trace(figures: &Sharing, index: u32, elements: u64, refutes: bool) -> Sharing
    requires index { index < 4294967295 }
    requires few_traces { figures.now.traces ≤ index }
    requires few_elements { figures.now.elements ≤ index * 2 ^ 64 }
    requires few_refuted { figures.now.refuted ≤ index }
    ensures { result ≡ with_trace figures.now index elements refutes }
{
    let first = if refutes && figures.refuted == 0 {
        index
    } else {
        figures.first_refuted
    };
    Sharing {
        traces: figures.traces + 1,
        elements: figures.elements + u128::from(elements),
        refuted: figures.refuted + u32::from(refutes),
        first_refuted: first,
    }
}
