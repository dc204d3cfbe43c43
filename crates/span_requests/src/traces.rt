ghost use Rattle.std.specs.Prelude.{◌≡◌, ◌++◌, ◌∷◌, [], if◌then◌else◌, map, OnOk};
ghost use Rattle.std.specs.List.{list_any, position_or_len};
ghost use Rattle.std.specs.Str.{bytes_eq};
ghost use Rattle.span_requests.specs.Entries.{traces_of};
ghost use Rattle.span_requests.specs.inner.Ids.{lent_spans, lent_texts};

use indexmap::IndexSet;
use span_types::Span;
use std::alloc::AllocError;

/// Puts a trace last, if it is new.
fn put_trace<'a>(traces: &mut IndexSet<&'a str>, trace: &'a str) -> Result<(), AllocError>
    ensures { OnOk result (lent_texts traces.new.keys
        ≡ (if list_any (bytes_eq trace.now) (lent_texts traces.old.keys) then lent_texts traces.old.keys
        else lent_texts traces.old.keys ++ trace.now ∷ [])) }
{
    traces.insert(trace)?;
    Ok(())
}

/// Puts the traces of spans, in the order of first sight. The only error is out of memory.
pub(crate) fn put_traces<'a>(
    spans: &[&'a Span],
    traces: &mut IndexSet<&'a str>,
) -> Result<(), AllocError>
    requires { traces.old.keys ≡ [] }
    ensures { OnOk result (lent_texts traces.new.keys ≡ traces_of (lent_spans spans.now)) }
{
    for span in spans {
        put_trace(traces, span.trace.as_str())?;
    }
    Ok(())
}

/// Finds where a trace stands; behind all where it is not there.
pub(crate) fn find_trace(traces: &IndexSet<&str>, trace: &str) -> usize
    ensures { result ≡ position_or_len (bytes_eq trace.now) (lent_texts traces.now.keys) }
{
    traces.get_index_of(&trace).unwrap_or(traces.len())
}
