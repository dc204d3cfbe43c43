ghost use Rattle.std.specs.Prelude.{◌≡◌, ◌<◌, All, Some, filter, length, option_copied, IfOk};
ghost use Rattle.span_calls.specs.Calls.{is_asked};
ghost use Rattle.span_calls.specs.Seen.{span_at};
ghost use Rattle.span_requests.specs.SpansOnce.{lent_spans};

use span_types::Span;
use std::alloc::{AllocError, Global};

/// Tells whether a span has this service and name.
fn is_named(alloc: Global, entry: &Span, asked: &str) -> Result<bool, AllocError>
    ensures { IfOk result (λ b. b ≡ is_asked (Some asked.now) entry.now) }
{
    let mut name = String::from_str(alloc, entry.service.as_str())?;
    name.push(' ')?;
    name.push_str(entry.name.as_str())?;
    Ok(name.as_str() == asked)
}

/// Tells whether the request with this entry is asked for: by its service and its name.
fn is_asked(alloc: Global, entry: &Span, asked: Option<&str>) -> Result<bool, AllocError>
    ensures { IfOk result (λ b. b ≡ is_asked (option_copied asked.entry) entry.now) }
{
    match asked {
        Some(asked) => is_named(alloc, entry, asked),
        None => Ok(true),
    }
}

/// Gives the entries that are asked for, in order. The only error is out of memory.
pub(crate) fn asked_entries(
    alloc: Global,
    spans: &[&Span],
    entries: &[u32],
    asked: Option<&str>,
) -> Result<Vec<usize>, AllocError>
    requires { All (λ e. e < length spans.now) entries.now }
    ensures { IfOk result (λ found. found.items
        ≡ filter (λ e. is_asked (option_copied asked.entry) (span_at (lent_spans spans.now) e))
        entries.now) }
{
    let mut found = Vec::new(alloc);
    for entry in entries {
        if is_asked(alloc, spans[*entry as usize], asked)? {
            found.push(*entry as usize)?;
        }
    }
    Ok(found)
}
