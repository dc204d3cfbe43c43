ghost use Rattle.std.specs.Prelude.{◌≡◌, ◌<◌, ◌≤◌, ◌+◌, ◌∷◌, ◌++◌, [], All, List, length, map};
ghost use Rattle.std.specs.Prelude.{IfOk, OnOk};
ghost use Rattle.span_calls.specs.Seen.{span_at};
ghost use Rattle.span_lines.specs.Requests.{is_first_entry, name_of_request, request_size};
ghost use Rattle.span_lines.specs.inner.FirstEntries.{AreFirst};
ghost use Rattle.span_requests.specs.SpansOnce.{lent_spans};
ghost use Rattle.span_types.specs.declared.span.Span.{Span};

use indexmap::IndexMap;
use span_calls::Call;
use span_types::Span;
use std::alloc::{AllocError, Global};
use trace_types::Text;

/// Notes the id of an entry, if it is the first of its trace.
fn note_entry<'a>(first: &mut IndexMap<&'a str, &'a str>, entry: &'a Span) -> Result<(), AllocError>
    ensures { OnOk result ((entries : List Span) → AreFirst entries first.old
        → AreFirst (entries ++ entry.now ∷ []) first.new) }
{
    let trace = entry.trace.as_str();
    if first.get(&trace).is_none() {
        first.insert(trace, entry.id.as_str())?;
    }
    Ok(())
}

/// Gives the id of the first entry of each trace. The only error is out of memory.
pub(crate) fn find_first_entries<'a>(
    alloc: Global,
    spans: &[&'a Span],
    entries: &[u32],
) -> Result<IndexMap<&'a str, &'a str>, AllocError>
    requires { All (λ e. e < length spans.now) entries.now }
    ensures { IfOk result (λ first.
        AreFirst (map (span_at (lent_spans spans.now)) entries.now) first) }
{
    let mut first = IndexMap::new(alloc);
    for entry in entries {
        note_entry(&mut first, spans[*entry as usize])?;
    }
    Ok(first)
}

/// Tells whether an entry is the first of its trace.
fn is_first(first: &IndexMap<&str, &str>, entry: &Span) -> bool
    ensures { (entries : List Span) → AreFirst entries first.now
        → result ≡ is_first_entry entries entry.now }
{
    match first.get(&entry.trace.as_str()) {
        Some(id) => *id == entry.id.as_str(),
        None => false,
    }
}

/// Makes the name of the request with this entry: its trace, and unless it is the first entry of
/// its trace, its id. The only error is out of memory.
pub(crate) fn name_request(
    alloc: Global,
    first: &IndexMap<&str, &str>,
    entry: &Span,
) -> Result<Text, AllocError>
    ensures { IfOk result (λ name. (entries : List Span) → AreFirst entries first.now
        → name ≡ name_of_request entries entry.now) }
{
    if is_first(first, entry) {
        return entry.trace.copy(alloc);
    }
    let mut name = String::from_str(alloc, entry.trace.as_str())?;
    name.push('.')?;
    name.push_str(entry.id.as_str())?;
    Text::new(alloc, name.as_str())
}

/// Finds the end of the calls of the request that begins with this call.
pub(crate) fn find_end(calls: &[Call<'_>], call: usize) -> usize
    requires { call < length calls.now }
    ensures end { result ≡ call + request_size calls.now call }
    ensures within { result ≤ length calls.now }
{
    for at in call + 1..calls.len() {
        if calls[at].caller.is_none() {
            return at;
        }
    }
    calls.len()
}
