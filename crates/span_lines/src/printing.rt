ghost use Rattle.std.specs.Prelude.{◌≡◌, ◌<◌, ◌≤◌, ◌++◌, ◌∷◌, [], List, length, IfOk, OnOk};
ghost use Rattle.std.specs.List.{count_by};
ghost use Rattle.span_lines.specs.Messages.{call_span};
ghost use Rattle.span_lines.specs.Requests.{lines_by_request, name_of_request, request_lines};
ghost use Rattle.span_lines.specs.SpanTexts.{is_long, requests_text};
ghost use Rattle.span_lines.specs.inner.FirstEntries.{AreFirst};
ghost use Rattle.span_lines.specs.inner.LentMappings.{IsWhole, mapping_lent};
ghost use Rattle.span_lines.specs.inner.Printed.{ArePrinted, requests_among, text_of};
ghost use Rattle.span_types.specs.declared.span.Span.{Span};

use crate::lent_mapping::LentMapping;
use crate::requests::{find_end, name_request};
use crate::threads::print_calls;
use indexmap::IndexMap;
use std::alloc::{AllocError, Global};

/// The most lines of a request that is taken.
const MOST_LINES: usize = 4096;

/// Appends the lines of the request that begins with this call, by the first entries of traces, and
/// tells whether it is long.
fn print_request(
    alloc: Global,
    mapping: &LentMapping<'_, '_>,
    first: &IndexMap<&str, &str>,
    call: usize,
    text: &mut Vec<u8>,
) -> Result<bool, AllocError>
    requires whole { IsWhole (mapping_lent mapping.now) }
    requires within { call < length mapping.now.calls.now }
    ensures text { OnOk result ((entries : List Span) → AreFirst entries first.now
        → text.new.items ≡ text.old.items ++ text_of (request_lines (mapping_lent mapping.now)
        (name_of_request entries (call_span mapping.now.calls.now call)) call)) }
    ensures long { IfOk result (λ long. (entries : List Span) → AreFirst entries first.now
        → long ≡ is_long (request_lines (mapping_lent mapping.now)
        (name_of_request entries (call_span mapping.now.calls.now call)) call)) }
{
    let name = name_request(alloc, first, mapping.calls[call].span)?;
    let end = find_end(mapping.calls, call);
    let count = print_calls(alloc, mapping, &name, call, end, text)?;
    Ok(count > MOST_LINES)
}

/// Appends the lines of the request that begins with this call, if one does, and gives how many
/// long requests that is.
fn print_at(
    alloc: Global,
    mapping: &LentMapping<'_, '_>,
    first: &IndexMap<&str, &str>,
    call: usize,
    text: &mut Vec<u8>,
) -> Result<usize, AllocError>
    requires whole { IsWhole (mapping_lent mapping.now) }
    requires within { call < length mapping.now.calls.now }
    ensures text { OnOk result ((entries : List Span) → AreFirst entries first.now
        → text.new.items ≡ text.old.items ++ requests_text
        (requests_among (mapping_lent mapping.now) entries (call ∷ []))) }
    ensures long { IfOk result (λ long. (entries : List Span) → AreFirst entries first.now
        → long ≡ count_by is_long
        (requests_among (mapping_lent mapping.now) entries (call ∷ []))) }
    ensures few { IfOk result (λ long. long ≤ 1) }
{
    if mapping.calls[call].caller.is_some() {
        return Ok(0);
    }
    if print_request(alloc, mapping, first, call, text)? {
        Ok(1)
    } else {
        Ok(0)
    }
}

/// Appends the lines of all requests, by the first entries of traces, and gives how many requests
/// are long. The only error is out of memory.
pub(crate) fn print_requests(
    alloc: Global,
    mapping: &LentMapping<'_, '_>,
    first: &IndexMap<&str, &str>,
    text: &mut Vec<u8>,
) -> Result<usize, AllocError>
    requires { IsWhole (mapping_lent mapping.now) }
    ensures { IfOk result (λ long. (entries : List Span) → AreFirst entries first.now
        → ArePrinted (lines_by_request (mapping_lent mapping.now) entries)
        text.old.items text.new.items long) }
{
    let mut long = 0;
    'requests: for call in 0..mapping.calls.len() {
        long += print_at(alloc, mapping, first, call, text)?;
    }
    Ok(long)
}
