ghost use Rattle.std.specs.Prelude.{◌≡◌, IfOk, map};
ghost use Rattle.certificates.specs.Claims.{are_header_fields, is_count, is_header};
ghost use Rattle.certificates.specs.inner.ClaimParts.{are_header_parts};

use crate::fields::first_fields;
use std::alloc::{AllocError, Global};
use step_core::plain_number;

/// Tells whether a field is the label and a plain number.
fn is_count(label: &[u8], field: &[u8]) -> bool
    ensures { result ≡ is_count label.now field.now }
{
    match field.strip_prefix(label) {
        Some(number) => plain_number(number).is_some(),
        None => false,
    }
}

/// Tells whether these are the three fields of the header.
fn are_header_parts(word: &[u8], traces: &[u8], refuted: &[u8]) -> bool
    ensures { result ≡ are_header_parts word.now traces.now refuted.now }
{
    word == b"why".as_slice() && is_count(b"traces=", traces) && is_count(b"refuted=", refuted)
}

/// Tells whether these are the fields of the header.
fn are_header_fields(fields: &[&[u8]]) -> bool
    ensures { result ≡ are_header_fields (map (λ f. f.now) fields.now) }
{
    match fields {
        [word, traces, refuted] => are_header_parts(word, traces, refuted),
        _ => false,
    }
}

/// Tells whether a line has the fields of the header. The only error is out of memory.
pub(crate) fn is_header(alloc: Global, line: &[u8]) -> Result<bool, AllocError>
    ensures { IfOk result (λ header. header ≡ is_header line.now) }
{
    let fields = first_fields(alloc, line)?;
    Ok(are_header_fields(&fields))
}
