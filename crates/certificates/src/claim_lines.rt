ghost use Rattle.std.specs.Prelude.{◌≡◌, IfOk, map};
ghost use Rattle.certificates.specs.Claims.{claim_said};
ghost use Rattle.certificates.specs.inner.ClaimParts.{claim_of_kind, names_then_place, parted_claim};
ghost use Rattle.certificates.specs.inner.ClaimParts.{place_of_parts, place_said, placed_claim};
ghost use Rattle.certificates.specs.inner.ClaimParts.{tasks_then_place};

use crate::fields::first_fields;
use crate::texts::{read_name, read_text};
use crate::trace_place::TracePlace;
use crate::{Claim, Matter};
use std::alloc::{AllocError, Global};
use step_core::plain_number;
use trace_types::{NameText, Text};

/// Reads the place of a trace from its day, its index and its request. The only error is out of
/// memory.
fn read_place_parts(
    alloc: Global,
    day: &[u8],
    index: &[u8],
    request: &[u8],
) -> Result<Option<TracePlace>, AllocError>
    ensures { IfOk result (λ place. place ≡ place_of_parts day.now index.now request.now) }
{
    let (Some(day), Some(index)) = (plain_number(day), plain_number(index)) else {
        return Ok(None);
    };
    match read_text(alloc, request)? {
        Some(request) => Ok(Some(TracePlace {
            day,
            index,
            request,
        })),
        None => Ok(None),
    }
}

/// Reads the place of a trace, and nothing after it. The only error is out of memory.
fn read_place(alloc: Global, fields: &[&[u8]]) -> Result<Option<TracePlace>, AllocError>
    ensures { IfOk result (λ place. place ≡ place_said (map (λ f. f.now) fields.now)) }
{
    if fields.len() != 3 {
        return Ok(None);
    }
    read_place_parts(alloc, fields[0], fields[1], fields[2])
}

/// Reads two names, and then a place. The only error is out of memory.
fn read_names_then_place(
    alloc: Global,
    fields: &[&[u8]],
) -> Result<Option<((NameText, NameText), TracePlace)>, AllocError>
    ensures { IfOk result (λ read. read ≡ names_then_place (map (λ f. f.now) fields.now)) }
{
    let [a, b, c, d, e, f, place @ ..] = fields else {
        return Ok(None);
    };
    let Some(first) = read_name(alloc, a, b, c)? else {
        return Ok(None);
    };
    let Some(second) = read_name(alloc, d, e, f)? else {
        return Ok(None);
    };
    match read_place(alloc, place)? {
        Some(place) => Ok(Some(((first, second), place))),
        None => Ok(None),
    }
}

/// Reads two tasks, and then a place. The only error is out of memory.
fn read_tasks_then_place(
    alloc: Global,
    fields: &[&[u8]],
) -> Result<Option<((Text, Text), TracePlace)>, AllocError>
    ensures { IfOk result (λ read. read ≡ tasks_then_place (map (λ f. f.now) fields.now)) }
{
    let [from, to, place @ ..] = fields else {
        return Ok(None);
    };
    let Some(from) = read_text(alloc, from)? else {
        return Ok(None);
    };
    let Some(to) = read_text(alloc, to)? else {
        return Ok(None);
    };
    match read_place(alloc, place)? {
        Some(place) => Ok(Some(((from, to), place))),
        None => Ok(None),
    }
}

/// Makes the claim that the trace at this place refutes this relation.
fn claim_at(line: u32, matter: Matter, place: TracePlace) -> Claim
    ensures { result ≡ placed_claim line matter place }
{
    Claim {
        line,
        matter,
        day: place.day,
        index: place.index,
        request: place.request,
    }
}

/// Reads the claim of this kind from the fields after it. The only error is out of memory.
fn read_kind(
    alloc: Global,
    number: u32,
    kind: &[u8],
    fields: &[&[u8]],
) -> Result<Option<Claim>, AllocError>
    ensures { IfOk result (λ claim.
        claim ≡ claim_of_kind number kind.now (map (λ f. f.now) fields.now)) }
{
    if kind == b"before".as_slice() {
        let Some(((first, second), place)) = read_names_then_place(alloc, fields)? else {
            return Ok(None);
        };
        Ok(Some(claim_at(number, Matter::Before { first, second }, place)))
    } else if kind == b"exclusive".as_slice() {
        let Some(((first, second), place)) = read_names_then_place(alloc, fields)? else {
            return Ok(None);
        };
        Ok(Some(claim_at(number, Matter::Exclusive { first, second }, place)))
    } else if kind == b"pipe".as_slice() {
        let Some(((from, to), place)) = read_tasks_then_place(alloc, fields)? else {
            return Ok(None);
        };
        Ok(Some(claim_at(number, Matter::Pipe { from, to }, place)))
    } else {
        Ok(None)
    }
}

/// Reads the claim of the fields of a line. The only error is out of memory.
fn read_fields(alloc: Global, number: u32, fields: &[&[u8]]) -> Result<Option<Claim>, AllocError>
    ensures { IfOk result (λ claim.
        claim ≡ parted_claim number (map (λ f. f.now) fields.now)) }
{
    let [word, kind, fields @ ..] = fields else {
        return Ok(None);
    };
    if *word != b"refuted".as_slice() {
        return Ok(None);
    }
    read_kind(alloc, number, kind, fields)
}

/// Reads the claim that a line makes, which has this number; none where it has another form. The
/// only error is out of memory.
pub(crate) fn read_claim(
    alloc: Global,
    number: u32,
    line: &[u8],
) -> Result<Option<Claim>, AllocError>
    ensures { IfOk result (λ claim. claim ≡ claim_said number line.now) }
{
    let fields = first_fields(alloc, line)?;
    read_fields(alloc, number, &fields)
}
