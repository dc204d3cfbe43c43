ghost use Rattle.std.specs.Prelude.{◌≡◌, ◌++◌, IfOk, OnOk, bytes_eq};
ghost use Rattle.std.specs.List.{flat_map, list_any};
ghost use Rattle.head_picture.specs.Refusals.{count_of, first_text, reason_start, reason_text};
ghost use Rattle.head_picture.specs.Refusals.{reasons_of, refused_list, refused_start, refused_text};
ghost use Rattle.head_picture.specs.Refusals.{trace_text, with_reason};

use markup::{Piece, push_fixed, push_pieces};
use page_rows::RefusedRow;
use std::alloc::{AllocError, Global};
use trace_types::Text;

/// How many reasons are told.
const MOST_REASONS: usize = 12;

/// Tells whether a reason was seen.
fn is_seen(seen: &[Text], reason: &str) -> bool
    ensures { result ≡ list_any (bytes_eq reason.now) seen.now }
{
    seen.iter().any(|other| reason == other.as_str())
}

/// Adds a reason, unless it was seen or there are enough.
fn add_reason(alloc: Global, seen: &mut Vec<Text>, reason: &Text) -> Result<(), AllocError>
    ensures { OnOk result (seen.new.items ≡ with_reason seen.old.items reason.now) }
{
    if is_seen(seen, reason.as_str()) || seen.len() >= MOST_REASONS {
        return Ok(());
    }
    Ok(seen.push(reason.copy(alloc)?)?)
}

/// Finds the reasons of rows, each once.
fn reasons_of(alloc: Global, rows: &[RefusedRow]) -> Result<Vec<Text>, AllocError>
    ensures { IfOk result (λ reasons. reasons.items ≡ reasons_of rows.now) }
{
    let mut seen = Vec::new(alloc);
    'rows: for row in rows {
        add_reason(alloc, &mut seen, &row.reason)?;
    }
    Ok(seen)
}

/// Tells whether a row has a reason.
fn has_reason(row: &RefusedRow, reason: &str) -> bool
    ensures { result ≡ bytes_eq reason.now row.now.reason }
{
    reason == row.reason.as_str()
}

/// Counts the rows with a reason.
fn count_of(rows: &[RefusedRow], reason: &str) -> usize
    ensures { result ≡ count_of rows.now reason.now }
{
    let mut count = 0usize;
    'rows: for row in rows {
        if has_reason(row, reason) {
            count += 1;
        }
    }
    count
}

/// Appends a reason, and how many traces were refused for it.
fn push_reason_start(bytes: &mut Vec<u8>, count: usize, reason: &str) -> Result<(), AllocError>
    ensures { OnOk result (bytes.new.items ≡ bytes.old.items ++ reason_start count reason.now) }
{
    push_pieces(
        bytes,
        &[
            Piece::Fixed("<li><bdi>"),
            Piece::Name(reason),
            Piece::Fixed("</bdi>: "),
            Piece::Number(count as u128),
        ],
    )
}

/// Appends a trace that was refused.
fn push_trace(bytes: &mut Vec<u8>, row: &RefusedRow) -> Result<(), AllocError>
    ensures { OnOk result (bytes.new.items ≡ bytes.old.items ++ trace_text row.now) }
{
    let line = row.line.get();
    push_pieces(
        bytes,
        &[
            Piece::Fixed(", the first <bdi>"),
            Piece::Name(row.request.as_str()),
            Piece::Fixed("</bdi> at line "),
            Piece::Number(line),
        ],
    )
}

/// Appends the first trace that was refused for a reason.
fn push_first(bytes: &mut Vec<u8>, reason: &str, rows: &[RefusedRow]) -> Result<(), AllocError>
    ensures { OnOk result (bytes.new.items ≡ bytes.old.items ++ first_text reason.now rows.now) }
{
    'rows: for row in rows {
        if has_reason(row, reason) {
            return push_trace(bytes, row);
        }
    }
    Ok(())
}

/// Appends what is said of a reason.
#[tactic(auto, unfolding(crate::specs::Refusals::reason_text))]
fn push_reason(bytes: &mut Vec<u8>, rows: &[RefusedRow], reason: &Text) -> Result<(), AllocError>
    ensures { OnOk result (bytes.new.items ≡ bytes.old.items ++ reason_text rows.now reason.now) }
{
    let reason = reason.as_str();
    push_reason_start(bytes, count_of(rows, reason), reason)?;
    push_first(bytes, reason, rows)?;
    push_fixed(bytes, "</li>")
}

/// Appends what is said of reasons.
fn push_reasons(
    bytes: &mut Vec<u8>,
    rows: &[RefusedRow],
    reasons: &[Text],
) -> Result<(), AllocError>
    ensures { OnOk result
        (bytes.new.items ≡ bytes.old.items ++ flat_map (reason_text rows.now) reasons.now) }
{
    'reasons: for reason in reasons {
        push_reason(bytes, rows, reason)?;
    }
    Ok(())
}

/// Appends how many traces were refused.
fn push_refused_start(bytes: &mut Vec<u8>, count: usize) -> Result<(), AllocError>
    ensures { OnOk result (bytes.new.items ≡ bytes.old.items ++ refused_start count) }
{
    push_pieces(
        bytes,
        &[
            Piece::Fixed("<div class=\"refused\">Refused traces: "),
            Piece::Number(count as u128),
            Piece::Fixed("<ul>"),
        ],
    )
}

/// Appends how many traces were refused, with their reasons.
#[tactic(auto, unfolding(crate::specs::Refusals::refused_list))]
fn push_list(alloc: Global, bytes: &mut Vec<u8>, rows: &[RefusedRow]) -> Result<(), AllocError>
    ensures { OnOk result (bytes.new.items ≡ bytes.old.items ++ refused_list rows.now) }
{
    let reasons = reasons_of(alloc, rows)?;
    push_refused_start(bytes, rows.len())?;
    push_reasons(bytes, rows, &reasons)?;
    push_fixed(bytes, "</ul></div>")
}

/// Appends how many traces were refused, with their reasons, unless none was.
pub(crate) fn push_refused(
    alloc: Global,
    bytes: &mut Vec<u8>,
    rows: &[RefusedRow],
) -> Result<(), AllocError>
    ensures { OnOk result (bytes.new.items ≡ bytes.old.items ++ refused_text rows.now) }
{
    if rows.is_empty() {
        return Ok(());
    }
    push_list(alloc, bytes, rows)
}
