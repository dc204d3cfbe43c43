ghost use Rattle.std.specs.Prelude.{◌≡◌, ◌++◌, [], OnOk, slice_index_or};
ghost use Rattle.std.specs.List.{flat_map};
ghost use Rattle.inspect_run.specs.LineRows.{all_reasons, bad_cause, bad_place, bad_row};
ghost use Rattle.inspect_run.specs.LineRows.{count_reason, event_row};
ghost use Rattle.inspect_run.specs.LineRows.{is_reason, reason_row, rows_of_lines};

use crate::Level;
use crate::row::{Row, push_number, push_row, push_shown};
use event_lines::Why;
use line_quality::{BadLine, Findings};
use std::alloc::AllocError;
use trace_types::Text;

/// The reasons, in the order in which they are printed.
const REASONS: [Why; 6] = [
    Why::NotJson,
    Why::Missing,
    Why::WrongKind,
    Why::OutOfRange,
    Why::BadText,
    Why::UnknownCommand,
];

/// Tells whether a reason is this one.
fn is_reason(why: Why, other: Why) -> bool
    ensures { result ≡ is_reason why other }
{
    other.as_str() == why.as_str()
}

/// Counts how often a reason stands among reasons.
fn count_reason(reasons: &[Why], why: Why) -> usize
    ensures { result ≡ count_reason reasons.now why }
{
    reasons
        .iter()
        .filter(|other| is_reason(why, **other))
        .count()
}

/// Appends the row of the event lines.
fn push_events(text: &mut Vec<u8>, events: u64, filled: u64) -> Result<(), AllocError>
    ensures { OnOk result (text.new.items ≡ text.old.items ++ event_row events filled) }
{
    let level = if events == 0 {
        Level::Warn
    } else {
        Level::Fine
    };
    push_row(
        text,
        Row {
            kind: "lines",
            level,
            count: events,
            of: filled,
            example: "-",
            what: "event lines",
        },
    )
}

/// Appends the row of a reason, if lines are bad for it.
fn push_reason(text: &mut Vec<u8>, filled: u64, why: Why, count: u64) -> Result<(), AllocError>
    ensures { OnOk result (text.new.items ≡ text.old.items ++ reason_row filled why count) }
{
    if count == 0 {
        return Ok(());
    }
    push_row(
        text,
        Row {
            kind: "lines",
            level: Level::Warn,
            count,
            of: filled,
            example: "-",
            what: why.as_str(),
        },
    )
}

/// Appends the rows of those of some reasons for which lines are bad.
fn push_each(
    text: &mut Vec<u8>,
    filled: u64,
    reasons: &[Why],
    whys: &[Why],
) -> Result<(), AllocError>
    ensures { OnOk result (text.new.items ≡ text.old.items
        ++ flat_map (λ why. reason_row filled why (count_reason reasons.now why)) whys.now) }
{
    for why in whys {
        push_reason(text, filled, *why, count_reason(reasons, *why) as u64)?;
    }
    Ok(())
}

/// Appends the rows of the reasons for which lines are bad.
fn push_reasons(text: &mut Vec<u8>, filled: u64, reasons: &[Why]) -> Result<(), AllocError>
    ensures { OnOk result (text.new.items ≡ text.old.items
        ++ flat_map (λ why. reason_row filled why (count_reason reasons.now why)) all_reasons) }
{
    push_each(text, filled, reasons, &REASONS)
}

/// Gives the name with this index.
fn name_at(names: &[Text], index: u32) -> &str
    ensures { result.now ≡ slice_index_or names.now index [] }
{
    match names.get(index as usize) {
        Some(name) => name.as_str(),
        None => "",
    }
}

/// Appends the first fields of the row of a bad line.
#[tactic(auto, unfolding(crate::specs::LineRows::bad_place))]
fn push_place(text: &mut Vec<u8>, names: &[Text], bad: &BadLine) -> Result<(), AllocError>
    ensures { OnOk result (text.new.items ≡ text.old.items ++ bad_place names.now bad.now) }
{
    text.extend_from_slice(b"bad\twarn\t")?;
    push_shown(text, name_at(names, bad.file).as_bytes())?;
    text.extend_from_slice(b"\t")?;
    push_number(text, u64::from(bad.line))?;
    text.extend_from_slice(b"\t")
}

/// Appends the last fields of the row of a bad line.
#[tactic(auto, unfolding(crate::specs::LineRows::bad_cause))]
fn push_cause(text: &mut Vec<u8>, bad: &BadLine) -> Result<(), AllocError>
    ensures { OnOk result (text.new.items ≡ text.old.items ++ bad_cause bad.now) }
{
    text.extend_from_slice(bad.why.as_str().as_bytes())?;
    text.extend_from_slice(b"\t")?;
    text.extend_from_slice(bad.member.as_str().as_bytes())?;
    text.extend_from_slice(b"\n")
}

/// Appends the row of a bad line.
fn push_bad(text: &mut Vec<u8>, names: &[Text], bad: &BadLine) -> Result<(), AllocError>
    ensures { OnOk result (text.new.items ≡ text.old.items ++ bad_row names.now bad.now) }
{
    push_place(text, names, bad)?;
    push_cause(text, bad)
}

/// Appends the rows of the first bad lines.
fn push_bads(text: &mut Vec<u8>, names: &[Text], first: &[BadLine]) -> Result<(), AllocError>
    ensures { OnOk result (text.new.items ≡ text.old.items ++ flat_map (bad_row names.now) first.now) }
{
    for bad in first {
        push_bad(text, names, bad)?;
    }
    Ok(())
}

/// Appends the rows on lines: of so many events among so many lines that are not blank, and what was
/// found of bad ones in the files with these names. The only error is out of memory.
pub(crate) fn push_line_rows(
    text: &mut Vec<u8>,
    names: &[Text],
    events: u64,
    filled: u64,
    findings: &Findings,
) -> Result<(), AllocError>
    ensures { OnOk result (text.new.items ≡ text.old.items ++ rows_of_lines names.now events filled
        findings.now.reasons.items findings.now.first.items) }
{
    push_events(text, events, filled)?;
    push_reasons(text, filled, &findings.reasons)?;
    push_bads(text, names, &findings.first)
}
