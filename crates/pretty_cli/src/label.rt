ghost use Rattle.std.specs.Prelude.{◌≡◌, IfOk, string_bytes};
ghost use Rattle.pretty_cli.specs.Fields.{texts_of};
ghost use Rattle.pretty_cli.specs.Shown.{IsLabel, IsRequestText, counted_text, latency_text};
ghost use Rattle.pretty_cli.specs.Shown.{name_text, segment_text};

use crate::context::{Context, Kind, View};
use crate::dates::push_date;
use crate::durations::push_duration;
use crate::fields::{field, number_at};
use crate::header::header_text;
use crate::relation_label::{exclusion_text, nearly_text, order_text, pipe_text};
use std::alloc::{AllocError, Global};

/// Writes the name of a segment, whose three texts begin at the second field.
fn name_text(alloc: Global, fields: &[&str]) -> Result<String, AllocError>
    ensures { IfOk result (λ text. string_bytes text ≡ name_text (texts_of fields.now)) }
{
    let (task, start, end) = (field(fields, 1), field(fields, 2), field(fields, 3));
    format!(in alloc; "{task}: {start} → {end}")
}

/// Writes the name of a segment, on how many critical paths it is and how often it was seen.
fn counted_text(alloc: Global, fields: &[&str]) -> Result<String, AllocError>
    ensures { IfOk result (λ text. string_bytes text ≡ counted_text (texts_of fields.now)) }
{
    let (task, start, end) = (field(fields, 1), field(fields, 2), field(fields, 3));
    let (paths, times) = (field(fields, 8), field(fields, 4));
    format!(in alloc; "{task}: {start} → {end} ({paths} of {times})")
}

/// Writes the name of a segment, in a report with its counts.
fn segment_text(alloc: Global, view: View, fields: &[&str]) -> Result<String, AllocError>
    ensures { IfOk result (λ text. string_bytes text ≡ segment_text view (texts_of fields.now)) }
{
    match view {
        View::Report => counted_text(alloc, fields),
        _ => name_text(alloc, fields),
    }
}

/// Writes a request, the second field, and its day, the third.
fn request_text(alloc: Global, fields: &[&str]) -> Result<String, AllocError>
    ensures { IfOk result (λ text. IsRequestText (texts_of fields.now) (string_bytes text)) }
{
    let mut text = String::from_str(alloc, field(fields, 1))?;
    text.push_str(", ")?;
    push_date(&mut text, number_at(fields, 2))?;
    Ok(text)
}

/// Writes the latencies of a report.
fn latency_text(alloc: Global, fields: &[&str]) -> Result<String, AllocError>
    ensures { IfOk result (λ text. string_bytes text ≡ latency_text (texts_of fields.now)) }
{
    let mut text = String::from_str(alloc, "latency: median ")?;
    push_duration(alloc, &mut text, number_at(fields, 3))?;
    text.push_str(", greatest ")?;
    push_duration(alloc, &mut text, number_at(fields, 4))?;
    text.push_str(", ")?;
    push_duration(alloc, &mut text, number_at(fields, 2))?;
    text.push_str(" together")?;
    Ok(text)
}

/// Writes the label of a row: what stands behind its columns.
pub(crate) fn label_text(
    alloc: Global,
    context: Context,
    fields: &[&str],
) -> Result<String, AllocError>
    ensures { IfOk result (λ text.
        IsLabel context context.kind (texts_of fields.now) (string_bytes text)) }
{
    match context.kind {
        Kind::Header => header_text(alloc, context.view, fields),
        Kind::Latency => latency_text(alloc, fields),
        Kind::Segment => segment_text(alloc, context.view, fields),
        Kind::Trace | Kind::Forecast => request_text(alloc, fields),
        Kind::Step => name_text(alloc, fields),
        Kind::Order => order_text(alloc, fields),
        Kind::Exclusion => exclusion_text(alloc, fields),
        Kind::Pipe => pipe_text(alloc, fields),
        Kind::Nearly => nearly_text(alloc, fields),
        Kind::Other => Ok(String::new(alloc)),
    }
}
