ghost use Rattle.std.specs.Prelude.{◌≡◌, ◌++◌, IfOk, OnOk, codes, decimal, string_bytes};
ghost use Rattle.pretty_cli.specs.Fields.{field_at, figure_of, texts_of};
ghost use Rattle.pretty_cli.specs.Relations.{counts_text};
ghost use Rattle.pretty_cli.specs.Shown.{header_text, header_time, traces_text};

use crate::context::View;
use crate::durations::push_duration;
use crate::fields::figure;
use std::alloc::{AllocError, Global};

/// Writes how many traces a header tells.
fn traces_text(alloc: Global, fields: &[&str]) -> Result<String, AllocError>
    ensures { IfOk result (λ text. string_bytes text ≡ traces_text (texts_of fields.now)) }
{
    let traces = figure(fields, 1, "traces=");
    format!(in alloc; "traces: {traces}")
}

/// Appends a duration that a header has in this field behind a name.
fn push_time(
    alloc: Global,
    text: &mut String,
    fields: &[&str],
    index: usize,
    name: &str,
) -> Result<(), AllocError>
    ensures { OnOk result (string_bytes text.new ≡ string_bytes text.old
        ++ header_time name.now (field_at (texts_of fields.now) index)) }
{
    push_duration(alloc, text, figure(fields, index, name))
}

/// Appends what the header of `report` tells behind its traces.
fn push_report(alloc: Global, text: &mut String, fields: &[&str]) -> Result<(), AllocError>
    ensures { OnOk result (string_bytes text.new ≡ string_bytes text.old
        ++ codes ", critical paths: "
        ++ header_time (codes "critical=") (field_at (texts_of fields.now) 2)
        ++ codes " together") }
{
    text.push_str(", critical paths: ")?;
    push_time(alloc, text, fields, 2, "critical=")?;
    text.push_str(" together")
}

/// Appends what the header of `tail` tells behind its traces.
fn push_tail(alloc: Global, text: &mut String, fields: &[&str]) -> Result<(), AllocError>
    ensures { OnOk result (string_bytes text.new ≡ string_bytes text.old
        ++ codes ", slow: "
        ++ decimal (figure_of (codes "slow=") (field_at (texts_of fields.now) 2))
        ++ codes " of " ++ header_time (codes "floor=") (field_at (texts_of fields.now) 3)
        ++ codes " or more") }
{
    let slow = figure(fields, 2, "slow=");
    write!(text, ", slow: {slow} of ")?;
    push_time(alloc, text, fields, 3, "floor=")?;
    text.push_str(" or more")
}

/// Appends what the header of `whatif` tells behind its traces.
fn push_forecast(alloc: Global, text: &mut String, fields: &[&str]) -> Result<(), AllocError>
    ensures { OnOk result (string_bytes text.new ≡ string_bytes text.old
        ++ codes ", critical paths: "
        ++ header_time (codes "before=") (field_at (texts_of fields.now) 2)
        ++ codes " together, then "
        ++ header_time (codes "after=") (field_at (texts_of fields.now) 3)) }
{
    text.push_str(", critical paths: ")?;
    push_time(alloc, text, fields, 2, "before=")?;
    text.push_str(" together, then ")?;
    push_time(alloc, text, fields, 3, "after=")
}

/// Appends a text and the number that a header has in this field behind a name.
fn push_count(
    text: &mut String,
    fields: &[&str],
    index: usize,
    name: &str,
    said: &str,
) -> Result<(), AllocError>
    ensures { OnOk result (string_bytes text.new ≡ string_bytes text.old ++ said.now
        ++ decimal (figure_of name.now (field_at (texts_of fields.now) index))) }
{
    let count = figure(fields, index, name);
    text.push_str(said)?;
    write!(text, "{count}")
}

/// Appends what the header of `evidence` tells behind its traces.
fn push_counts(text: &mut String, fields: &[&str]) -> Result<(), AllocError>
    ensures { OnOk result
        (string_bytes text.new ≡ string_bytes text.old ++ counts_text (texts_of fields.now)) }
{
    push_count(text, fields, 2, "hb=", ", before: ")?;
    push_count(text, fields, 3, "mx=", ", exclusive: ")?;
    push_count(text, fields, 4, "pipe=", ", pipe: ")?;
    push_count(text, fields, 5, "nearly=", ", nearly: ")
}

/// Writes what a header tells.
pub(crate) fn header_text(alloc: Global, view: View, fields: &[&str]) -> Result<String, AllocError>
    ensures { IfOk result (λ text. string_bytes text ≡ header_text view (texts_of fields.now)) }
{
    let mut text = traces_text(alloc, fields)?;
    match view {
        View::Report => push_report(alloc, &mut text, fields)?,
        View::Tail => push_tail(alloc, &mut text, fields)?,
        View::WhatIf => push_forecast(alloc, &mut text, fields)?,
        View::Evidence => push_counts(&mut text, fields)?,
        _ => text.push_str(", the slowest first")?,
    }
    Ok(text)
}
