ghost use Rattle.std.specs.Prelude.{◌≡◌, codes, Some, IfOk, option_map};
ghost use Rattle.serde_json.specs.Data.{Data};
ghost use Rattle.serde_json.specs.Find.{get};
ghost use Rattle.serde_json.specs.View.{view};
ghost use Rattle.event_lines.specs.Commands.{command_result};
ghost use Rattle.event_lines.specs.LineResults.{json_value, control_line_result, event_line_result};
ghost use Rattle.event_lines.specs.LineResults.{object_result, line_result};
ghost use Rattle.event_lines.specs.inner.Fields.{AreEventFields};
ghost use Rattle.event_lines.specs.inner.PlainObjects.{HasGoodTexts};
ghost use Rattle.event_lines.specs.inner.Readings.{IsLineAdded};

use crate::command_reading::read_command;
use crate::flat_lines::flat_fields;
use crate::object_members::as_text;
use crate::plain_lines::plain_fields;
use crate::run_builder::RunBuilder;
use crate::value_fields::{fields_of, has_bad_text};
use crate::{Command, ControlLine, Why};
use event_table::EventFields;
use json::Scratch;
use serde_json::Value;
use std::alloc::{AllocError, Global};

/// Reads a line as a JSON value; none where it has no such reading.
fn parse(alloc: Global, line: &[u8]) -> Result<Option<Value>, AllocError>
    ensures { IfOk result (λ v. option_map view v ≡ json_value line.now) }
{
    match Value::from_slice(alloc, line) {
        Ok(value) => Ok(Some(value)),
        Err(error) if error.is_memory() => Err(AllocError),
        Err(_) => Ok(None),
    }
}

/// Reads the command of a control line, an object with this member `do`.
fn read_control_line(value: &Value, name: &Value) -> Result<Command, Why>
    requires { get (codes "do") (view value.now) ≡ Some (view name.now) }
    ensures { result ≡ command_result (view value.now) }
{
    read_command(value, as_text(name)?)
}

/// Appends a control line, an object with this member `do`, unless it is bad.
fn add_control_line(
    alloc: Global,
    number: u32,
    value: &Value,
    name: &Value,
    lines: &mut RunBuilder,
) -> Result<Result<(), Why>, AllocError>
    requires { get (codes "do") (view value.now) ≡ Some (view name.now) }
    ensures { IfOk result (λ added.
        IsLineAdded (control_line_result number (view value.now)) lines.old lines.new added) }
{
    match read_control_line(value, name) {
        Ok(command) => {
            let control = ControlLine {
                line: number,
                command,
            };
            lines.push_control(alloc, control)?;
            Ok(Ok(()))
        }
        Err(why) => Ok(Err(why)),
    }
}

/// Appends the event of a line with these fields, unless one of its texts is bad.
fn add_fields(
    alloc: Global,
    number: u32,
    fields: &EventFields<'_>,
    lines: &mut RunBuilder,
) -> Result<Result<(), Why>, AllocError>
    ensures { IfOk result (λ added. (d : Data) → AreEventFields fields.now d
        → IsLineAdded (event_line_result number d) lines.old lines.new added) }
{
    if has_bad_text(fields) {
        return Ok(Err(Why::BadText));
    }
    lines.push_event(alloc, number, fields)?;
    Ok(Ok(()))
}

/// Appends the event of a line with these fields, whose texts are good.
fn add_good_fields(
    alloc: Global,
    number: u32,
    fields: &EventFields<'_>,
    lines: &mut RunBuilder,
) -> Result<Result<(), Why>, AllocError>
    requires { HasGoodTexts fields.now }
    ensures { IfOk result (λ added. (d : Data) → AreEventFields fields.now d
        → IsLineAdded (event_line_result number d) lines.old lines.new added) }
{
    lines.push_event(alloc, number, fields)?;
    Ok(Ok(()))
}

/// Appends an event line, unless it is bad.
fn add_event_line(
    alloc: Global,
    number: u32,
    value: &Value,
    lines: &mut RunBuilder,
) -> Result<Result<(), Why>, AllocError>
    ensures { IfOk result (λ added.
        IsLineAdded (event_line_result number (view value.now)) lines.old lines.new added) }
{
    match fields_of(value) {
        Ok(fields) => add_fields(alloc, number, &fields, lines),
        Err(why) => Ok(Err(why)),
    }
}

/// Appends the event or the command of an object, unless it is bad.
fn add_object(
    alloc: Global,
    number: u32,
    value: &Value,
    lines: &mut RunBuilder,
) -> Result<Result<(), Why>, AllocError>
    ensures { IfOk result (λ added.
        IsLineAdded (object_result number (view value.now)) lines.old lines.new added) }
{
    match value.get("do") {
        Some(name) => add_control_line(alloc, number, value, name, lines),
        None => add_event_line(alloc, number, value, lines),
    }
}

/// Reads a line that is not blank by way of its JSON value, and appends it unless it is bad.
pub(crate) fn add_any_line(
    alloc: Global,
    number: u32,
    line: &[u8],
    lines: &mut RunBuilder,
) -> Result<Result<(), Why>, AllocError>
    ensures { IfOk result (λ added.
        IsLineAdded (line_result number line.now) lines.old lines.new added) }
{
    match parse(alloc, line)? {
        Some(value) if value.is_object() => add_object(alloc, number, &value, lines),
        _ => Ok(Err(Why::NotJson)),
    }
}

/// Reads a line that is not blank from its tokens, or by way of its JSON value, and appends it
/// unless it is bad.
pub(crate) fn add_token_line(
    alloc: Global,
    number: u32,
    line: &[u8],
    scratch: &mut Scratch,
    lines: &mut RunBuilder,
) -> Result<Result<(), Why>, AllocError>
    ensures { IfOk result (λ added.
        IsLineAdded (line_result number line.now) lines.old lines.new added) }
{
    match flat_fields(line, scratch)? {
        Some(fields) => add_fields(alloc, number, &fields, lines),
        None => add_any_line(alloc, number, line, lines),
    }
}

/// Appends the event or the command of a line that is not blank, or tells why it is bad. The only
/// error is out of memory.
///
/// Most event lines are read byte by byte, those with escapes or odd spaces from their tokens, and
/// all others by way of their JSON value.
pub(crate) fn add_line(
    alloc: Global,
    number: u32,
    line: &[u8],
    scratch: &mut Scratch,
    lines: &mut RunBuilder,
) -> Result<Result<(), Why>, AllocError>
    ensures { IfOk result (λ added.
        IsLineAdded (line_result number line.now) lines.old lines.new added) }
{
    match plain_fields(line) {
        Some(fields) => add_good_fields(alloc, number, &fields, lines),
        None => add_token_line(alloc, number, line, scratch, lines),
    }
}
