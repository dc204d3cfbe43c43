ghost use Rattle.std.specs.Prelude.{◌≡◌, ◌≤◌, ◌++◌, IfOk, OnOk, string_bytes};
ghost use Rattle.pretty_cli.specs.Fields.{texts_of};
ghost use Rattle.pretty_cli.specs.Relations.{exclusion_text, named_at, nearly_text, order_text};
ghost use Rattle.pretty_cli.specs.Relations.{pipe_text, sides_text, tasks_text};

use crate::fields::field;
use crate::relation_cells::support_place;
use std::alloc::{AllocError, Global};

/// Appends the name of a segment, whose three texts begin at this field.
fn push_name(text: &mut String, fields: &[&str], at: usize) -> Result<(), AllocError>
    requires { at ≤ 8 }
    ensures { OnOk result
        (string_bytes text.new ≡ string_bytes text.old ++ named_at (texts_of fields.now) at) }
{
    text.push_str(field(fields, at))?;
    text.push_str(": ")?;
    text.push_str(field(fields, at + 1))?;
    text.push_str(" → ")?;
    text.push_str(field(fields, at + 2))
}

/// Writes two names of which the first happens before the second.
pub(crate) fn order_text(alloc: Global, fields: &[&str]) -> Result<String, AllocError>
    ensures { IfOk result (λ text. string_bytes text ≡ order_text (texts_of fields.now)) }
{
    let mut text = String::new(alloc);
    push_name(&mut text, fields, 1)?;
    text.push_str(", then ")?;
    push_name(&mut text, fields, 4)?;
    Ok(text)
}

/// Writes two names that are mutually exclusive.
pub(crate) fn exclusion_text(alloc: Global, fields: &[&str]) -> Result<String, AllocError>
    ensures { IfOk result (λ text. string_bytes text ≡ exclusion_text (texts_of fields.now)) }
{
    let mut text = String::new(alloc);
    push_name(&mut text, fields, 1)?;
    text.push_str(", never with ")?;
    push_name(&mut text, fields, 4)?;
    Ok(text)
}

/// Appends the two tasks of a pipeline.
fn push_tasks(text: &mut String, fields: &[&str]) -> Result<(), AllocError>
    ensures { OnOk result
        (string_bytes text.new ≡ string_bytes text.old ++ tasks_text (texts_of fields.now)) }
{
    text.push_str(field(fields, 1))?;
    text.push_str(", then ")?;
    text.push_str(field(fields, 2))
}

/// Writes two tasks that are a pipeline, and how many elements they share.
pub(crate) fn pipe_text(alloc: Global, fields: &[&str]) -> Result<String, AllocError>
    ensures { IfOk result (λ text. string_bytes text ≡ pipe_text (texts_of fields.now)) }
{
    let mut text = String::new(alloc);
    push_tasks(&mut text, fields)?;
    text.push_str(", elements: ")?;
    text.push_str(field(fields, 4))?;
    Ok(text)
}

/// Appends the two sides of a relation that few traces refute.
fn push_sides(text: &mut String, fields: &[&str]) -> Result<(), AllocError>
    ensures { OnOk result
        (string_bytes text.new ≡ string_bytes text.old ++ sides_text (texts_of fields.now)) }
{
    if field(fields, 1) == "pipe" {
        text.push_str(field(fields, 2))?;
        text.push_str(", ")?;
        text.push_str(field(fields, 3))
    } else {
        push_name(text, fields, 2)?;
        text.push_str(", ")?;
        push_name(text, fields, 5)
    }
}

/// Writes a relation that few traces refute: how many do, its kind and its sides, and the request
/// of the first that does.
pub(crate) fn nearly_text(alloc: Global, fields: &[&str]) -> Result<String, AllocError>
    ensures { IfOk result (λ text. string_bytes text ≡ nearly_text (texts_of fields.now)) }
{
    let place = support_place(fields);
    let mut text = String::from_str(alloc, "but for ")?;
    text.push_str(field(fields, place + 1))?;
    text.push_str(", ")?;
    text.push_str(field(fields, 1))?;
    text.push_str(": ")?;
    push_sides(&mut text, fields)?;
    text.push_str("; first ")?;
    text.push_str(field(fields, place + 4))?;
    Ok(text)
}
