ghost use Rattle.std.specs.Prelude.{◌≡◌, ◌<◌, ◌≤◌, ◌+◌, ◌++◌, ◌∷◌, [], IfOk, OnOk, string_bytes};
ghost use Rattle.line_split.specs.Parts.{grace_line, grace_origin, made_name, made_text, three_digits};
ghost use Rattle.line_split.specs.inner.Calls.{call_of_line};

use crate::command_line::CommandLine;
use std::alloc::{AllocError, Global};
use trace_types::Text;

/// Appends a number below 1000 in three digits.
fn push_three_digits(name: &mut String, number: u32) -> Result<(), AllocError>
    ensures { OnOk result (string_bytes name.new ≡ string_bytes name.old ++ three_digits number) }
{
    let hundreds = number / 100;
    let tens = number / 10 % 10;
    let ones = number % 10;
    write!(name, "{hundreds}{tens}{ones}")
}

/// Makes the name of the file with this index: of a part, or of the origins of one.
pub(crate) fn name_of(alloc: Global, call: CommandLine<'_>, index: u32) -> Result<Text, AllocError>
    requires most { call.parts ≤ 256 }
    requires within { index < call.parts + call.parts }
    ensures { IfOk result (λ name. name ≡ made_name (call_of_line call.entry) index) }
{
    let mut name = String::from_str(alloc, call.prefix.as_str())?;
    if index < call.parts {
        push_three_digits(&mut name, index)?;
    } else {
        push_three_digits(&mut name, index - call.parts)?;
        name.push_str(".origins")?;
    }
    Text::new(alloc, name.as_str())
}

/// Makes what a part begins with.
fn grace_line(alloc: Global, grace: Option<u32>) -> Result<String, AllocError>
    ensures { IfOk result (λ text. string_bytes text ≡ grace_line grace) }
{
    match grace {
        None => Ok(String::new(alloc)),
        Some(micros) => format!(in alloc; "{{\"do\":\"grace\",\"micros\":{micros}}}\n"),
    }
}

/// Makes what the origins begin with.
fn grace_origin(alloc: Global, grace: Option<u32>) -> Result<String, AllocError>
    ensures { IfOk result (λ text. string_bytes text ≡ grace_origin grace) }
{
    match grace {
        None => Ok(String::new(alloc)),
        Some(_) => String::from_str(alloc, "0\t0\n"),
    }
}

/// Makes what the file with this index begins with.
pub(crate) fn beginning_of(
    alloc: Global,
    call: CommandLine<'_>,
    index: u32,
) -> Result<Vec<u8>, AllocError>
    ensures { IfOk result (λ bytes. bytes.items ≡ made_text (call_of_line call.entry) [] index) }
{
    let text = if index < call.parts {
        grace_line(alloc, call.grace)?
    } else {
        grace_origin(alloc, call.grace)?
    };
    Vec::from_slice(alloc, text.as_bytes())
}
