ghost use Rattle.std.specs.Prelude.{◌≡◌, ◌++◌, decimal, OnOk};
ghost use Rattle.std.specs.List.{flat_map};
ghost use Rattle.event_text.specs.LineTexts.{escaped_byte, quoted};

use itoa::Buffer;
use memchr::memchr2;
use std::alloc::AllocError;

/// Appends a number in plain digits.
pub(crate) fn push_number(bytes: &mut Vec<u8>, number: u64) -> Result<(), AllocError>
    ensures { OnOk result (bytes.new.items ≡ bytes.old.items ++ decimal number) }
{
    let mut digits = Buffer::new();
    bytes.extend_from_slice(digits.format(number).as_bytes())
}

/// Appends a byte, after a backslash where it is a quote or a backslash.
fn push_escaped_byte(bytes: &mut Vec<u8>, byte: u8) -> Result<(), AllocError>
    ensures { OnOk result (bytes.new.items ≡ bytes.old.items ++ escaped_byte byte) }
{
    if byte == b'"' || byte == b'\\' {
        bytes.push(b'\\')?;
    }
    Ok(bytes.push(byte)?)
}

/// Appends a text byte by byte, with a backslash before each quote and backslash.
fn push_escaped(bytes: &mut Vec<u8>, text: &[u8]) -> Result<(), AllocError>
    ensures { OnOk result (bytes.new.items ≡ bytes.old.items ++ flat_map escaped_byte text.now) }
{
    for byte in text {
        push_escaped_byte(bytes, *byte)?;
    }
    Ok(())
}

/// Appends a text with a backslash before each quote and backslash.
fn push_content(bytes: &mut Vec<u8>, text: &[u8]) -> Result<(), AllocError>
    ensures { OnOk result (bytes.new.items ≡ bytes.old.items ++ flat_map escaped_byte text.now) }
{
    match memchr2(b'"', b'\\', text) {
        Some(_) => push_escaped(bytes, text),
        None => {
            bytes.extend_from_slice(text)?;
            Ok(())
        }
    }
}

/// Appends a text in quotes.
#[tactic(auto, unfolding(crate::specs::LineTexts::quoted))]
pub(crate) fn push_quoted(bytes: &mut Vec<u8>, text: &[u8]) -> Result<(), AllocError>
    ensures { OnOk result (bytes.new.items ≡ bytes.old.items ++ quoted text.now) }
{
    bytes.push(b'"')?;
    push_content(bytes, text)?;
    Ok(bytes.push(b'"')?)
}
