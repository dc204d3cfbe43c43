ghost use Rattle.std.specs.Prelude.{◌≡◌, ◌++◌, decimal, OnOk, map};
ghost use Rattle.std.specs.Fmt.{signed_decimal};
ghost use Rattle.inspect_run.specs.Rows.{row_begin, row_end, row_text, shown, shown_byte};
ghost use Rattle.inspect_run.specs.Rows.{signed_begin, signed_end, signed_row_text};

use crate::Level;
use itoa::Buffer;
use std::alloc::AllocError;

/// A row: what kind it is, how good the input is in this respect, a count and of how many, an
/// example, and what is counted.
#[derive(Clone, Copy, Debug)]
pub(crate) struct Row<'t> {
    pub(crate) kind: &'t str,
    pub(crate) level: Level,
    pub(crate) count: u64,
    pub(crate) of: u64,
    pub(crate) example: &'t str,
    pub(crate) what: &'t str,
}

/// Appends a number in plain digits.
pub(crate) fn push_number(text: &mut Vec<u8>, number: u64) -> Result<(), AllocError>
    ensures { OnOk result (text.new.items ≡ text.old.items ++ decimal number) }
{
    let mut digits = Buffer::new();
    text.extend_from_slice(digits.format(number).as_bytes())
}

/// Appends the first fields of a row.
#[tactic(auto, unfolding(crate::specs::Rows::row_begin))]
fn push_begin(text: &mut Vec<u8>, kind: &str, level: Level, count: u64) -> Result<(), AllocError>
    ensures { OnOk result (text.new.items ≡ text.old.items ++ row_begin kind.now level count) }
{
    text.extend_from_slice(kind.as_bytes())?;
    text.extend_from_slice(b"\t")?;
    text.extend_from_slice(level.as_str().as_bytes())?;
    text.extend_from_slice(b"\t")?;
    push_number(text, count)?;
    text.extend_from_slice(b"\t")
}

/// Appends the last fields of a row.
#[tactic(auto, unfolding(crate::specs::Rows::row_end))]
fn push_end(text: &mut Vec<u8>, of: u64, example: &[u8], what: &[u8]) -> Result<(), AllocError>
    ensures { OnOk result (text.new.items ≡ text.old.items ++ row_end of example.now what.now) }
{
    push_number(text, of)?;
    text.extend_from_slice(b"\t")?;
    text.extend_from_slice(example)?;
    text.extend_from_slice(b"\t")?;
    text.extend_from_slice(what)?;
    text.extend_from_slice(b"\n")
}

/// Appends a row. The only error is out of memory, after which the text may end within the row.
pub(crate) fn push_row(text: &mut Vec<u8>, row: Row<'_>) -> Result<(), AllocError>
    ensures { OnOk result (text.new.items ≡ text.old.items ++ row_text row.entry.kind.now
        row.entry.level row.entry.count row.entry.of row.entry.example.now row.entry.what.now) }
{
    push_begin(text, row.kind, row.level, row.count)?;
    push_end(text, row.of, row.example.as_bytes(), row.what.as_bytes())
}

/// Appends a row whose example, and what is counted, are bytes. The only error is out of memory,
/// after which the text may end within the row.
pub(crate) fn push_byte_row(
    text: &mut Vec<u8>,
    kind: &str,
    level: Level,
    count: u64,
    of: u64,
    example: &[u8],
    what: &[u8],
) -> Result<(), AllocError>
    ensures { OnOk result (text.new.items
        ≡ text.old.items ++ row_text kind.now level count of example.now what.now) }
{
    push_begin(text, kind, level, count)?;
    push_end(text, of, example, what)
}

/// Appends a number in plain digits, with a sign where it is negative.
fn push_signed(text: &mut Vec<u8>, number: i128) -> Result<(), AllocError>
    ensures { OnOk result (text.new.items ≡ text.old.items ++ signed_decimal number) }
{
    let mut digits = Buffer::new();
    text.extend_from_slice(digits.format(number).as_bytes())
}

/// Appends the first fields of a row whose count may be negative.
#[tactic(auto, unfolding(crate::specs::Rows::signed_begin))]
fn push_signed_begin(
    text: &mut Vec<u8>,
    kind: &str,
    level: Level,
    count: i128,
) -> Result<(), AllocError>
    ensures { OnOk result (text.new.items ≡ text.old.items ++ signed_begin kind.now level count) }
{
    text.extend_from_slice(kind.as_bytes())?;
    text.extend_from_slice(b"\t")?;
    text.extend_from_slice(level.as_str().as_bytes())?;
    text.extend_from_slice(b"\t")?;
    push_signed(text, count)?;
    text.extend_from_slice(b"\t")
}

/// Appends the last fields of a row whose count may be negative.
#[tactic(auto, unfolding(crate::specs::Rows::signed_end))]
fn push_signed_end(
    text: &mut Vec<u8>,
    of: i128,
    example: &str,
    what: &str,
) -> Result<(), AllocError>
    ensures { OnOk result (text.new.items ≡ text.old.items ++ signed_end of example.now what.now) }
{
    push_signed(text, of)?;
    text.extend_from_slice(b"\t")?;
    text.extend_from_slice(example.as_bytes())?;
    text.extend_from_slice(b"\t")?;
    text.extend_from_slice(what.as_bytes())?;
    text.extend_from_slice(b"\n")
}

/// Appends a row whose count and of how many may be negative. The only error is out of memory, after
/// which the text may end within the row.
pub(crate) fn push_signed_row(
    text: &mut Vec<u8>,
    kind: &str,
    level: Level,
    count: i128,
    of: i128,
    example: &str,
    what: &str,
) -> Result<(), AllocError>
    ensures { OnOk result (text.new.items ≡ text.old.items
        ++ signed_row_text kind.now level count of example.now what.now) }
{
    push_signed_begin(text, kind, level, count)?;
    push_signed_end(text, of, example, what)
}

/// Gives a byte of a file's name as it is printed.
fn show_byte(byte: u8) -> u8
    ensures { result ≡ shown_byte byte }
{
    if byte < 32 || byte == 127 { b'?' } else { byte }
}

/// Appends the name of a file, with a question mark for each control character.
pub(crate) fn push_shown(text: &mut Vec<u8>, name: &[u8]) -> Result<(), AllocError>
    ensures { OnOk result (text.new.items ≡ text.old.items ++ shown name.now) }
{
    for byte in name {
        text.push(show_byte(*byte))?;
    }
    Ok(())
}
