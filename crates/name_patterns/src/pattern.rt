ghost use Rattle.std.specs.Prelude.{◌≡◌, ◌+◌, ◌++◌, ◌<◌, ◌≤◌, ◌&&◌, ◌||◌, OnOk, drop, false, length};
ghost use Rattle.std.specs.Prelude.{nat_le, slice_index_or, true};
ghost use Rattle.std.specs.List.{prefix_len};
ghost use Rattle.name_patterns.specs.Patterns.{pattern_of, varies};
ghost use Rattle.name_patterns.specs.inner.Bytes.{AreBefore, after_byte, byte_or_hole, is_of_row};

use std::alloc::AllocError;

/// The fewest hex digits in a row that are an id.
const HEX_ROW: usize = 8;

/// The fewest hex digits and hyphens in a row that are one: a UUID has so many.
const UUID_ROW: usize = 36;

/// What stands before a byte of a text.
#[derive(Clone, Copy, Debug)]
struct Before {
    /// How many hex digits stand right before it.
    hex: usize,
    /// How many hex digits and hyphens stand right before it.
    uuid: usize,
    /// Whether there is an `@` before it.
    sign: bool,
    /// Whether the byte right before it varies.
    varies: bool,
}

/// Tells whether a byte stands in a row of hex digits, or of hex digits and hyphens.
fn is_of_row(byte: u8, hyphens: bool) -> bool
    ensures { result ≡ is_of_row hyphens byte }
{
    byte.is_ascii_hexdigit() || (hyphens && byte == b'-')
}

/// Counts the bytes of such a row from an index on.
fn row_from(bytes: &[u8], at: usize, hyphens: bool) -> usize
    requires { at ≤ length bytes.now }
    ensures count { result ≡ prefix_len (is_of_row hyphens) (drop at bytes.now) }
    ensures short { at + result ≤ length bytes.now }
{
    let mut end = at;
    'row: while end < bytes.len() && is_of_row(bytes[end], hyphens) {
        end += 1;
    }
    end - at
}

/// Tells whether the byte at an index is one of so many or more in such a row, by how many stand
/// right before it.
fn is_in_row(bytes: &[u8], at: usize, hyphens: bool, before: usize, fewest: usize) -> bool
    requires at { at < length bytes.now }
    requires before { before ≤ at }
    ensures { result ≡ (is_of_row hyphens (slice_index_or bytes.now at 0)
        && nat_le fewest (before + prefix_len (is_of_row hyphens) (drop at bytes.now))) }
{
    let count = before + row_from(bytes, at, hyphens);
    is_of_row(bytes[at], hyphens) && fewest <= count
}

/// Tells whether one of four holds.
fn is_any(first: bool, second: bool, third: bool, fourth: bool) -> bool
    ensures { result ≡ (first || (second || (third || fourth))) }
{
    first || second || third || fourth
}

/// Tells whether the byte at an index varies.
fn varies_at(bytes: &[u8], at: usize, before: Before) -> bool
    requires at { at < length bytes.now }
    requires before { AreBefore bytes.now at before }
    requires short { before.hex ≤ at }
    requires few { before.uuid ≤ at }
    ensures { result ≡ varies bytes.now at }
{
    let digit = bytes[at].is_ascii_digit();
    let hex = is_in_row(bytes, at, false, before.hex, HEX_ROW);
    let uuid = is_in_row(bytes, at, true, before.uuid, UUID_ROW);
    is_any(before.sign, digit, hex, uuid)
}

/// Gives what stands before the next byte, by what stands before this one.
fn after_byte(before: Before, byte: u8, varies: bool) -> Before
    requires hex { before.hex < usize.MAX }
    requires uuid { before.uuid < usize.MAX }
    ensures { result ≡ after_byte before byte varies }
{
    Before {
        hex: if byte.is_ascii_hexdigit() {
            before.hex + 1
        } else {
            0
        },
        uuid: if is_of_row(byte, true) {
            before.uuid + 1
        } else {
            0
        },
        sign: before.sign || byte == b'@',
        varies,
    }
}

/// Appends a byte, or for one that varies a placeholder, unless the one before it varies too.
fn push_byte(
    text: &mut Vec<u8>,
    byte: u8,
    varies: bool,
    varied_before: bool,
) -> Result<(), AllocError>
    ensures { OnOk result (text.new.items
        ≡ text.old.items ++ byte_or_hole byte varies varied_before) }
{
    if !varies {
        text.push(byte)?;
    } else if !varied_before {
        text.extend_from_slice(b"{}")?;
    }
    Ok(())
}

/// Appends the pattern of a text: each run of decimal digits, each of eight or more hex digits, each
/// of 36 or more hex digits and hyphens, and what follows the first `@` is `{}`, and runs that touch
/// are one. Takes time for each byte by the runs that it stands in. The only error is out of memory.
pub fn push_pattern(text: &mut Vec<u8>, bytes: &[u8]) -> Result<(), AllocError>
    ensures { OnOk result (text.new.items ≡ text.old.items ++ pattern_of bytes.now) }
{
    let mut before = Before {
        hex: 0,
        uuid: 0,
        sign: false,
        varies: false,
    };
    'bytes: for at in 0..bytes.len() {
        let varies = varies_at(bytes, at, before);
        push_byte(text, bytes[at], varies, before.varies)?;
        before = after_byte(before, bytes[at], varies);
    }
    Ok(())
}
