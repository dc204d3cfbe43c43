ghost use Rattle.std.specs.Prelude.{◌≡◌, ◌+◌, ◌≤◌, length, drop, get_or, map};
ghost use Rattle.std.specs.Prelude.{Some, IfSome};
ghost use Rattle.std.specs.Char.{is_ascii_digit};
ghost use Rattle.std.specs.List.{prefix_len};
ghost use Rattle.std.specs.Simd.Lanes.{mask_l};
ghost use Rattle.json.specs.Lex.{lex, between};
ghost use Rattle.serde_json.specs.Data.{Members, object};
ghost use Rattle.serde_json.specs.Read.{read};
ghost use Rattle.event_lines.specs.inner.FlatObjects.{AreMembers, IsEventLine};
ghost use Rattle.event_lines.specs.inner.PlainObjects.{AddsMember, AreGood, HasGoodTexts};
ghost use Rattle.event_lines.specs.inner.PlainObjects.{IsKey, IsObject};
ghost use Rattle.event_lines.specs.inner.PlainObjects.{IsQuoted};
ghost use Rattle.event_lines.specs.inner.PlainObjects.{IsValue, IsWhole, is_clear, is_stop};

use crate::blank_lines::is_blank_byte;
use crate::flat_lines::{FlatMembers, whole_number};
use crate::text_rules::LONGEST;
use event_table::EventFields;
use simdutf8::basic::from_utf8;
use std::simd::prelude::*;

/// Gives the byte at an index, or a space past the end.
fn byte_at(text: &[u8], at: usize) -> u8
    ensures { result ≡ get_or text.now at 32 }
{
    if at < text.len() { text[at] } else { b' ' }
}

/// Tells which bytes of a vector are stops, a bit for each.
fn find_stops(bytes: u8x16) -> u64
    ensures { result ≡ mask_l (map is_stop bytes) }
{
    (bytes.simd_eq(u8x16::splat(b'"'))
        | bytes.simd_eq(u8x16::splat(b'\\'))
        | (bytes.simd_lt(u8x16::splat(0x20)) | bytes.simd_eq(u8x16::splat(0x7f)))).to_bitmask()
}

/// Finds the first stop from an index on, byte by byte.
fn find_clear_end_slowly(text: &[u8], from: usize) -> usize
    requires { from ≤ length text.now }
    ensures { result ≡ from + prefix_len is_clear (drop from text.now) }
{
    let mut at = from;
    while at < text.len()
        && text[at] != b'"'
        && text[at] != b'\\'
        && text[at] >= 0x20
        && text[at] != 0x7f
    {
        at += 1;
    }
    at
}

/// Finds the first quote, backslash or control character from an index on, or the length.
fn find_clear_end(text: &[u8], from: usize) -> usize
    requires { from ≤ length text.now }
    ensures value { result ≡ from + prefix_len is_clear (drop from text.now) }
    ensures bound { result ≤ length text.now }
{
    let mut at = from;
    while text.len() - at >= 16 {
        let found = find_stops(u8x16::from_slice(&text[at..]));
        if found != 0 {
            return at + found.trailing_zeros() as usize;
        }
        at += 16;
    }
    find_clear_end_slowly(text, at)
}

/// Finds the first byte from an index on that is no digit, or the length.
fn find_digits_end(text: &[u8], from: usize) -> usize
    requires { from ≤ length text.now }
    ensures value { result ≡ from + prefix_len is_ascii_digit (drop from text.now) }
    ensures bound { result ≤ length text.now }
{
    let mut at = from;
    while at < text.len() && text[at].is_ascii_digit() {
        at += 1;
    }
    at
}

/// Passes over spaces, tabs and carriage returns.
fn skip_blanks(text: &[u8], from: usize) -> usize
    requires { from ≤ length text.now }
    ensures same { lex between (drop result text.now) ≡ lex between (drop from text.now) }
    ensures rising { from ≤ result }
    ensures within { result ≤ length text.now }
{
    let mut at = from;
    while at < text.len() && is_blank_byte(text[at]) {
        at += 1;
    }
    at
}

/// Reads a text in quotes that has no escape, and gives it with the index after it.
fn read_quoted<'a>(text: &'a str, at: usize) -> Option<(&'a str, usize)>
    ensures { IfSome result (λ r. IsQuoted text.now at r.0.now r.1) }
{
    let bytes = text.as_bytes();
    if byte_at(bytes, at) != b'"' {
        return None;
    }
    let end = find_clear_end(bytes, at + 1);
    if byte_at(bytes, end) != b'"' {
        return None;
    }
    Some((&text[at + 1..end], end + 1))
}

/// Reads a whole number that is not 0, and gives it with the index after it.
fn read_whole(text: &[u8], at: usize) -> Option<(u64, usize)>
    requires { at ≤ length text.now }
    ensures { IfSome result (λ r. IsWhole text.now at r.0 r.1) }
{
    let end = find_digits_end(text, at);
    if at == end || text[at] == b'0' {
        return None;
    }
    let number = whole_number(&text[at..end])?;
    Some((number, end))
}

/// Reads a key and its colon, and gives the key with the index of its value.
fn read_key<'a>(text: &'a str, at: usize) -> Option<(&'a str, usize)>
    ensures { IfSome result (λ r. IsKey text.now at r.0.now r.1) }
{
    let (key, end) = read_quoted(text, at)?;
    if byte_at(text.as_bytes(), end) != b':' {
        return None;
    }
    Some((key, skip_blanks(text.as_bytes(), end + 1)))
}

/// Reads a member and adds it to those that were found; gives the index after it.
fn read_member<'a>(text: &'a str, at: usize, found: &mut FlatMembers<'a>) -> Option<usize>
    ensures { IfSome result (AddsMember text.now at found.old found.new) }
{
    let (key, start) = read_key(text, at)?;
    if byte_at(text.as_bytes(), start) == b'"' {
        let (value, next) = read_quoted(text, start)?;
        if value.is_empty() || value.len() > LONGEST || !found.put_text(key, value) {
            return None;
        }
        return Some(next);
    }
    let (value, next) = read_whole(text.as_bytes(), start)?;
    if !found.put_number(key, value) {
        return None;
    }
    Some(next)
}

/// Reads the members of an object after its opening brace, up to the end of the text.
fn read_members<'a>(text: &'a str, start: usize) -> Option<FlatMembers<'a>>
    requires { start ≤ length text.now }
    ensures { IfSome result (IsObject text.now start) }
{
    let mut found = FlatMembers::new();
    let mut at = start;
    'members: loop {
        let next = read_member(text, at, &mut found)?;
        let end = byte_at(text.as_bytes(), next);
        if end == b',' {
            at = skip_blanks(text.as_bytes(), next + 1);
        } else if end == b'}' && skip_blanks(text.as_bytes(), next + 1) == text.len() {
            return Some(found);
        } else {
            return None;
        }
    }
}

/// Reads a text that is one flat object whose texts are good and have no escapes, byte by byte;
/// none where this way does not read it, which says nothing of the text.
pub(crate) fn plain_members<'a>(text: &'a str) -> Option<FlatMembers<'a>>
    ensures good { IfSome result AreGood }
    ensures members { IfSome result (λ f. (ms : Members) × AreMembers f ms
        × (read text.now ≡ Some (object ms))) }
{
    if byte_at(text.as_bytes(), 0) != b'{' {
        return None;
    }
    let start = skip_blanks(text.as_bytes(), 1);
    read_members(text, start)
}

/// Reads the fields of an event line that is one flat object whose texts are good and have no
/// escapes, byte by byte; none where this way does not read it, which says nothing of the line.
pub(crate) fn plain_fields(line: &[u8]) -> Option<EventFields<'_>>
    ensures line { IfSome result (IsEventLine line.now) }
    ensures good { IfSome result HasGoodTexts }
{
    let Ok(text) = from_utf8(line) else {
        return None;
    };
    let Some(found) = plain_members(text) else {
        return None;
    };
    found.fields()
}
