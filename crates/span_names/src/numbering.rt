ghost use Rattle.std.specs.Prelude.{◌≡◌, ◌<◌, ◌+◌, ◌&&◌, ◌++◌, decimal, drop, length, slice_index};
ghost use Rattle.std.specs.Prelude.{string_bytes, IfOk, OnOk};
ghost use Rattle.task_pieces.specs.PieceNames.{is_number_sign};
ghost use Rattle.span_names.specs.Names.{are_parts_at, gap_text, is_number, is_numbering, is_piece};
ghost use Rattle.span_names.specs.Names.{place_of};
ghost use Rattle.span_names.specs.Names.{looks_numbered, numbered, piece_text, stands_alone};
ghost use Rattle.std.specs.Char.{is_ascii_digit};
ghost use Rattle.std.specs.List.{list_all};

use crate::Piece;
use itoa::Buffer;
use std::alloc::{AllocError, Global};
use trace_types::Text;

/// Tells whether a text is digits alone.
fn are_digits(text: &[u8]) -> bool
    ensures { result ≡ list_all is_ascii_digit text.now }
{
    text.iter().all(|byte| byte.is_ascii_digit())
}

/// Tells whether a text is one digit at least, and nothing else.
pub(crate) fn is_number(text: &[u8]) -> bool
    ensures { result ≡ is_number text.now }
{
    !text.is_empty() && are_digits(text)
}

/// Finds where a byte first stands in a text; behind all of it where it does not.
fn find_byte(text: &[u8], byte: u8) -> usize
    ensures { result ≡ place_of byte text.now }
{
    for at in 0..text.len() {
        if text[at] == byte {
            return at;
        }
    }
    text.len()
}

/// Tells whether a text is two numbers with this place between them.
fn is_pair_at(text: &[u8], at: usize) -> bool
    ensures { result ≡ are_parts_at at is_number is_number text.now }
{
    if at >= text.len() {
        return false;
    }
    is_number(&text[..at]) && is_number(&text[at + 1..])
}

/// Tells whether a text is a number, or two with a point between them.
fn is_piece(text: &[u8]) -> bool
    ensures { result ≡ is_piece text.now }
{
    is_number(text) || is_pair_at(text, find_byte(text, b'.'))
}

/// Tells whether a text is a number and a piece with this place between them.
fn is_piece_at(text: &[u8], at: usize) -> bool
    ensures { result ≡ are_parts_at at is_number is_piece text.now }
{
    if at >= text.len() {
        return false;
    }
    is_number(&text[..at]) && is_piece(&text[at + 1..])
}

/// Tells whether a text is what follows the number sign in a numbered name.
fn is_numbering(text: &[u8]) -> bool
    ensures { result ≡ is_numbering text.now }
{
    is_number(text) || is_piece_at(text, find_byte(text, b'/'))
}

/// Tells whether there is a number sign at this place of a text, and a numbering behind it.
fn is_numbered_at(text: &[u8], at: usize) -> bool
    requires { at < length text.now }
    ensures { result
        ≡ (is_number_sign (slice_index text.now at) && is_numbering (drop (at + 1) text.now)) }
{
    text[at] == b'#' && is_numbering(&text[at + 1..])
}

/// Tells whether a text ends as a numbered name does.
fn looks_numbered(text: &[u8]) -> bool
    ensures { result ≡ looks_numbered text.now }
{
    for at in 0..text.len() {
        if is_numbered_at(text, at) {
            return true;
        }
    }
    false
}

/// Appends a text and a number in plain digits.
fn push_number(name: &mut String, before: &str, number: u64) -> Result<(), AllocError>
    ensures { OnOk result (string_bytes name.new
        ≡ string_bytes name.old ++ before.now ++ decimal number) }
{
    let mut digits = Buffer::new();
    name.push_str(before)?;
    name.push_str(digits.format(number))
}

/// Appends the number of a gap, behind a point.
fn push_gap(name: &mut String, gap: Option<u64>) -> Result<(), AllocError>
    ensures { OnOk result (string_bytes name.new ≡ string_bytes name.old ++ gap_text gap) }
{
    match gap {
        Some(gap) => push_number(name, ".", gap),
        None => Ok(()),
    }
}

/// Appends a piece, behind a slash.
fn push_piece(name: &mut String, piece: Option<Piece>) -> Result<(), AllocError>
    ensures { OnOk result (string_bytes name.new ≡ string_bytes name.old ++ piece_text piece) }
{
    match piece {
        Some(piece) => {
            push_number(name, "/", piece.number)?;
            push_gap(name, piece.gap)
        }
        None => Ok(()),
    }
}

/// Tells whether a name is its base alone.
fn stands_alone(base: &str, number: u64, piece: Option<Piece>) -> bool
    ensures { result ≡ stands_alone base.now number piece }
{
    match piece {
        Some(_) => false,
        None => number == 1 && !looks_numbered(base.as_bytes()),
    }
}

/// Makes the name with a base, its number among those with the same base, from 1, and a piece. The
/// only error is out of memory.
pub fn numbered_name(
    alloc: Global,
    base: &str,
    number: u64,
    piece: Option<Piece>,
) -> Result<Text, AllocError>
    ensures { IfOk result (λ name. name ≡ numbered base.now number piece) }
{
    if stands_alone(base, number, piece) {
        return Text::new(alloc, base);
    }
    let mut name = String::from_str(alloc, base)?;
    push_number(&mut name, "#", number)?;
    push_piece(&mut name, piece)?;
    Text::new(alloc, name.as_str())
}
