ghost use Rattle.std.specs.Prelude.{◌≡◌, ◌++◌, List, ℕ, encode_utf8, string_bytes, IfOk, OnOk};
ghost use Rattle.std.specs.List.{list_all};
ghost use Rattle.span_names.specs.Folding.{folded_from, folded_name, folded_word, is_between};
ghost use Rattle.span_names.specs.Folding.{is_hex_digit, is_id};

use crate::numbering::is_number;
use std::alloc::{AllocError, Global};
use trace_types::Text;

/// The least length of an id in base 16.
const LEAST_ID: usize = 8;

/// Tells whether a byte is a digit in base 16.
fn is_hex_digit(byte: u8) -> bool
    ensures { result ≡ is_hex_digit byte }
{
    byte.is_ascii_digit() || (b'a' <= byte && byte <= b'f') || (b'A' <= byte && byte <= b'F')
}

/// Tells whether a text is digits in base 16 alone.
fn are_hex_digits(text: &[u8]) -> bool
    ensures { result ≡ list_all is_hex_digit text.now }
{
    text.iter().all(|byte| is_hex_digit(*byte))
}

/// Tells whether a word names one of many alike.
fn is_id(word: &[u8]) -> bool
    ensures { result ≡ is_id word.now }
{
    is_number(word) || (LEAST_ID <= word.len() && are_hex_digits(word))
}

/// Appends a word, or what stands for it.
fn push_word(name: &mut String, word: &str) -> Result<(), AllocError>
    ensures { OnOk result (string_bytes name.new ≡ string_bytes name.old ++ folded_word word.now) }
{
    if is_id(word.as_bytes()) {
        return name.push_str("{}");
    }
    name.push_str(word)
}

/// Tells whether a character stands between words or segments of a path.
fn is_between(character: char) -> bool
    ensures { result ≡ is_between character }
{
    character == ' ' || character == '/'
}

/// Takes the next character of a name into the word, or ends the word with it.
fn take_character(name: &mut String, word: &mut String, character: char) -> Result<(), AllocError>
    ensures { OnOk result ((rest : List ℕ) →
        string_bytes name.new ++ folded_from (string_bytes word.new) rest
        ≡ string_bytes name.old
        ++ folded_from (string_bytes word.old) (encode_utf8 character ++ rest)) }
{
    if is_between(character) {
        push_word(name, word.as_str())?;
        name.push(character)?;
        word.clear();
        return Ok(());
    }
    word.push(character)?;
    Ok(())
}

/// Makes the text of a name in which each word and each segment of a path that is an id stands as
/// `{}`. The only error is out of memory.
fn fold_text(alloc: Global, name: &str) -> Result<String, AllocError>
    ensures { IfOk result (λ folded. string_bytes folded ≡ folded_name name.now) }
{
    let mut folded = String::new(alloc);
    let mut word = String::new(alloc);
    for character in name.chars() {
        take_character(&mut folded, &mut word, character)?;
    }
    push_word(&mut folded, word.as_str())?;
    Ok(folded)
}

/// Makes one name of those that differ in ids alone: a word or a segment of a path of digits, or of
/// eight and more digits in base 16, stands as `{}`. The only error is out of memory.
pub fn fold_name(alloc: Global, name: &str) -> Result<Text, AllocError>
    ensures { IfOk result (λ folded. folded ≡ folded_name name.now) }
{
    let folded = fold_text(alloc, name)?;
    Text::new(alloc, folded.as_str())
}
