ghost use Rattle.std.specs.Prelude.{◌≡◌, ◌<◌, ◌/◌, ◌%◌, ◌++◌, ◌∷◌, [], string_bytes, IfOk, OnOk};
ghost use Rattle.span_names.specs.Names.{escaped, hex_digit, is_escaped};
ghost use Rattle.span_names.specs.inner.Characters.{escaped_char};

use std::alloc::{AllocError, Global};

/// Gives a digit in base 16, in upper case.
fn hex_digit(number: u8) -> char
    requires { number < 16 }
    ensures { result ≡ hex_digit number }
{
    if number < 10 {
        char::from(48 + number)
    } else {
        char::from(55 + number)
    }
}

/// Tells whether a byte does not stand as it is.
fn is_escaped(byte: u8) -> bool
    ensures { result ≡ is_escaped byte }
{
    byte == b'%' || byte == b'@' || byte < 32 || byte == 127
}

/// Appends a per cent sign and the digits of a byte.
fn push_digits(name: &mut String, byte: u8) -> Result<(), AllocError>
    requires { byte < 128 }
    ensures { OnOk result (string_bytes name.new
        ≡ string_bytes name.old ++ 37 ∷ hex_digit (byte / 16) ∷ hex_digit (byte % 16) ∷ []) }
{
    name.push('%')?;
    name.push(hex_digit(byte / 16))?;
    name.push(hex_digit(byte % 16))
}

/// Appends a character, or what stands for it.
fn push_escaped(name: &mut String, character: char) -> Result<(), AllocError>
    ensures { OnOk result (string_bytes name.new
        ≡ string_bytes name.old ++ escaped_char character) }
{
    if character.is_ascii() && is_escaped(character as u8) {
        return push_digits(name, character as u8);
    }
    name.push(character)
}

/// Makes the text that stands for a text. The only error is out of memory.
pub(crate) fn escape(alloc: Global, text: &str) -> Result<String, AllocError>
    ensures { IfOk result (λ name. string_bytes name ≡ escaped text.now) }
{
    let mut name = String::new(alloc);
    for character in text.chars() {
        push_escaped(&mut name, character)?;
    }
    Ok(name)
}
