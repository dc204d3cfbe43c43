ghost use Rattle.std.specs.Prelude.{◌≡◌, ◌<◌, ◌++◌, ◌∷◌, [], OnOk, encode_utf8, encode_utf8_all};
ghost use Rattle.std.specs.Prelude.{if◌then◌else◌};
ghost use Rattle.std.specs.Int.{is_in_range};
ghost use Rattle.markup.specs.Escapes.{bracketed, escaped, escaped_sign, four_digits, hex_digit};
ghost use Rattle.markup.specs.Escapes.{is_hidden, is_hidden_mark, is_hidden_script};
ghost use Rattle.markup.specs.Escapes.{is_hidden_short};

use std::alloc::AllocError;

/// Tells whether a sign is one from `first` to `last`.
fn is_within(first: u32, last: u32, sign: u32) -> bool
    ensures { result ≡ is_in_range first last sign }
{
    first <= sign && sign <= last
}

/// Tells whether a short sign is not seen, turns the direction or looks like a space.
fn is_hidden_short(sign: u32) -> bool
    ensures { result ≡ is_hidden_short sign }
{
    is_within(0, 0x1F, sign)
        || is_within(0x7F, 0xA0, sign)
        || sign == 0xAD
        || sign == 0x34F
        || sign == 0x61C
}

/// Tells whether a sign is such a one of a script.
fn is_hidden_script(sign: u32) -> bool
    ensures { result ≡ is_hidden_script sign }
{
    is_within(0x115F, 0x1160, sign)
        || sign == 0x1680
        || is_within(0x17B4, 0x17B5, sign)
        || is_within(0x180B, 0x180F, sign)
        || sign == 0x2800
        || sign == 0x3000
        || sign == 0x3164
        || sign == 0xFFA0
}

/// Tells whether a sign is such a one of all scripts.
fn is_hidden_mark(sign: u32) -> bool
    ensures { result ≡ is_hidden_mark sign }
{
    is_within(0x2000, 0x200F, sign)
        || is_within(0x2028, 0x202F, sign)
        || is_within(0x205F, 0x206F, sign)
        || sign == 0x27E8
        || is_within(0xFE00, 0xFE0F, sign)
        || sign == 0xFEFF
        || is_within(0xFFF0, 0xFFFB, sign)
        || is_within(0x1BCA0, 0x1BCA3, sign)
        || is_within(0x1D173, 0x1D17A, sign)
        || is_within(0xE0000, 0xE0FFF, sign)
}

/// Tells whether a sign does not stand as it is, although it is no markup.
fn is_hidden(sign: u32) -> bool
    ensures { result ≡ is_hidden sign }
{
    is_hidden_short(sign) || is_hidden_script(sign) || is_hidden_mark(sign)
}

/// Appends a sign as it is.
fn push_plain(bytes: &mut Vec<u8>, sign: char) -> Result<(), AllocError>
    ensures { OnOk result (bytes.new.items ≡ bytes.old.items ++ encode_utf8 sign) }
{
    let mut buffer = [0; 4];
    let encoded = sign.encode_utf8(&mut buffer);
    bytes.extend_from_slice(encoded.as_bytes())
}

/// Gives a digit in base 16, in upper case.
fn hex_digit(number: u32) -> char
    requires { number < 32 }
    ensures { result ≡ hex_digit number }
{
    let number = number as u8;
    if number < 10 {
        char::from(48 + number)
    } else {
        char::from(55 + number)
    }
}

/// Appends four digits in base 16.
fn push_four_digits(bytes: &mut Vec<u8>, number: u32) -> Result<(), AllocError>
    ensures { OnOk result
        (bytes.new.items ≡ bytes.old.items ++ encode_utf8_all (four_digits number)) }
{
    push_plain(bytes, hex_digit(number / 4096 % 16))?;
    push_plain(bytes, hex_digit(number / 256 % 16))?;
    push_plain(bytes, hex_digit(number / 16 % 16))?;
    push_plain(bytes, hex_digit(number % 16))
}

/// Appends a number in base 16 between brackets.
fn push_bracketed(bytes: &mut Vec<u8>, number: u32) -> Result<(), AllocError>
    requires { number < 0x110000 }
    ensures { OnOk result
        (bytes.new.items ≡ bytes.old.items ++ encode_utf8_all (bracketed number)) }
{
    push_plain(bytes, '⟨')?;
    if number >= 65536 {
        push_plain(bytes, hex_digit(number / 65536))?;
    }
    push_four_digits(bytes, number)?;
    push_plain(bytes, '⟩')
}

/// Appends a sign of a name that is no markup: a hidden one by its number.
fn push_shown(bytes: &mut Vec<u8>, sign: char) -> Result<(), AllocError>
    ensures { OnOk result (bytes.new.items ≡ bytes.old.items
        ++ encode_utf8_all (if is_hidden sign then bracketed sign else sign ∷ [])) }
{
    if is_hidden(sign as u32) {
        return push_bracketed(bytes, sign as u32);
    }
    push_plain(bytes, sign)
}

/// Appends a sign of a name: one of five as a reference, a hidden one by its number.
fn push_sign(bytes: &mut Vec<u8>, sign: char) -> Result<(), AllocError>
    ensures { OnOk result
        (bytes.new.items ≡ bytes.old.items ++ encode_utf8_all (escaped_sign sign)) }
{
    match sign {
        '"' => bytes.extend_from_slice(b"&#34;"),
        '&' => bytes.extend_from_slice(b"&#38;"),
        '\'' => bytes.extend_from_slice(b"&#39;"),
        '<' => bytes.extend_from_slice(b"&#60;"),
        '>' => bytes.extend_from_slice(b"&#62;"),
        _ => push_shown(bytes, sign),
    }
}

/// Appends a name as it stands in markup, as text and as an attribute in quotes.
pub(crate) fn push_name(bytes: &mut Vec<u8>, name: &str) -> Result<(), AllocError>
    ensures { OnOk result (bytes.new.items ≡ bytes.old.items ++ escaped name.now) }
{
    for sign in name.chars() {
        push_sign(bytes, sign)?;
    }
    Ok(())
}
