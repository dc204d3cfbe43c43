ghost use Rattle.std.specs.Prelude.{◌≡◌, ◌<◌};
ghost use Rattle.std.specs.Char.{digit_char};
ghost use Rattle.mystery_run.specs.ReplayTexts.{hex_word};

use arrayvec::ArrayString;

/// Gives a hexadecimal digit, in lower case.
fn hex_digit(value: u64) -> u8
    requires { value < 16 }
    ensures digit { result ≡ digit_char value }
    ensures ascii { result < 128 }
{
    if value < 10 {
        b'0' + value as u8
    } else {
        b'a' + (value - 10) as u8
    }
}

/// Makes the 16 hexadecimal digits of a word of 64 bits.
pub(crate) fn hex_text(word: u64) -> ArrayString<16>
    ensures { result.bytes ≡ hex_word word }
{
    let mut text = ArrayString::new();
    for place in 0..16u32 {
        text.push(char::from(hex_digit((word >> (60 - 4 * place)) % 16)));
    }
    text
}
