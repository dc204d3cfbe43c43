ghost use Rattle.std.specs.Prelude.{◌≡◌, ◌≤◌, ◌++◌, decimal, OnOk};
ghost use Rattle.markup.specs.Units.{place_text};

use itoa::Buffer;
use std::alloc::AllocError;

/// Appends fixed text.
pub fn push_fixed(bytes: &mut Vec<u8>, text: &str) -> Result<(), AllocError>
    ensures { OnOk result (bytes.new.items ≡ bytes.old.items ++ text.now) }
{
    bytes.extend_from_slice(text.as_bytes())
}

/// Appends a number in plain digits.
pub(crate) fn push_number(bytes: &mut Vec<u8>, number: u128) -> Result<(), AllocError>
    ensures { OnOk result (bytes.new.items ≡ bytes.old.items ++ decimal number) }
{
    let mut digits = Buffer::new();
    bytes.extend_from_slice(digits.format(number).as_bytes())
}

/// Appends a digit.
fn push_digit(bytes: &mut Vec<u8>, digit: u32) -> Result<(), AllocError>
    ensures { OnOk result (bytes.new.items ≡ bytes.old.items ++ decimal digit) }
{
    push_number(bytes, u128::from(digit))
}

/// Appends a place from 0 to 100,000 of the width of a picture, in percent.
#[tactic(auto, unfolding(crate::specs::Units::place_text))]
pub(crate) fn push_place(bytes: &mut Vec<u8>, place: u32) -> Result<(), AllocError>
    ensures { OnOk result (bytes.new.items ≡ bytes.old.items ++ place_text place) }
{
    push_digit(bytes, place / 1000)?;
    push_fixed(bytes, ".")?;
    push_digit(bytes, place / 100 % 10)?;
    push_digit(bytes, place / 10 % 10)?;
    push_digit(bytes, place % 10)?;
    push_fixed(bytes, "%")
}
