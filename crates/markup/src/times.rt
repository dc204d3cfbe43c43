ghost use Rattle.std.specs.Prelude.{◌≡◌, ◌<◌, ◌≤◌, ◌^◌, ◌++◌, decimal, OnOk};
ghost use Rattle.markup.specs.Units.{hundredths_text, in_unit, long_text, rest_text, rounded};
ghost use Rattle.markup.specs.Units.{share_text, short_text, tenths_text, time_text};

use crate::{push_fixed, push_number};
use std::alloc::AllocError;

/// Tells how many steps of so many parts a number of parts is, rounded.
fn rounded(parts: u128, step: u128) -> u128
    requires some { 0 < step }
    requires parts { parts < 2 ^ 110 }
    requires small { step < 2 ^ 110 }
    ensures { result ≡ rounded parts step }
{
    (2 * parts + step) / (2 * step)
}

/// Appends a number of hundredths.
fn push_hundredths(bytes: &mut Vec<u8>, number: u128) -> Result<(), AllocError>
    ensures { OnOk result (bytes.new.items ≡ bytes.old.items ++ hundredths_text number) }
{
    push_number(bytes, number / 100)?;
    if number % 100 == 0 {
        return Ok(());
    }
    push_fixed(bytes, ".")?;
    push_number(bytes, number / 10 % 10)?;
    if number % 10 == 0 {
        return Ok(());
    }
    push_number(bytes, number % 10)
}

/// Appends a number of tenths.
fn push_tenths(bytes: &mut Vec<u8>, number: u128) -> Result<(), AllocError>
    ensures { OnOk result (bytes.new.items ≡ bytes.old.items ++ tenths_text number) }
{
    push_number(bytes, number / 10)?;
    if number % 10 == 0 {
        return Ok(());
    }
    push_fixed(bytes, ".")?;
    push_number(bytes, number % 10)
}

/// Appends nanoseconds in a unit of so many.
#[tactic(auto, unfolding(crate::specs::Units::in_unit))]
fn push_in_unit(bytes: &mut Vec<u8>, nanos: u128, unit: u128) -> Result<(), AllocError>
    requires nanos { nanos < 2 ^ 100 }
    requires some { 0 < unit }
    requires small { unit < 2 ^ 100 }
    ensures { OnOk result (bytes.new.items ≡ bytes.old.items ++ in_unit nanos unit) }
{
    let hundredths = rounded(100 * nanos, unit);
    if hundredths < 1000 {
        return push_hundredths(bytes, hundredths);
    }
    let tenths = rounded(10 * nanos, unit);
    if tenths < 1000 {
        return push_tenths(bytes, tenths);
    }
    push_number(bytes, rounded(nanos, unit))
}

/// Appends a number of a smaller unit behind one of a greater unit, unless it is 0.
fn push_rest(bytes: &mut Vec<u8>, number: u128, unit: &str) -> Result<(), AllocError>
    ensures { OnOk result (bytes.new.items ≡ bytes.old.items ++ rest_text number unit.now) }
{
    if number == 0 {
        return Ok(());
    }
    push_fixed(bytes, " ")?;
    push_number(bytes, number)?;
    push_fixed(bytes, unit)
}

/// Appends a number of seconds, a minute or more.
#[tactic(auto, unfolding(crate::specs::Units::long_text))]
fn push_long(bytes: &mut Vec<u8>, seconds: u128) -> Result<(), AllocError>
    ensures { OnOk result (bytes.new.items ≡ bytes.old.items ++ long_text seconds) }
{
    if seconds < 3600 {
        push_number(bytes, seconds / 60)?;
        push_fixed(bytes, " min")?;
        return push_rest(bytes, seconds % 60, " s");
    }
    if seconds < 172_800 {
        push_number(bytes, seconds / 3600)?;
        push_fixed(bytes, " h")?;
        return push_rest(bytes, seconds / 60 % 60, " min");
    }
    push_number(bytes, seconds / 86_400)?;
    push_fixed(bytes, " days")
}

/// Appends a time of less than a minute.
fn push_short(bytes: &mut Vec<u8>, nanos: u128) -> Result<(), AllocError>
    requires { nanos < 60000000000 }
    ensures { OnOk result (bytes.new.items ≡ bytes.old.items ++ short_text nanos) }
{
    if nanos < 1000 {
        push_number(bytes, nanos)?;
        return push_fixed(bytes, " ns");
    }
    if nanos < 999_500 {
        push_in_unit(bytes, nanos, 1000)?;
        return push_fixed(bytes, " µs");
    }
    if nanos < 999_500_000 {
        push_in_unit(bytes, nanos, 1_000_000)?;
        return push_fixed(bytes, " ms");
    }
    push_in_unit(bytes, nanos, 1_000_000_000)?;
    push_fixed(bytes, " s")
}

/// Appends a time in nanoseconds.
#[tactic(auto, unfolding(crate::specs::Units::time_text))]
pub(crate) fn push_time(bytes: &mut Vec<u8>, nanos: u128) -> Result<(), AllocError>
    ensures { OnOk result (bytes.new.items ≡ bytes.old.items ++ time_text nanos) }
{
    if nanos < 60_000_000_000 {
        return push_short(bytes, nanos);
    }
    push_long(bytes, nanos / 1_000_000_000)
}

/// Appends a part of a whole in percent.
#[tactic(auto, unfolding(crate::specs::Units::share_text))]
pub(crate) fn push_share(bytes: &mut Vec<u8>, part: u128, whole: u128) -> Result<(), AllocError>
    requires part { part < 2 ^ 100 }
    requires whole { whole < 2 ^ 110 }
    ensures { OnOk result (bytes.new.items ≡ bytes.old.items ++ share_text part whole) }
{
    if whole == 0 {
        return push_fixed(bytes, "0 %");
    }
    let tenths = rounded(1000 * part, whole);
    if part > 0 && tenths == 0 {
        return push_fixed(bytes, "&lt;0.1 %");
    }
    push_number(bytes, tenths / 10)?;
    push_fixed(bytes, ".")?;
    push_number(bytes, tenths % 10)?;
    push_fixed(bytes, " %")
}
