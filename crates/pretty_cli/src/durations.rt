ghost use Rattle.std.specs.Prelude.{◌≡◌, ◌≤◌, ◌<◌, ◌^◌, ◌++◌, IfOk, OnOk, string_bytes};
ghost use Rattle.pretty_cli.specs.Durations.{apart, difference_text, duration_text, in_unit, rounded};
ghost use Rattle.pretty_cli.specs.Durations.{share_text, sign_of, unit_of, with_hundredths, with_tenths};

use std::alloc::{AllocError, Global};

/// Rounds a number to a multiple of the step, in steps; a half counts up.
fn rounded(number: u128, step: u64) -> u128
    requires some { 0 < step }
    requires small { number < 2 ^ 100 }
    ensures { result ≡ rounded number step }
{
    let step = u128::from(step);
    (number + step / 2) / step
}

/// Chooses the unit of a duration of a microsecond or more: its length in nanoseconds and its name.
fn unit_of(nanos: u64) -> (u64, &'static str)
    ensures length { result.0 ≡ (unit_of nanos).0 }
    ensures name { result.1.now ≡ (unit_of nanos).1 }
    ensures long { 1000 ≤ result.0 }
{
    match nanos {
        0..1_000_000 => (1_000, "µs"),
        1_000_000..1_000_000_000 => (1_000_000, "ms"),
        1_000_000_000..600_000_000_000 => (1_000_000_000, "s"),
        600_000_000_000..36_000_000_000_000 => (60_000_000_000, "min"),
        36_000_000_000_000..864_000_000_000_000 => (3_600_000_000_000, "h"),
        _ => (86_400_000_000_000, "d"),
    }
}

/// Writes a number of tenths.
fn with_tenths(alloc: Global, tenths: u128) -> Result<String, AllocError>
    ensures { IfOk result (λ text. string_bytes text ≡ with_tenths tenths) }
{
    format!(in alloc; "{}.{}", tenths / 10, tenths % 10)
}

/// Writes a number of hundredths.
fn with_hundredths(alloc: Global, hundredths: u128) -> Result<String, AllocError>
    ensures { IfOk result (λ text. string_bytes text ≡ with_hundredths hundredths) }
{
    format!(in alloc;
        "{}.{}{}",
        hundredths / 100,
        hundredths / 10 % 10,
        hundredths % 10
    )
}

/// Writes a number of nanoseconds in a unit of so many, rounded to three digits or a whole number.
fn in_unit(alloc: Global, nanos: u64, unit: u64) -> Result<String, AllocError>
    requires { 1000 ≤ unit }
    ensures { IfOk result (λ text. string_bytes text ≡ in_unit nanos unit) }
{
    let whole = nanos / unit;
    let nanos = u128::from(nanos);
    if whole >= 100 {
        let rounded = rounded(nanos, unit);
        return format!(in alloc; "{rounded}");
    }
    if whole >= 10 {
        return with_tenths(alloc, rounded(nanos, unit / 10));
    }
    with_hundredths(alloc, rounded(nanos, unit / 100))
}

/// Writes a duration in nanoseconds in the unit that suits it.
pub(crate) fn duration_text(alloc: Global, nanos: u64) -> Result<String, AllocError>
    ensures { IfOk result (λ text. string_bytes text ≡ duration_text nanos) }
{
    if nanos < 1_000 {
        return format!(in alloc; "{nanos} ns");
    }
    let (unit, name) = unit_of(nanos);
    let mut text = in_unit(alloc, nanos, unit)?;
    text.push_str(" ")?;
    text.push_str(name)?;
    Ok(text)
}

/// Appends a duration.
pub(crate) fn push_duration(alloc: Global, text: &mut String, nanos: u64) -> Result<(), AllocError>
    ensures { OnOk result
        (string_bytes text.new ≡ string_bytes text.old ++ duration_text nanos) }
{
    let duration = duration_text(alloc, nanos)?;
    text.push_str(duration.as_str())
}

/// Writes how much longer the first duration is than the second, or how much shorter.
pub(crate) fn difference_text(alloc: Global, first: u64, second: u64) -> Result<String, AllocError>
    ensures { IfOk result (λ text. string_bytes text ≡ difference_text first second) }
{
    let mut text = String::from_str(alloc, sign_of(first, second))?;
    push_duration(alloc, &mut text, apart(first, second))?;
    Ok(text)
}

/// Returns how far two numbers are apart.
fn apart(first: u64, second: u64) -> u64
    ensures { result ≡ apart first second }
{
    if first < second {
        second - first
    } else {
        first - second
    }
}

/// Lends the sign of the first number less the second.
fn sign_of(first: u64, second: u64) -> &'static str
    ensures { result.now ≡ sign_of first second }
{
    if first < second {
        "-"
    } else if second < first {
        "+"
    } else {
        ""
    }
}

/// Writes a part of a total in percent, or nothing of no total.
pub(crate) fn share_text(alloc: Global, part: u64, total: u64) -> Result<String, AllocError>
    ensures { IfOk result (λ text. string_bytes text ≡ share_text part total) }
{
    if total == 0 {
        return Ok(String::new(alloc));
    }
    let mut text = with_tenths(alloc, rounded(u128::from(part) * 1_000, total))?;
    text.push_str("%")?;
    Ok(text)
}
