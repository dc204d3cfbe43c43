ghost use Rattle.std.specs.Prelude.{ℕ, ◌≡◌, ◌++◌, List, OnOk, string_bytes};
ghost use Rattle.pretty_cli.specs.Dates.{IsDateOf, IsDateText};

use jiff_core::civil::Date;
use jiff_fmt::temporal::DateTimePrinter;
use std::alloc::AllocError;

/// The last day of the year 9999, in days since 1970.
const LAST_DAY: u64 = 2_932_896;

/// Finds the date with this number of days since 1970, up to the year 9999.
fn date_of(day: u64) -> Option<Date>
    ensures { IsDateOf day result }
{
    if day > LAST_DAY {
        return None;
    }
    Date::from_unix_epoch_day(day as i64).ok()
}

/// Appends a day since 1970 as a date, or its number where it is past the year 9999.
pub(crate) fn push_date(text: &mut String, day: u64) -> Result<(), AllocError>
    ensures { OnOk result ((date : List ℕ) × IsDateText day date
        × (string_bytes text.new ≡ string_bytes text.old ++ date)) }
{
    match date_of(day) {
        Some(date) => text.push_str(DateTimePrinter::new().date_text(date).as_str()),
        None => write!(text, "{day}"),
    }
}
