//! How many days a book would have with those of a batch, before any of them is recorded.
ghost use Rattle.std.specs.Prelude.{◌≡◌, ◌^◌, ◌+◌, ◌<◌, ◌≤◌, List, length, map};
ghost use Rattle.batch_sheets.specs.Splitting.{sheet_day};
ghost use Rattle.day_partitions.specs.Batches.{new_days};
ghost use Rattle.day_partitions.specs.Books.{has_day};
ghost use Rattle.day_partitions.specs.declared.dated_sheet.DatedSheet.{DatedSheet};

use day_partitions::DayBook;

/// Tests whether the book keeps this day.
fn is_kept(book: &DayBook, day: u32) -> bool
    ensures { result ≡ has_day book.now.days day }
{
    'places: for place in 0..book.days() {
        if book.day(place) == day {
            return true;
        }
    }
    false
}

/// How many of the days the book does not keep.
fn count_new(book: &DayBook, days: &[u32]) -> usize
    ensures count { (sheets : List DatedSheet) → map sheet_day sheets ≡ days.now
        → result ≡ new_days book.now.days sheets }
    ensures few { result ≤ length days.now }
{
    let mut new = 0;
    'days: for day in days {
        if !is_kept(book, *day) {
            new += 1;
        }
    }
    new
}

/// How many days the book would have with these too, which are different: the number that an add of
/// sheets of these days finds.
pub fn days_with(book: &DayBook, days: &[u32]) -> u32
    requires { length book.now.days + length days.now < 2 ^ 32 }
    ensures { (sheets : List DatedSheet) → map sheet_day sheets ≡ days.now
        → result ≡ length book.now.days + new_days book.now.days sheets }
{
    let kept = book.days();
    kept + count_new(book, days) as u32
}
