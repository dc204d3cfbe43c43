//! Whether a book keeps a day.
ghost use Rattle.std.specs.Prelude.{◌≡◌, ◌↔◌, IsTrue};
ghost use Rattle.day_partitions.specs.Books.{has_day, IsFull};

use day_partitions::DayBook;

/// Tests whether the day is kept.
fn is_kept(book: &DayBook, day: u32) -> bool
    ensures { result ≡ has_day book.now.days day }
{
    for place in 0..book.days() {
        if book.day(place) == day {
            return true;
        }
    }
    false
}

/// Tests whether 64 days are kept and this is none of them.
pub(crate) fn is_full(book: &DayBook, day: u32) -> bool
    ensures { IsTrue result ↔ IsFull book.now day }
{
    book.days() == 64 && !is_kept(book, day)
}
