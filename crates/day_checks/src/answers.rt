//! What calls of a book with a journal answer, as plain numbers.
use live_journal::{DeedFault, RollFault};

/// Tells whether a call answered this number: a new entry's position, or how many traces a drop
/// had.
pub(crate) fn answers<E: Drop>(answer: Option<Result<u32, E>>, number: u32) -> bool {
    match answer {
        Some(Ok(given)) => given == number,
        _ => false,
    }
}

/// Tells the entries of the full journal that refused a roll, and how many traces came back.
pub(crate) fn journal_refusal(rolled: Option<Result<u32, RollFault>>) -> Option<(u32, usize)> {
    match rolled {
        Some(Err(RollFault::JournalFull { sheet, entries })) => {
            Some((entries, sheet.traces().len()))
        }
        _ => None,
    }
}

/// Tells the days that there would be after a refused roll, and how many traces came back.
pub(crate) fn days_refusal(rolled: Option<Result<u32, RollFault>>) -> Option<(u32, usize)> {
    match rolled {
        Some(Err(RollFault::TooManyDays { sheet, days })) => Some((days, sheet.traces().len())),
        _ => None,
    }
}

/// Tells the entries of the full journal that refused a drop or a keep.
pub(crate) fn full_entries(done: Option<Result<u32, DeedFault>>) -> Option<u32> {
    match done {
        Some(Err(DeedFault::JournalFull { entries })) => Some(entries),
        _ => None,
    }
}
