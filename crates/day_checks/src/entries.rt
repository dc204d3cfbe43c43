//! Entries of a journal as rows.
use live_journal::Entry;

/// The kind of an entry, its number and how many traces it has.
pub(crate) type Row = (char, u32, usize);

/// Gives the kind of an entry as a letter, its number, and how many traces it has.
pub(crate) fn row_of(entry: &Entry) -> Row {
    match entry {
        Entry::Rolled { day, traces } => ('r', *day, traces.items().len()),
        Entry::Dropped { day } => ('d', *day, 0),
        Entry::Kept { days } => ('k', *days, 0),
    }
}
