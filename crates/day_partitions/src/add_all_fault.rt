use crate::DatedSheet;

/// Why sheets were not added to a book: none of them was, and they come back.
#[derive(Drop)]
pub enum AddAllFault {
    /// Memory ran out. The book is unchanged.
    Memory {
        /// The sheets that were to be added.
        sheets: Vec<DatedSheet>,
    },
    /// The kept days and the new ones are over 64 together. The book is unchanged.
    TooManyDays {
        /// The sheets that were to be added.
        sheets: Vec<DatedSheet>,
        /// How many days there would be.
        days: u32,
    },
}
