use pipeline_tests::DaySheet;

/// Why a sheet was not rolled into a book. The book is unchanged, and the sheet comes back.
#[derive(Drop)]
pub enum RollFault {
    /// Memory ran out.
    Memory {
        /// The sheet that was to be rolled.
        sheet: DaySheet,
    },
    /// The journal has 10,000 entries.
    JournalFull {
        /// The sheet that was to be rolled.
        sheet: DaySheet,
        /// How many entries the journal has: 10,000.
        entries: u32,
    },
    /// The journal is not full, 64 days are kept, and the sheet's day is none of them.
    TooManyDays {
        /// The sheet that was to be rolled.
        sheet: DaySheet,
        /// How many days there would be: 65.
        days: u32,
    },
}
