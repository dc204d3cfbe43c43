use pipeline_tests::DaySheet;

/// Why a sheet was not added to a book. The book is unchanged, and the sheet comes back.
#[derive(Drop)]
pub enum BookFault {
    /// Memory ran out.
    Memory {
        /// The sheet that was to be added.
        sheet: DaySheet,
    },
    /// 64 days are kept, and the sheet's day is none of them.
    TooManyDays {
        /// The sheet that was to be added.
        sheet: DaySheet,
        /// How many days there would be: 65.
        days: u32,
    },
}
