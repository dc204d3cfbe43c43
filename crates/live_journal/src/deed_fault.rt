/// Why no days were dropped. The book is unchanged.
#[derive(Drop)]
pub enum DeedFault {
    /// Memory ran out.
    Memory,
    /// The journal has 10,000 entries.
    JournalFull {
        /// How many entries the journal has: 10,000.
        entries: u32,
    },
}
