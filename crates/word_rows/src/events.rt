use crate::entries::Row;

/// One step at shared words, by the seat that makes it. Seats are numbered from 0.
#[derive(Debug, Drop)]
pub enum StepEvent {
    /// Clear the next entry of this row.
    Clear { seat: u32, row: Row },
    /// Load a word, counted from 0.
    Load { seat: u32, word: u32 },
    /// Split off shares to a new seat.
    Split { seat: u32, shares: u32 },
    /// Join another seat.
    Join { seat: u32, other: u32 },
    /// Close the words.
    Close { seat: u32 },
}
