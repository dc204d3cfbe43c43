use crate::entries::Entry;
use std::collections::LinkedList;

/// The value of one word, as it was read.
pub struct Reading {
    /// The word, counted from 0.
    pub word: u32,
    pub value: u64,
}

/// What a seat at shared words did and knows. Definitions and contracts speak of it; no value of it
/// is made.
pub struct View {
    /// The number of all shares at opening, which each view but an empty one carries.
    pub all: u32,
    /// The shares of this view.
    pub shares: u32,
    /// The rows that were cleared whole, in order.
    pub done: LinkedList<LinkedList<Entry>>,
    /// The row in progress, or no entry.
    pub row: LinkedList<Entry>,
    /// How many entries of the row in progress are cleared.
    pub cleared: u32,
    /// The rows that other views had done, as this one was told.
    pub seen: LinkedList<LinkedList<Entry>>,
    /// The readings that were made, in order.
    pub readings: LinkedList<Reading>,
}
