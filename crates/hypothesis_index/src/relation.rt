/// A relation between two segment names, below 512, or between two tasks, below 64. Every relation
/// is supposed, and one trace refutes it. Where the order of the two does not matter, the lesser is
/// `low`.
#[derive(Clone, Copy, Debug, PartialEq, Eq)]
pub enum Relation {
    /// The first name happens before the second.
    Before { first: u32, second: u32 },
    /// The two names are mutually exclusive.
    Exclusive { low: u32, high: u32 },
    /// No trace has both names.
    Apart { low: u32, high: u32 },
    /// Data elements pass from the one task to the other, first in, first out.
    Pipe { from: u32, to: u32 },
    /// No trace has an element in both tasks.
    Unshared { low: u32, high: u32 },
}
