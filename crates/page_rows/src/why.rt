/// Why a line is bad.
#[derive(Clone, Copy, Debug, PartialEq, Eq)]
pub enum Why {
    /// It is no UTF-8.
    NotUtf8,
    /// Its word and the number of its fields are those of no row.
    NoRow,
    /// A field that has to be a number is none.
    NoNumber,
    /// The row does not stand where it may.
    Misplaced,
    /// The text ends before all heads have come.
    Unfinished,
}
