/// A kept trace, by where it stands in a book of days.
#[derive(Clone, Copy, Debug, PartialEq, Eq)]
pub struct Finding {
    /// The place of its day in the book, counted from 0.
    pub place: u32,
    /// Its index among the traces of that day, counted from 0.
    pub index: u32,
}
