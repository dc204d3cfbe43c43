/// What an entry is ordered by: entries of one trace stand together.
#[derive(Clone, Copy, Debug, PartialEq, Eq, PartialOrd, Ord)]
pub(crate) struct EntryKey<'a> {
    /// Where its trace is first seen.
    pub(crate) first_sight: u32,
    /// Whether it takes a message from a queue.
    pub(crate) consumer: bool,
    /// Whether it has a parent.
    pub(crate) parented: bool,
    /// When it starts.
    pub(crate) start: u64,
    /// Its id.
    pub(crate) id: &'a str,
    /// Its number.
    pub(crate) index: u32,
}
