/// Where a name or a task stands in two lists, each counted from 0; nowhere where the list has it
/// not.
#[derive(Clone, Copy, Debug)]
pub(crate) struct Places {
    /// Its place in the first list.
    pub(crate) left: Option<usize>,
    /// Its place in the second list.
    pub(crate) right: Option<usize>,
}
