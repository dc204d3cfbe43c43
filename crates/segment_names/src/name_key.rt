/// A name by the indices of its texts: its task among the tasks, and its events among the events.
#[derive(Clone, Copy, Debug, PartialEq, Eq, Hash)]
pub(crate) struct NameKey {
    pub task: usize,
    pub start: usize,
    pub end: usize,
}
