/// What labels are numbered by: the thread and the base.
#[derive(Clone, Copy, Debug, PartialEq, Eq, Hash)]
pub(crate) struct LabelKey<'a> {
    pub(crate) thread: usize,
    pub(crate) base: &'a str,
}
