/// What calls are ordered by.
#[derive(Clone, Copy, Debug, PartialEq, Eq, PartialOrd, Ord)]
pub(crate) struct CallKey<'a> {
    pub(crate) start: u64,
    pub(crate) end: u64,
    pub(crate) id: &'a str,
}
