/// What contexts below one are ordered by.
#[derive(Clone, Copy, Debug, PartialEq, Eq, PartialOrd, Ord)]
pub(crate) struct TitleKey<'a> {
    pub(crate) service: &'a str,
    pub(crate) name: &'a str,
    pub(crate) ordinal: usize,
}
