/// What calls are alike by: their caller, service and operation.
#[derive(Clone, Copy, Debug, PartialEq, Eq, Hash)]
pub(crate) struct LikeKey<'a> {
    pub(crate) caller: Option<usize>,
    pub(crate) service: &'a str,
    pub(crate) name: &'a str,
}
