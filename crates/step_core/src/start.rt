/// How the step machine is opened.
#[derive(Clone, Copy, Debug, PartialEq, Eq)]
pub struct Start {
    /// The number of words.
    pub width: u32,
    /// The number of all shares.
    pub shares: u32,
}
