/// What the bytes of an input are read as.
#[derive(Clone, Copy, Debug, PartialEq, Eq)]
pub(crate) enum InputForm {
    /// Event lines and control lines.
    Lines,
    /// A file of steps.
    Steps,
}
