/// The five draws of a trace, in microseconds.
#[derive(Clone, Copy, Debug)]
pub(crate) struct TraceDraws {
    /// From the start to the sending of the request.
    pub(crate) d1: u32,
    /// From the receipt of the request to the start of `db` and `ads`.
    pub(crate) d2: u32,
    /// How long `db` takes.
    pub(crate) d3: u32,
    /// How long `ads` takes.
    pub(crate) d4: u32,
    /// From the receipt of the page to the end.
    pub(crate) d5: u32,
}
