use span_types::Span;

/// A span among the calls of requests.
#[derive(Clone, Copy, Debug)]
pub struct Call<'a> {
    /// The span.
    pub span: &'a Span,
    /// The index of its caller among the calls, if it has one.
    pub caller: Option<usize>,
    /// When it starts by the clock of its caller's machine.
    pub start: u64,
    /// When it ends by that clock.
    pub end: u64,
}
