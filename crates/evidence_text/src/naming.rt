use trace_types::{NameText, Text};

/// A trace that a row names.
#[derive(Clone, Copy, Debug)]
pub struct TracePlace<'t> {
    /// Its day, in days of 86,400 seconds since 1970.
    pub day: u32,
    /// Its index among the traces of its day, counted from 0.
    pub index: u32,
    /// Its request.
    pub request: &'t Text,
}

/// What the rows name: names and tasks by their places in two lists, and traces by their indices.
#[derive(Clone, Copy)]
pub struct Naming<'t> {
    /// The names in their order.
    pub names: &'t [&'t NameText],
    /// The tasks in their order.
    pub tasks: &'t [&'t Text],
    /// The traces that figures count, in the same order.
    pub traces: &'t [TracePlace<'t>],
}
