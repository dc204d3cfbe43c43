ghost use Rattle.std.specs.Prelude.{◌≡◌};
ghost use Rattle.pretty_cli.specs.Contexts.{at_header, at_trace, context_after, header_view, kind_of};
ghost use Rattle.pretty_cli.specs.Contexts.{start};
ghost use Rattle.pretty_cli.specs.Fields.{texts_of};

use crate::fields::{field, figure, number_at};

/// The views whose rows are set in columns; all others are printed as they are.
#[derive(Clone, Copy)]
pub(crate) enum View {
    /// How long the traces took, and their segments.
    Report,
    /// The critical path of each trace.
    Paths,
    /// The slack of each segment of each trace.
    Slack,
    /// The slowest traces beside the others.
    Tail,
    /// The critical paths before and after a change.
    WhatIf,
    /// What stands behind relations.
    Evidence,
    /// Any other rows.
    Other,
}

/// What a row is in its view.
#[derive(Clone, Copy)]
pub(crate) enum Kind {
    /// The header.
    Header,
    /// The latencies of a report.
    Latency,
    /// A segment.
    Segment,
    /// A trace, above its rows.
    Trace,
    /// A step of a critical path.
    Step,
    /// The critical path of a trace before and after a change.
    Forecast,
    /// Two names of which the first happens before the second.
    Order,
    /// Two names that are mutually exclusive.
    Exclusion,
    /// Two tasks that are a pipeline.
    Pipe,
    /// A relation that few traces refute.
    Nearly,
    /// A row of another kind.
    Other,
}

/// What the rows down to a row tell of it.
#[derive(Clone, Copy)]
pub(crate) struct Context {
    /// The view that it is in.
    pub(crate) view: View,
    /// What it is there.
    pub(crate) kind: Kind,
    /// The number of the part of the text that it is in.
    pub(crate) section: u64,
    /// The rank of its trace: the slowest first.
    pub(crate) group: u64,
    /// The number of its trace.
    pub(crate) turn: u64,
    /// How long the critical paths are together, or the critical path of its trace.
    pub(crate) total: u64,
    /// The number of slow traces, of `tail`.
    pub(crate) slow: u64,
    /// The number of the others.
    pub(crate) others: u64,
}

/// Finds the view whose header begins with this word.
fn header_view(word: &str) -> Option<View>
    ensures { result ≡ header_view word.now }
{
    match word {
        "report" => Some(View::Report),
        "paths" => Some(View::Paths),
        "slack" => Some(View::Slack),
        "tail" => Some(View::Tail),
        "whatif" => Some(View::WhatIf),
        "evidence" => Some(View::Evidence),
        _ => None,
    }
}

/// Finds what a row that begins with this word is in a view.
fn kind_of(view: View, word: &str) -> Kind
    ensures { result ≡ kind_of view word.now }
{
    match (view, word) {
        (View::Report, "latency") => Kind::Latency,
        (View::Report | View::Slack | View::Tail, "segment") => Kind::Segment,
        (View::Paths, "path") | (View::Slack, "trace") => Kind::Trace,
        (View::Paths, "step") => Kind::Step,
        (View::WhatIf, "forecast") => Kind::Forecast,
        (View::Evidence, "hb") => Kind::Order,
        (View::Evidence, "mx") => Kind::Exclusion,
        (View::Evidence, "pipe") => Kind::Pipe,
        (View::Evidence, "nearly") => Kind::Nearly,
        _ => Kind::Other,
    }
}

impl Context {
    /// Begins before the first row.
    pub(crate) fn new() -> Context
        ensures { result ≡ start }
    {
        Context {
            view: View::Other,
            kind: Kind::Other,
            section: 0,
            group: 1,
            turn: 0,
            total: 0,
            slow: 0,
            others: 0,
        }
    }

    /// Tells the context of a header.
    fn at_header(self, view: View, fields: &[&str]) -> Context
        ensures { result ≡ at_header self view (texts_of fields.now) }
    {
        let slow = figure(fields, 2, "slow=");
        Context {
            view,
            kind: Kind::Header,
            section: self.section.saturating_add(1),
            group: 1,
            turn: 0,
            total: figure(fields, 2, "critical="),
            slow,
            others: figure(fields, 1, "traces=").saturating_sub(slow),
        }
    }

    /// Tells the context of a row that begins a trace.
    fn at_trace(self, fields: &[&str]) -> Context
        ensures { result ≡ at_trace self (texts_of fields.now) }
    {
        Context {
            kind: Kind::Trace,
            group: (u64::MAX - number_at(fields, 3)).max(1),
            turn: self.turn.saturating_add(1),
            total: number_at(fields, 4),
            ..self
        }
    }

    /// Tells the context of the next row.
    pub(crate) fn after(self, fields: &[&str]) -> Context
        ensures { result ≡ context_after self (texts_of fields.now) }
    {
        let word = field(fields, 0);
        if let Some(view) = header_view(word) {
            return self.at_header(view, fields);
        }
        match kind_of(self.view, word) {
            Kind::Trace => self.at_trace(fields),
            Kind::Other => Context {
                view: View::Other,
                kind: Kind::Other,
                section: self.section.saturating_add(1),
                ..self
            },
            kind => Context { kind, ..self },
        }
    }
}
