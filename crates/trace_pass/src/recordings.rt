use std::marker::Model;
use trace_types::NamedTrace;
use word_rule::Pass;

/// A pass at a recorder's table and the traces that it offered, in order. The pass's done rows are
/// the whole rows of these traces. Dropping a recording does not return its shares, so the recorder
/// can then not be closed.
#[derive(Drop)]
pub struct Recording {
    pub(crate) pass: Pass,
    pub(crate) traces: Vec<NamedTrace>,
    pub(crate) names: u32,
}

impl Model for Recording {
    ghost use Rattle.trace_pass.specs.Rows.{AreRowsWithin};
    ghost use Rattle.trace_pass.specs.States.{RecordingState};

    ghost Value = { RecordingState };

    ghost view = { λ r. record { pass = r.pass; traces = r.traces.items; names = r.names } };

    ghost invariant = { λ r. AreRowsWithin r.names r.traces.items r.pass.view.done };
}

impl Recording {
    ghost use Rattle.std.specs.Prelude.{◌≡◌, ◌<◌, IsTrue};
    ghost use Rattle.word_rows.specs.Changes.{is_idle};
    ghost use Rattle.trace_pass.specs.Rows.{AreRowsWithin};

    /// Tells the shares of this recording.
    pub fn shares(&self) -> u32
        ensures shares { result ≡ self.now.pass.view.shares }
        ensures some { 0 < result }
        ensures rests { IsTrue (is_idle self.now.pass.view) }
        ensures rows { AreRowsWithin self.now.names self.now.traces self.now.pass.view.done }
    {
        self.pass.shares()
    }

    /// Lends the traces, in the order in which they were offered.
    pub fn traces(&self) -> &[NamedTrace]
        ensures { result.now ≡ self.now.traces }
    {
        self.traces.as_slice()
    }
}
