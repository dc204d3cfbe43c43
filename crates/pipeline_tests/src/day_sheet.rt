use crate::sheets::survivors;
use std::alloc::{AllocError, Global};
use std::marker::Model;
use trace_types::NamedTrace;
use word_rows::Sheet;

/// The traces of a day and their words: a bit is 0 exactly where it is the place of a relation that
/// some of the traces refutes. It is seen as both.
#[derive(Drop)]
pub struct DaySheet {
    traces: Vec<NamedTrace>,
    words: Sheet,
}

impl Model for DaySheet {
    ghost use Rattle.pipeline_tests.specs.DaySheets.{SheetState};
    ghost use Rattle.refute_tests.specs.Survivors.{AreSurvivors};

    ghost Value = { SheetState };

    ghost view = { λ d. record { traces = d.traces.items; words = d.words } };

    ghost invariant = { λ d. AreSurvivors d.traces.items d.words };
}

impl DaySheet {
    ghost use Rattle.std.specs.Prelude.{◌≡◌, ◌≤◌, All, IfOk, length};
    ghost use Rattle.hypothesis_index.specs.Places.{width_of};
    ghost use Rattle.refute_tests.specs.Clearing.{HaveNamesBelow};
    ghost use Rattle.refute_tests.specs.Survivors.{AreSurvivors};

    /// Makes the sheet of these traces, whose names are all below a number: the words of so many
    /// names, full, met by the whole row of each trace. The only error is that memory ran out.
    pub fn plain(alloc: Global, traces: Vec<NamedTrace>, names: u32) -> Result<DaySheet, AllocError>
        requires few { names ≤ 512 }
        requires named { All (HaveNamesBelow names) traces.items }
        ensures traces { IfOk result (λ day. day.traces ≡ traces.items) }
        ensures width { IfOk result (λ day. length day.words ≡ width_of names) }
    {
        let words = survivors(alloc, traces.as_slice(), names)?;
        Ok(DaySheet { traces, words })
    }

    /// Makes the sheet of these traces and their words, and takes no memory.
    pub fn of_words(traces: Vec<NamedTrace>, words: Sheet) -> DaySheet
        requires { AreSurvivors traces.items words }
        ensures { result ≡ record { traces = traces.items; words = words } }
    {
        DaySheet { traces, words }
    }

    /// Lends the traces, in the order in which they were taken.
    pub fn traces(&self) -> &[NamedTrace]
        ensures { result.now ≡ self.now.traces }
    {
        &self.traces
    }

    /// Lends the words.
    pub fn words(&self) -> &Sheet
        ensures same { result.now ≡ self.now.words }
        ensures survivors { AreSurvivors self.now.traces self.now.words }
    {
        &self.words
    }

    /// Gives the traces back, and takes no memory.
    pub fn into_traces(self) -> Vec<NamedTrace>
        ensures { result.items ≡ self.traces }
    {
        self.traces
    }
}
