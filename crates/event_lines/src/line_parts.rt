ghost use Rattle.std.specs.Prelude.{◌≡◌, ◌∷◌, [], ◌++◌, OnOk, OnErr};
ghost use Rattle.event_lines.specs.declared.line.Line.TheVariants.{Control};
ghost use Rattle.event_lines.specs.LineParts.{lines_of_runs};

use crate::{Command, ControlLine, LineRun};
use event_table::EventTable;
use std::alloc::{AllocError, Global};
use std::marker::Model;

/// Lines in several runs, one after another, seen as one list.
#[derive(Debug, Drop)]
pub struct LineParts {
    runs: Vec<LineRun>,
}

impl Model for LineParts {
    ghost use Rattle.std.specs.Prelude.{List};
    ghost use Rattle.event_lines.specs.declared.line.Line.{Line};
    ghost use Rattle.event_lines.specs.LineParts.{lines_of_runs};

    ghost Value = { List Line };

    ghost view = { λ a. lines_of_runs a.runs.items };
}

impl LineParts {
    /// Makes lines of these runs. Takes no memory.
    pub(crate) fn of(runs: Vec<LineRun>) -> LineParts
        ensures { result ≡ lines_of_runs runs.items }
    {
        LineParts { runs }
    }

    /// Appends later lines; no event is moved. The only error is out of memory, after which the
    /// lines are as before and the later ones are gone.
    pub fn append(&mut self, mut later: LineParts) -> Result<(), AllocError>
        ensures appended { OnOk result (self.new ≡ self.old ++ later) }
        ensures unchanged { OnErr result (self.new ≡ self.old) }
    {
        self.runs.append(&mut later.runs)
    }

    /// Appends a control line. The only error is out of memory, after which the lines are as before.
    pub fn push_control(
        &mut self,
        alloc: Global,
        line: u32,
        command: Command,
    ) -> Result<(), AllocError>
        ensures appended { OnOk result (self.new ≡ self.old ++ Control line command ∷ []) }
        ensures unchanged { OnErr result (self.new ≡ self.old) }
    {
        Ok(
            self.runs.push(LineRun {
                events: EventTable::new(alloc),
                control: Some(ControlLine { line, command }),
            })?,
        )
    }

    /// Gives the runs, in order. Takes no memory.
    pub fn into_runs(self) -> Vec<LineRun>
        ensures { lines_of_runs result.items ≡ self }
    {
        self.runs
    }
}
