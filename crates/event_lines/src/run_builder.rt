ghost use Rattle.std.specs.Prelude.{◌≡◌, ◌<◌, ◌∷◌, [], ◌++◌, length, OnOk, IfOk};
ghost use Rattle.event_table.specs.Numbers.{event_of};
ghost use Rattle.event_lines.specs.declared.line.Line.TheVariants.{Control, Event};
ghost use Rattle.event_lines.specs.LineParts.{lines_of_control, lines_of_events, lines_of_runs};

use crate::{ControlLine, LineParts, LineRun};
use event_table::{EventFields, EventTable, TextHints};
use std::alloc::{AllocError, Global};
use std::marker::Model;

/// The most events of a run. A longer one is cut, so that a list is copied only while it grows to
/// this size, and its texts are freed once they are numbered.
const MOST_EVENTS: usize = 65_536;

/// Runs of lines to which the lines after them are appended, seen as the list of the lines.
#[derive(Drop)]
pub(crate) struct RunBuilder {
    runs: Vec<LineRun>,
    events: EventTable,
    hints: TextHints,
}

impl Model for RunBuilder {
    ghost use Rattle.std.specs.Prelude.{◌++◌, List};
    ghost use Rattle.event_lines.specs.declared.line.Line.{Line};
    ghost use Rattle.event_lines.specs.LineParts.{lines_of_events, lines_of_runs};

    ghost Value = { List Line };

    ghost view = { λ a. lines_of_runs a.runs.items ++ lines_of_events a.events };
}

/// Ends the last run, with this control line if there is one, and begins one.
fn end_run(
    alloc: Global,
    runs: &mut Vec<LineRun>,
    events: &mut EventTable,
    control: Option<ControlLine>,
) -> Result<(), AllocError>
    ensures ended { OnOk result (lines_of_runs runs.new.items
        ≡ lines_of_runs runs.old.items ++ lines_of_events events.old ++ lines_of_control control) }
    ensures begun { OnOk result (events.new ≡ []) }
{
    let events = std::mem::replace(events, EventTable::new(alloc));
    Ok(runs.push(LineRun { events, control })?)
}

/// Ends the last run, if it is full, and begins one.
fn make_room(
    alloc: Global,
    runs: &mut Vec<LineRun>,
    events: &mut EventTable,
) -> Result<(), AllocError>
    ensures room { OnOk result (length events.new < 65536) }
    ensures same { OnOk result (lines_of_runs runs.new.items ++ lines_of_events events.new
        ≡ lines_of_runs runs.old.items ++ lines_of_events events.old) }
{
    if events.len() < MOST_EVENTS {
        return Ok(());
    }
    end_run(alloc, runs, events, None)
}

impl RunBuilder {
    /// Makes an empty list of lines. The only error is out of memory.
    pub(crate) fn new(alloc: Global) -> Result<RunBuilder, AllocError>
        ensures { IfOk result (λ lines. lines ≡ []) }
    {
        Ok(RunBuilder {
            runs: Vec::new(alloc),
            events: EventTable::new(alloc),
            hints: TextHints::new(alloc)?,
        })
    }

    /// Appends the event of a line that says this. The only error is out of memory.
    pub(crate) fn push_event(
        &mut self,
        alloc: Global,
        line: u32,
        fields: &EventFields<'_>,
    ) -> Result<(), AllocError>
        ensures { OnOk result (self.new ≡ self.old ++ Event (event_of line fields.now) ∷ []) }
    {
        make_room(alloc, &mut self.runs, &mut self.events)?;
        self.events.push(alloc, &mut self.hints, line, fields)
    }

    /// Appends a control line, which ends the run. The only error is out of memory.
    pub(crate) fn push_control(
        &mut self,
        alloc: Global,
        control: ControlLine,
    ) -> Result<(), AllocError>
        ensures { OnOk result (self.new ≡ self.old ++ Control control.line control.command ∷ []) }
    {
        end_run(alloc, &mut self.runs, &mut self.events, Some(control))
    }

    /// Gives the lines. The only error is out of memory.
    pub(crate) fn into_parts(self) -> Result<LineParts, AllocError>
        ensures { IfOk result (λ lines. lines ≡ self) }
    {
        let RunBuilder {
            mut runs,
            events,
            ..
        } = self;
        runs.push(LineRun {
            events,
            control: None,
        })?;
        Ok(LineParts::of(runs))
    }
}
