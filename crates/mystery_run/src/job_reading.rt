ghost use Rattle.std.specs.Prelude.{◌≡◌, ◌++◌, ◌∷◌, ℕ, List, [], Ok, IfErr, IfOk, IfSome};
ghost use Rattle.std.specs.Prelude.{OnOk};
ghost use Rattle.event_lines.specs.declared.command.Command.TheVariants.{Add};
ghost use Rattle.event_lines.specs.declared.line.Line.TheVariants.{Control};
ghost use Rattle.event_lines.specs.InputLines.{IsLineError};
ghost use Rattle.digest_facts.specs.Tables.{Table};
ghost use Rattle.session_rules.specs.ReadyJobs.{AreReady};
ghost use Rattle.trace_types.specs.Segments.{SegmentName};
ghost use Rattle.mystery_run.specs.Works.{Jobs, work_from, jobs_with};
ghost use Rattle.mystery_run.specs.inner.Inputs.{IsWithinLimit, lines_said_by};
ghost use Rattle.mystery_run.specs.inner.LastJobs.{IsLastJob};

use crate::input::Input;
use event_lines::laws::lines_of_an_input_are_good;
use event_lines::{Command, LineError, LineParts, read_lines};
use session::{Job, jobs};
use session_laws::laws::jobs_are_ready;
use std::alloc::{AllocError, Global};
use std::thread::Threads;

/// Appends a control line that adds the events since the last add.
fn push_add(alloc: Global, lines: &mut LineParts) -> Result<(), AllocError>
    ensures { OnOk result (lines.new ≡ lines.old ++ Control 0 Add ∷ []) }
{
    lines.push_control(alloc, 0, Command::Add)
}

/// Makes the jobs of lines. Where there is a last job, the events since the last add are added
/// before it.
fn make_jobs(alloc: Global, mut lines: LineParts, last: Option<Job>) -> Result<Vec<Job>, AllocError>
    ensures { IfOk result (λ jobs. (tables : List (Table SegmentName (List ℕ)))
        → jobs_with tables last lines ≡ Jobs tables jobs.items) }
{
    let Some(job) = last else {
        return jobs(alloc, lines);
    };
    push_add(alloc, &mut lines)?;
    let mut made = jobs(alloc, lines)?;
    made.push(job)?;
    Ok(made)
}

/// Gives the lines of an input; those of bytes are read by up to so many workers.
fn into_lines<R: Threads + Sync>(
    rt: &R,
    alloc: Global,
    workers: u32,
    input: Input,
) -> Result<LineParts, LineError>
    requires { IsWithinLimit input }
    ensures lines { IfOk result (λ lines. lines_said_by input ≡ Ok lines) }
    ensures bad { IfErr result (IsLineError (lines_said_by input)) }
{
    match input {
        Input::Bytes { bytes } => read_lines(rt, alloc, &bytes, workers),
        Input::Lines { lines } => Ok(lines),
        Input::Bad { line, why } => Err(LineError::Bad { line, why }),
    }
}

/// Makes the jobs of the lines of an input and the last job, which no control line asks for.
///
/// The errors are an allocation failure and the first bad line of the input.
pub(crate) fn read_jobs<R: Threads + Sync>(
    rt: &R,
    alloc: Global,
    workers: u32,
    input: Input,
    last: Option<Job>,
) -> Result<Vec<Job>, LineError>
    requires within { IsWithinLimit input }
    requires last { IfSome last IsLastJob }
    ensures said { IfOk result
        (λ jobs. (tables : List (Table SegmentName (List ℕ)))
        → work_from tables last (lines_said_by input) ≡ Ok (Jobs tables jobs.items)) }
    ensures ready { IfOk result (λ jobs. AreReady jobs.items) }
    ensures bad { IfErr result (IsLineError (lines_said_by input)) }
{
    // For the proof alone.
    jobs_are_ready();
    lines_of_an_input_are_good();
    let lines = into_lines(rt, alloc, workers, input)?;
    Ok(make_jobs(alloc, lines, last)?)
}
