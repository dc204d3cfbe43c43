ghost use Rattle.std.specs.Prelude.{◌≡◌, ◌++◌, ◌∷◌, [], List, IfOk, OnOk};
ghost use Rattle.event_lines.specs.LineParts.{lines_of_run};
ghost use Rattle.event_lines.specs.declared.line.Line.{Line};
ghost use Rattle.session_rules.specs.Jobs.{batch_after, job_of, jobs_from, jobs_of};

use event_lines::{Command, EventParts, LineParts, LineRun};
use session_rules::Job;
use std::alloc::{AllocError, Global};

/// Appends the job of a command; an add takes the batch.
fn take_command(
    alloc: Global,
    jobs: &mut Vec<Job>,
    batch: &mut EventParts,
    command: Command,
) -> Result<(), AllocError>
    ensures job { OnOk result (jobs.new.items
        ≡ jobs.old.items ++ job_of batch.old command ∷ []) }
    ensures left { OnOk result (batch.new ≡ batch_after batch.old command) }
{
    let job = match command {
        Command::Add => Job::Add {
            events: std::mem::replace(batch, EventParts::new(alloc)),
        },
        command => Job::Control { command },
    };
    Ok(jobs.push(job)?)
}

/// Takes the next run of lines: its events join the batch, and its command becomes a job.
fn take_run(
    alloc: Global,
    jobs: &mut Vec<Job>,
    batch: &mut EventParts,
    run: LineRun,
) -> Result<(), AllocError>
    ensures { OnOk result ((rest : List Line)
        → jobs.old.items ++ jobs_from batch.old (lines_of_run run ++ rest)
        ≡ jobs.new.items ++ jobs_from batch.new rest) }
{
    batch.push_part(run.events)?;
    if let Some(control) = run.control {
        take_command(alloc, jobs, batch, control.command)?;
    }
    Ok(())
}

/// Makes the jobs of the lines of an input: each `add` takes the events since the one before it.
/// The only error is that memory ran out.
pub fn jobs(alloc: Global, lines: LineParts) -> Result<Vec<Job>, AllocError>
    ensures { IfOk result (λ jobs. jobs.items ≡ jobs_of lines) }
{
    let mut jobs = Vec::new(alloc);
    let mut batch = EventParts::new(alloc);
    for run in lines.into_runs() {
        take_run(alloc, &mut jobs, &mut batch, run)?;
    }
    Ok(jobs)
}
