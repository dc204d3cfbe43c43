ghost use Rattle.std.specs.Prelude.{◌≡◌, ◌<◌, ◌^◌, length};
ghost use Rattle.event_lines.specs.LineParts.{lines_of_run, lines_of_runs};
ghost use Rattle.line_quality.specs.EventsRead.{events_in};

use event_lines::LineRun;

/// Counts the lines of a run.
fn count_in_run(run: &LineRun) -> usize
    requires { length (lines_of_run run.now) < 2 ^ 31 }
    ensures { result ≡ length (lines_of_run run.now) }
{
    match run.control {
        Some(_) => run.events.len() + 1,
        None => run.events.len(),
    }
}

/// Counts the lines of runs.
pub(crate) fn count_lines(runs: &[LineRun]) -> usize
    requires { length (lines_of_runs runs.now) < 2 ^ 31 }
    ensures { result ≡ length (lines_of_runs runs.now) }
{
    let mut count = 0usize;
    for run in runs {
        count += count_in_run(run);
    }
    count
}

/// Counts the events among the lines of runs.
pub(crate) fn count_events(runs: &[LineRun]) -> usize
    requires { length (lines_of_runs runs.now) < 2 ^ 31 }
    ensures { result ≡ length (events_in (lines_of_runs runs.now)) }
{
    let mut count = 0usize;
    for run in runs {
        count += run.events.len();
    }
    count
}
