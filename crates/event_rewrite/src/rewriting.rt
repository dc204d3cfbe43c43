ghost use Rattle.std.specs.Prelude.{◌≡◌, ◌<◌, ◌+◌, ◌*◌, length, IfOk};
ghost use Rattle.event_lines.specs.LineParts.{lines_of_runs};
ghost use Rattle.event_rewrite.specs.WithoutWaits.{without_waits};
ghost use Rattle.event_text.specs.LineTexts.{lines_text};

use crate::keys::keys_of;
use crate::printing::print_runs;
use event_lines::LineRun;
use std::alloc::{AllocError, Global};
use task_pieces::TaskNames;

/// Makes the text of the lines of runs without waits: from each event that receives a message right
/// after one of its task that sends one, the task goes on under a name of its own. The only error
/// is out of memory.
pub fn rewrite(alloc: Global, runs: &[LineRun]) -> Result<Vec<u8>, AllocError>
    requires { 2 * length (lines_of_runs runs.now) + 16 < u32.MAX }
    ensures { IfOk result
        (λ text. text.items ≡ lines_text (without_waits (lines_of_runs runs.now))) }
{
    let names = TaskNames::new(alloc, keys_of(alloc, runs)?)?;
    let mut text = Vec::new(alloc);
    print_runs(runs, &names, &mut text)?;
    Ok(text)
}
