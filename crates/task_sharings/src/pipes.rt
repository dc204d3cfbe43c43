ghost use Rattle.std.specs.Prelude.{◌≡◌, ◌≢◌, ◌↔◌, ◌<◌, IfOk, length, true};
ghost use Rattle.task_sharings.specs.inner.Traces.{TellPipes};
ghost use Rattle.trace_types.specs.Parts.{by_number};
ghost use Rattle.trace_types.specs.Pipelines.{RefutesPipe};
ghost use Rattle.trace_types.specs.declared.named_trace.NamedTrace.{NamedTrace};

use hypothesis_index::laws::{places_differ, places_fit};
use hypothesis_index::{Relation, place};
use pipeline_tests::task_row;
use std::alloc::{AllocError, Global};
use trace_types::NamedTrace;
use word_rows::Sheet;

/// The words of all pairs of tasks.
const TASK_WORDS: u32 = 126;

/// Makes the words of all tasks, without the bits of what a trace refutes.
pub(crate) fn words_of(alloc: Global, trace: &NamedTrace) -> Result<Sheet, AllocError>
    ensures { IfOk result (TellPipes trace.now) }
{
    // For the proof alone.
    places_differ();
    places_fit();
    let row = task_row(alloc, trace)?;
    let mut words = Sheet::full(alloc, TASK_WORDS)?;
    words.meet_row(&row);
    Ok(words)
}

/// Tells whether the trace of the words refutes that elements pass from the one task to the other.
pub(crate) fn refutes_pipe(words: &Sheet, from: u32, to: u32) -> bool
    requires width { length words.now ≡ 126 }
    requires differ { from ≢ to }
    requires first { from < 64 }
    requires second { to < 64 }
    ensures { (trace : NamedTrace) → TellPipes trace words.now
        → (result ≡ true) ↔ RefutesPipe by_number from to trace }
{
    // For the proof alone.
    places_fit();
    let at = place(Relation::Pipe { from, to });
    !words.bit(at.word, at.bit)
}
