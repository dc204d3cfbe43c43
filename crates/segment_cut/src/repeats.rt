ghost use Rattle.std.specs.Prelude.{◌≡◌, ℕ, List, IfOk, MatchOption, Some, slice_get};
ghost use Rattle.clock_offsets.specs.FirstEvents.{AreFirstEvents};
ghost use Rattle.clock_offsets.specs.declared.first_events.Field.TheVariants.{Task};
ghost use Rattle.trace_types.specs.Events.{named_events};
ghost use Rattle.trace_types.specs.Repeats.{AreDistinct, IsLineOfRepeat};

use clock_offsets::NumberPlaces;
use event_table::RawEvents;
use std::alloc::{AllocError, Global};

/// States that a name of an event has one number.
fn state_a_name_has_one_number(trace: &RawEvents<'_>)
    ensures { (i j : ℕ) (text : List ℕ) → slice_get trace.now.texts.names i ≡ Some text
        → slice_get trace.now.texts.names j ≡ Some text → i ≡ j }
{
    trace.texts().names().tell_texts_apart();
}

/// Finds the first line with the task and the name of an earlier event. The tasks are, for each
/// event, the index of the first event of its task.
pub(crate) fn find_repeated_event(
    alloc: Global,
    trace: &RawEvents<'_>,
    tasks: &[usize],
) -> Result<Option<u32>, AllocError>
    requires { AreFirstEvents Task trace.now.trace.events tasks.now }
    ensures { IfOk result (λ line. MatchOption line
        (AreDistinct (named_events trace.now.trace.events))
        (IsLineOfRepeat trace.now.trace.events (named_events trace.now.trace.events))) }
{
    state_a_name_has_one_number(trace);
    let mut seen = NumberPlaces::new(alloc, trace.len())?;
    for at in 0..trace.len() {
        let first = seen.find_or_add(tasks[at], trace.event(at), at)?;
        if first != at {
            return Ok(Some(trace.line(at)));
        }
    }
    Ok(None)
}
