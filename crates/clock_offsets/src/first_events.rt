ghost use Rattle.std.specs.Prelude.{◌≡◌, ◌<◌, ℕ, List, IfOk, Some, length, slice_get};
ghost use Rattle.clock_offsets.specs.FirstEvents.{AreFirstEvents, field_at};
ghost use Rattle.clock_offsets.specs.inner.Numbers.{texts_in};

use crate::NumberPlaces;
use event_table::RawEvents;
use std::alloc::{AllocError, Global};

/// A text that every event has.
#[derive(Clone, Copy)]
pub enum Field {
    /// The machine that logged it.
    Machine,
    /// Its task.
    Task,
}

/// Reads the number of the text of the event at an index in this field.
#[inline(always)]
fn read_number(trace: &RawEvents<'_>, at: usize, field: Field) -> u32
    requires { at < length trace.now.trace.events }
    ensures { slice_get (texts_in field trace.now.texts) result
        ≡ Some (field_at field trace.now.trace.events at) }
{
    match field {
        Field::Machine => trace.machine(at),
        Field::Task => trace.task(at),
    }
}

/// States that a text of this field has one number.
fn state_a_text_has_one_number(trace: &RawEvents<'_>, field: Field)
    ensures { (i j : ℕ) (text : List ℕ) → slice_get (texts_in field trace.now.texts) i ≡ Some text
        → slice_get (texts_in field trace.now.texts) j ≡ Some text → i ≡ j }
{
    match field {
        Field::Machine => trace.texts().machines().tell_texts_apart(),
        Field::Task => trace.texts().tasks().tell_texts_apart(),
    }
}

/// Finds for each event the index of the first event with the same text in this field. That index
/// numbers the text within the trace. The only error is out of memory.
pub fn find_first_events(
    alloc: Global,
    trace: &RawEvents<'_>,
    field: Field,
) -> Result<Vec<usize>, AllocError>
    ensures { IfOk result (λ firsts. AreFirstEvents field trace.now.trace.events firsts.items) }
{
    state_a_text_has_one_number(trace, field);
    let count = trace.len();
    let mut places = NumberPlaces::new(alloc, count)?;
    let mut firsts = Vec::with_capacity(alloc, count)?;
    for at in 0..count {
        let number = read_number(trace, at, field);
        let first = places.find_or_add(0, number, at)?;
        firsts.push(first)?;
    }
    Ok(firsts)
}
