ghost use Rattle.std.specs.Prelude.{◌≡◌, ◌<◌, ℕ, IfOk, length};
ghost use Rattle.event_table.specs.Texts.{AreDifferent};
ghost use Rattle.trace_groups.specs.inner.Names.{AreNames, IsKnown, IsNameAt, begins_with, is_name};

use event_table::RawEvents;
use indexmap::IndexSet;
use std::alloc::{AllocError, Global};

/// The numbers of the task and of the name of an event.
pub(crate) type Name = (u32, u32);

/// States that texts differ where their numbers do.
fn state_texts_differ(raw: &RawEvents<'_>)
    ensures tasks { AreDifferent raw.now.texts.tasks }
    ensures names { AreDifferent raw.now.texts.names }
{
    raw.texts().tasks().tell_texts_apart();
    raw.texts().names().tell_texts_apart();
}

/// Gives the numbers of the event at an index.
fn name_at(raw: &RawEvents<'_>, at: usize) -> Name
    requires { at < length raw.now.trace.events }
    ensures { IsNameAt raw.now.texts raw.now.trace at result }
{
    (raw.task(at), raw.event(at))
}

/// Gives the numbers of the first event.
pub(crate) fn begin_of(raw: &RawEvents<'_>) -> Name
    ensures first { IsNameAt raw.now.texts raw.now.trace 0 result }
    ensures begins { (name : ℕ × ℕ) → IsKnown raw.now.texts name
        → is_name result name ≡ begins_with raw.now.texts name raw.now.trace }
{
    state_texts_differ(raw);
    // For the proof alone.
    let _count = raw.len();
    name_at(raw, 0)
}

/// Gathers the numbers of the events of a trace, each once.
pub(crate) fn gather_names(alloc: Global, raw: &RawEvents<'_>) -> Result<IndexSet<Name>, AllocError>
    ensures { IfOk result (λ names. AreNames raw.now names.keys) }
{
    state_texts_differ(raw);
    let mut names = IndexSet::new(alloc);
    'events: for at in 0..raw.len() {
        names.insert(name_at(raw, at))?;
    }
    Ok(names)
}
