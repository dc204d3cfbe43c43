ghost use Rattle.std.specs.Prelude.{◌≡◌, ◌<◌, ◌≤◌, [], All, Some, length, slice_get, IfOk, OnOk};
ghost use Rattle.task_pieces.specs.TaskKeys.{events_of_keys};
ghost use Rattle.task_pieces.specs.TaskNames.{tasks_of};
ghost use Rattle.task_pieces.specs.inner.Naming.{AreGreatest, AreNumbers, with_text};

use crate::TaskKey;
use indexmap::IndexSet;
use std::alloc::{AllocError, Global};
use trace_types::Text;

/// Gives the number of a text, which stands last if it is new.
fn intern(texts: &mut IndexSet<Text>, text: Text) -> Result<usize, AllocError>
    ensures texts { OnOk result (texts.new.keys ≡ with_text texts.old.keys text) }
    ensures number { IfOk result (λ n. slice_get texts.new.keys n ≡ Some text) }
{
    let (number, _) = texts.insert_full(text)?;
    Ok(number)
}

/// Numbers the tasks of keys by first sight, from 0, and gives the number of each key's task. The
/// only error is out of memory.
pub(crate) fn number_tasks(
    alloc: Global,
    keys: &[TaskKey<'_>],
    tasks: &mut IndexSet<Text>,
) -> Result<Vec<u32>, AllocError>
    requires empty { tasks.old.keys ≡ [] }
    requires few { length keys.now < u32.MAX }
    ensures tasks { OnOk result (tasks.new.keys ≡ tasks_of (events_of_keys keys.now)) }
    ensures few { OnOk result (length tasks.new.keys ≤ length keys.now) }
    ensures numbers { IfOk result (λ numbers. AreNumbers tasks.new.keys keys.now numbers.items) }
{
    let mut numbers = Vec::with_capacity(alloc, keys.len())?;
    for key in keys {
        let number = intern(tasks, Text::new(alloc, key.task)?)?;
        numbers.push(number as u32)?;
    }
    Ok(numbers)
}

/// Gives the greatest of the pieces of each number. The only error is out of memory.
pub(crate) fn find_greatest(
    alloc: Global,
    numbers: &[u32],
    pieces: &[u32],
    count: usize,
) -> Result<Vec<u32>, AllocError>
    requires same { length pieces.now ≡ length numbers.now }
    requires below { All (λ number. number < count) numbers.now }
    ensures { IfOk result (λ most. AreGreatest numbers.now pieces.now count most.items) }
{
    let mut most = vec![in alloc; 0u32; count]?;
    for at in 0..numbers.len() {
        let number = numbers[at] as usize;
        most[number] = most[number].max(pieces[at]);
    }
    Ok(most)
}
