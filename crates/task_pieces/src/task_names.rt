ghost use Rattle.std.specs.Prelude.{◌≡◌, ◌<◌, ◌+◌, ◌-◌, ◌*◌, [], length, Some, slice_get, IfOk};
ghost use Rattle.std.specs.Prelude.{slice_index_or};
ghost use Rattle.task_pieces.specs.TaskKeys.{AreIndexed, events_of_keys};
ghost use Rattle.task_pieces.specs.TaskNames.{names_of};
ghost use Rattle.task_pieces.specs.inner.Naming.{AreThere};

use crate::TaskKey;
use crate::piece_names::{PieceNames, name_pieces};
use crate::piece_numbers::number_pieces;
use crate::task_numbers::{find_greatest, number_tasks};
use indexmap::IndexSet;
use std::alloc::{AllocError, Global};
use std::marker::Model;
use trace_types::Text;

/// The name of the piece of its task that each event is in, seen as the list of these names.
#[derive(Drop)]
pub struct TaskNames {
    names: Vec<PieceNames>,
    numbers: Vec<u32>,
    pieces: Vec<u32>,
}

impl Model for TaskNames {
    ghost use Rattle.std.specs.Prelude.{List, ℕ};
    ghost use Rattle.task_pieces.specs.inner.Naming.{AreThere, names_under};

    ghost Value = { List (List ℕ) };

    ghost view = { λ a. names_under a.names.items a.numbers.items a.pieces.items };

    ghost invariant = { λ a. AreThere a.names.items a.numbers.items a.pieces.items };
}

/// Lends the name of the event at this index.
fn find_name<'n>(names: &'n [PieceNames], numbers: &[u32], pieces: &[u32], index: usize) -> &'n Text
    requires there { AreThere names.now numbers.now pieces.now }
    requires within { index < length numbers.now }
    ensures { result.now
        ≡ slice_index_or (slice_index_or names.now (slice_index_or numbers.now index 0) [])
        (slice_index_or pieces.now index 0 - 1) [] }
{
    let piece = pieces[index] as usize - 1;
    let names = names[numbers[index] as usize].names();
    &names[piece]
}

impl TaskNames {
    /// Names the pieces of the tasks of events. The only error is out of memory.
    pub fn new(alloc: Global, keys: Vec<TaskKey<'_>>) -> Result<TaskNames, AllocError>
        requires indexed { AreIndexed keys.items }
        requires few { 2 * length keys.items + 16 < u32.MAX }
        ensures { IfOk result (λ names. names ≡ names_of (events_of_keys keys.entry.items)) }
    {
        let mut tasks = IndexSet::new(alloc);
        let numbers = number_tasks(alloc, &keys, &mut tasks)?;
        let pieces = number_pieces(alloc, keys)?;
        let most = find_greatest(alloc, &numbers, &pieces, tasks.len())?;
        let names = name_pieces(alloc, &tasks, &most)?;
        Ok(TaskNames {
            names,
            numbers,
            pieces,
        })
    }

    /// Lends the name of the event at this index.
    pub fn name(&self, index: usize) -> &Text
        requires { index < length self.now }
        ensures { slice_get self.now index ≡ Some result.now }
    {
        find_name(&self.names, &self.numbers, &self.pieces, index)
    }
}
