ghost use Rattle.std.specs.Prelude.{◌≡◌, ◌<◌, length, IfOk};

use span_names::{Piece, numbered_name};
use std::alloc::{AllocError, Global};
use std::marker::Model;
use trace_types::Text;

/// The names of the pieces of threads, by the number of the context that a thread begins with.
#[derive(Debug, Drop)]
pub struct TaskNames {
    bases: Vec<Text>,
    numbers: Vec<usize>,
}

impl Model for TaskNames {
    ghost use Rattle.context_names.specs.Tasks.{TaskNames as Names};

    ghost Value = { Names };

    ghost view = { λ a. record { bases = a.bases.items; numbers = a.numbers.items } };
}

impl TaskNames {
    ghost use Rattle.context_names.specs.Tasks.{task_name};

    /// Makes the names with these bases and numbers. Takes no memory.
    pub(crate) fn of(bases: Vec<Text>, numbers: Vec<usize>) -> TaskNames
        ensures { result ≡ record { bases = bases.items; numbers = numbers.items } }
    {
        TaskNames { bases, numbers }
    }

    /// Makes the name of a piece of a thread. The only error is out of memory.
    pub fn name(
        &self,
        alloc: Global,
        thread: usize,
        piece: Option<Piece>,
    ) -> Result<Text, AllocError>
        requires bases { thread < length self.now.bases }
        requires numbers { thread < length self.now.numbers }
        ensures { IfOk result (λ name. name ≡ task_name self.now thread piece) }
    {
        let base = self.bases[thread].as_str();
        numbered_name(alloc, base, self.numbers[thread] as u64, piece)
    }
}
