use std::marker::Model;
use trace_types::Text;

/// A task of a digest, and a mark for each task before it. Contracts see the two.
#[derive(Debug, Drop)]
pub struct TaskRow {
    /// The task.
    pub task: Text,
    /// What is refuted of each task before it and this one, in the order of tasks.
    pub marks: Vec<u8>,
}

impl Model for TaskRow {
    ghost use Rattle.std.specs.Prelude.{List, ℕ};

    ghost Value = { List ℕ × List ℕ };

    ghost view = { λ a. (a.task, a.marks.items) };
}
