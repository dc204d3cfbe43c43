ghost use Rattle.std.specs.Prelude.{◌≡◌, ◌*◌, length};

use evidence_rules::Sharing;
use std::marker::Model;

/// The figures of the elements that each two of some tasks share, seen as the number of tasks and
/// the list of the figures, by the first task and then by the second.
#[derive(Drop)]
pub struct SharingTable {
    tasks: u32,
    figures: Vec<Sharing>,
    ghost long: { length figures.items ≡ tasks * tasks },
}

impl Model for SharingTable {
    ghost use Rattle.task_rows.specs.Tables.{TableState};

    ghost Value = { TableState };

    ghost view = { λ t. record { tasks = t.tasks; figures = t.figures.items } };
}

impl SharingTable {
    ghost use Rattle.std.specs.Prelude.{◌≡◌, ◌*◌, ◌<◌, length};
    ghost use Rattle.task_rows.specs.Tables.{figures_of};

    /// Makes the table of these figures.
    pub fn of(tasks: u32, figures: Vec<Sharing>) -> SharingTable
        requires { length figures.items ≡ tasks * tasks }
        ensures { result ≡ record { tasks = tasks; figures = figures.items } }
    {
        SharingTable { tasks, figures }
    }

    /// Gives the figures of two tasks. It takes no memory.
    pub fn between(&self, first: u32, second: u32) -> Sharing
        requires first { first < self.now.tasks }
        requires second { second < self.now.tasks }
        ensures { result ≡ figures_of self.now first second }
    {
        self.figures[first as usize * self.tasks as usize + second as usize]
    }
}
