use crate::{NameRow, TaskRow};
use std::marker::Model;

/// The table of a digest. Contracts see it as `Table`.
#[derive(Debug, Drop)]
pub struct DigestTable {
    /// How many traces there are.
    pub traces: u64,
    /// Their days, rising, in days of 86,400 seconds since 1970.
    pub days: Vec<u32>,
    /// The tasks in their order.
    pub tasks: Vec<TaskRow>,
    /// The names in their order.
    pub names: Vec<NameRow>,
}

impl Model for DigestTable {
    ghost use Rattle.std.specs.Prelude.{List, ℕ};
    ghost use Rattle.trace_types.specs.Segments.{SegmentName};
    ghost use Rattle.digest_facts.specs.Tables.{Table};

    ghost Value = { Table SegmentName (List ℕ) };

    ghost view = { λ a. record {
      traces = a.traces;
      days = a.days.items;
      tasks = a.tasks.items;
      names = a.names.items;
    } };
}
