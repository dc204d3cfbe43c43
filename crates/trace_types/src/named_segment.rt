ghost use Rattle.std.specs.Prelude.{◌<◌, ◌≤ℤ◌};
ghost use Rattle.trace_types.specs.Limits.{most_names, most_tasks};

/// A segment whose name, task and element are numbers.
#[derive(Clone, Copy, Debug)]
pub struct NamedSegment {
    /// The number of its name in a catalogue, below 512.
    pub name: u32,
    /// The number of its task in the catalogue, below 64.
    pub task: u32,
    /// The number of its data element within its trace, where it has one.
    pub element: Option<u32>,
    /// The adjusted time of its start event, in nanoseconds since 1970 by the reference's clock.
    pub start: i64,
    /// The adjusted time of its end event, in the same nanoseconds.
    pub end: i64,
    ghost name_below: { name < most_names },
    ghost task_below: { task < most_tasks },
    ghost ordered: { start ≤ℤ end },
}
