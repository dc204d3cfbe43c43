ghost use Rattle.std.specs.Prelude.{◌≡◌, ◌<◌, ◌≤◌};
ghost use Rattle.model_meet.specs.inner.Beside.{AreExclusionsBelow, AreExclusionsBeside};
ghost use Rattle.model_meet.specs.inner.Beside.{AreOrdersBelow, AreOrdersBeside};
ghost use Rattle.model_meet.specs.inner.Beside.{ArePipesBelow, ArePipesBeside};

use crate::Model;
use crate::pair_lines::lines_between;
use trace_types::laws::relations_are_symmetric;
use trace_types::{NamedSegment, NamedTrace};

/// The numbers of lines of the model, by their kinds.
#[derive(Clone, Copy, Debug, PartialEq, Eq)]
pub struct Counts {
    /// Ordered pairs of names of which the first happens before the second.
    pub hb: u32,
    /// Pairs of names that are mutually exclusive with no fixed order.
    pub mx: u32,
    /// Ordered pairs of tasks that are a pipeline.
    pub pipe: u32,
}

/// The numbers of lines of names, by their kinds.
#[derive(Clone, Copy)]
pub(crate) struct NameLines {
    /// Ordered pairs of which the first happens before the second.
    pub hb: u32,
    /// Pairs that are mutually exclusive with no fixed order.
    pub mx: u32,
}

/// Counts the lines of a name and those with lesser numbers.
fn count_beside(model: &Model<'_>, name: u32) -> NameLines
    requires few { name < 512 }
    requires here { name < model.now.names }
    ensures orders { AreOrdersBeside model.now.words name name result.hb }
    ensures exclusions { AreExclusionsBeside model.now.words model.now.names name name result.mx }
{
    // For the proof alone.
    relations_are_symmetric::<NamedTrace, NamedSegment, u32, u32, u32>();
    let mut hb = 0;
    let mut mx = 0;
    for other in 0..name {
        let lines = lines_between(model, other, name);
        hb += u32::from(lines.before) + u32::from(lines.after);
        mx += u32::from(lines.exclusive);
    }
    NameLines { hb, mx }
}

/// Counts the lines of the model's names. It visits each pair once.
pub(crate) fn count_names(model: &Model<'_>) -> NameLines
    ensures orders { AreOrdersBelow model.now.words model.now.names result.hb }
    ensures exclusions { AreExclusionsBelow model.now.words model.now.names model.now.names
        result.mx }
{
    let names = model.names();
    let mut hb = 0;
    let mut mx = 0;
    for name in 0..names {
        let lines = count_beside(model, name);
        hb += lines.hb;
        mx += lines.mx;
    }
    NameLines { hb, mx }
}

/// Counts the pipes between a task and those with lesser numbers.
fn count_pipes_beside(model: &Model<'_>, task: u32) -> u32
    requires { task < 64 }
    ensures { ArePipesBeside model.now.words task task result }
{
    let mut pipes = 0;
    for other in 0..task {
        let to = model.lists_pipe(other, task);
        let from = model.lists_pipe(task, other);
        pipes += u32::from(to) + u32::from(from);
    }
    pipes
}

/// Counts the pipes between this many tasks. It visits each pair once.
pub(crate) fn count_pipes(model: &Model<'_>, tasks: u32) -> u32
    requires { tasks ≤ 64 }
    ensures { ArePipesBelow model.now.words tasks result }
{
    let mut pipes = 0;
    for task in 0..tasks {
        pipes += count_pipes_beside(model, task);
    }
    pipes
}
