ghost use Rattle.std.specs.Prelude.{◌≡◌, ◌↔◌, ◌<◌, ◌++◌, ◌∷◌, [], ℕ, List, length, IsTrue, IfOk};
ghost use Rattle.std.specs.Prelude.{OnOk, Some, slice_get, if◌then◌else◌};
ghost use Rattle.std.specs.Cmp.Lexicographic.{slice_cmp};
ghost use Rattle.std.specs.Ordering.{nat_cmp};
ghost use Rattle.model_meet.specs.RelationBits.{HasPipe};
ghost use Rattle.trace_types.specs.Listing.{ListsExactly};
ghost use Rattle.trace_types.specs.NameOrder.{pair_cmp};
ghost use Rattle.view_rows.specs.inner.Growing.{AppendsExactly};
ghost use Rattle.kept_names.specs.Listings.{AreItemsBelow};
ghost use Rattle.view_rows.specs.inner.Listings.{IsPipe};

use crate::task_pair::TaskPair;
use kept_names::Listed;
use model_meet::Model;
use std::alloc::{AllocError, Global};
use trace_types::Text;

/// Tells whether the model lists a pipe from one task to another. None is a pipe to itself.
fn is_pipe(model: &Model<'_>, from: u32, to: u32) -> bool
    requires from { from < 64 }
    requires to { to < 64 }
    ensures { IsTrue result ↔ HasPipe model.now.words from to }
{
    from != to && model.lists_pipe(from, to)
}

/// Appends the pair where it is wanted.
fn push_where<'a>(
    wanted: bool,
    pairs: &mut Vec<TaskPair<'a>>,
    from: &Listed<'a, Text>,
    to: &Listed<'a, Text>,
) -> Result<(), AllocError>
    ensures { OnOk result (pairs.new.items ≡ (if wanted
        then pairs.old.items ++ (from.now.0, to.now.0) ∷ [] else pairs.old.items)) }
{
    if wanted {
        pairs.push(TaskPair {
            from: from.text,
            to: to.text,
        })?;
    }
    Ok(())
}

/// Appends the pipes from the task at this place.
fn add_row<'a>(
    model: &Model<'_>,
    tasks: &[Listed<'a, Text>],
    at: usize,
    pairs: &mut Vec<TaskPair<'a>>,
) -> Result<(), AllocError>
    requires listed { AreItemsBelow (slice_cmp nat_cmp) 64 tasks.now }
    requires within { at < length tasks.now }
    ensures { OnOk result ((first : List ℕ × ℕ) → slice_get tasks.now at ≡ Some first
        → AppendsExactly (pair_cmp (slice_cmp nat_cmp))
        (λ pair. (pair.0 ≡ first.0) × IsPipe tasks.now model.now.words pair.0 pair.1)
        pairs.old.items pairs.new.items) }
{
    let first = &tasks[at];
    let from = first.number();
    for place in 0..tasks.len() {
        let second = &tasks[place];
        let to = second.number();
        let wanted = is_pipe(model, from, to);
        push_where(wanted, pairs, first, second)?;
    }
    Ok(())
}

/// Lists the pipelines between the tasks, by the giving task and then by the taking one. It asks
/// the model for each ordered pair once. The only error is out of memory.
pub(crate) fn task_pairs<'a>(
    alloc: Global,
    model: &Model<'_>,
    tasks: &[Listed<'a, Text>],
) -> Result<Vec<TaskPair<'a>>, AllocError>
    requires { AreItemsBelow (slice_cmp nat_cmp) 64 tasks.now }
    ensures { IfOk result (λ pairs. ListsExactly (pair_cmp (slice_cmp nat_cmp))
        (λ pair. IsPipe tasks.now model.now.words pair.0 pair.1) pairs.items) }
{
    let mut pairs = Vec::new(alloc);
    for at in 0..tasks.len() {
        add_row(model, tasks, at, &mut pairs)?;
    }
    Ok(pairs)
}
