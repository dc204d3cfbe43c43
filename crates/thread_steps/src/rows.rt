ghost use Rattle.std.specs.Prelude.{◌≡◌, ◌<◌, ◌++◌, ◌∷◌, [], All, length, OnOk};
ghost use Rattle.thread_steps.specs.Parts.{grouping_of};
ghost use Rattle.thread_steps.specs.Steps.{own_steps};
ghost use Rattle.thread_steps.specs.inner.Gaps.{steps_of_part};
ghost use Rattle.thread_steps.specs.inner.Groupings.{IsGrouping};

use crate::forking::{group_of, is_forked};
use crate::gaps::gaps_of_parts;
use crate::parts::{Part, cut_parts};
use crate::{Forking, Step};
use span_calls::Call;
use span_names::Piece;
use std::alloc::{AllocError, Global};

/// Appends the steps of a caller over a part: a call that is not forked starts, any other part is
/// forked and joined. The only error is out of memory.
fn push_part(
    steps: &mut Vec<Step>,
    forking: Forking<'_>,
    group_numbers: &[usize],
    part: Part,
    gap: Option<u64>,
) -> Result<(), AllocError>
    requires grouping { IsGrouping (grouping_of forking) }
    requires group_numbers { All (λ g. g < length group_numbers.now) forking.groups.now }
    requires within { part.first < length forking.numbers.now }
    ensures { OnOk result (steps.new.items ≡ steps.old.items
        ++ steps_of_part (grouping_of forking.entry) group_numbers.now part gap) }
{
    if !is_forked(forking, part.first) {
        steps.push(Step::Starts { call: part.first })?;
        return Ok(());
    }
    steps.push(Step::Forks { call: part.first })?;
    let piece = Piece {
        number: group_numbers[group_of(forking, part.first)] as u64,
        gap,
    };
    steps.push(Step::Joins {
        call: part.last,
        piece,
    })?;
    Ok(())
}

/// Appends the steps of a call itself, up to its end, by the calls below it. The only error is out
/// of memory.
pub(crate) fn push_row(
    alloc: Global,
    calls: &[Call<'_>],
    forking: Forking<'_>,
    group_numbers: &[usize],
    below: &[usize],
    call: usize,
    steps: &mut Vec<Step>,
) -> Result<(), AllocError>
    requires grouping { IsGrouping (grouping_of forking) }
    requires numbers { length forking.numbers.now ≡ length calls.now }
    requires group_numbers { All (λ g. g < length group_numbers.now) forking.groups.now }
    requires within { All (λ j. j < length calls.now) below.now }
    ensures { OnOk result (steps.new.items ≡ steps.old.items
        ++ own_steps calls.now (grouping_of forking.entry) group_numbers.now below.now
        ++ Step.Ends call ∷ []) }
{
    let parts = cut_parts(alloc, calls, forking, below)?;
    let gaps = gaps_of_parts(alloc, forking, &parts)?;
    'parts: for at in 0..parts.len() {
        push_part(steps, forking, group_numbers, parts[at], gaps[at])?;
    }
    steps.push(Step::Ends { call })?;
    Ok(())
}
