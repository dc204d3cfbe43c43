ghost use Rattle.std.specs.Prelude.{◌≡◌, ◌<◌, ℕ, [], All, length, slice_index_or, IfOk};
ghost use Rattle.context_forks.specs.Forks.{calls_below};
ghost use Rattle.span_calls.specs.Calls.{AreBefore};
ghost use Rattle.thread_steps.specs.Parts.{grouping_of};
ghost use Rattle.thread_steps.specs.Steps.{call_of, steps_from};

use crate::rows::push_row;
use crate::walking::walk_rows;
use crate::{Forking, Step};
use call_trees::NumberList;
use span_calls::Call;
use std::alloc::{AllocError, Global};
use std::marker::Model;

/// The steps of threads, seen as a list of those of each call.
#[derive(Debug, Drop)]
pub struct StepTable {
    /// The steps of each call itself, up to its end, one call after another.
    steps: Vec<Step>,
    /// Where those of each call begin.
    firsts: Vec<usize>,
}

impl Model for StepTable {
    ghost use Rattle.std.specs.Prelude.{List};
    ghost use Rattle.thread_steps.specs.declared.step.Step.{Step};
    ghost use Rattle.thread_steps.specs.inner.StepRows.{AreRows, threads_in};

    ghost Value = { List (List Step) };

    ghost view = { λ a. threads_in a.steps.items a.firsts.items };

    ghost invariant = { λ a. AreRows a.steps.items a.firsts.items };
}

/// Makes the steps of all calls, by the calls below each, by the contexts of calls, and by the
/// number of each group of contexts. The only error is out of memory.
pub fn make_steps(
    alloc: Global,
    calls: &[Call<'_>],
    below: &[NumberList],
    forking: Forking<'_>,
    group_numbers: &[usize],
) -> Result<StepTable, AllocError>
    requires before { AreBefore calls.now }
    requires below { below.now ≡ calls_below calls.now }
    requires numbers { length forking.numbers.now ≡ length calls.now }
    requires contexts { All (λ x. x < length forking.forked.now) forking.numbers.now }
    requires groups { length forking.groups.now ≡ length forking.forked.now }
    requires group_numbers { All (λ g. g < length group_numbers.now) forking.groups.now }
    ensures count { IfOk result (λ table. length table ≡ length calls.now) }
    ensures threads { IfOk result (λ table. (call : ℕ) → call < length calls.now
        → slice_index_or table call [] ≡ steps_from calls.now below.now
        (grouping_of forking.entry) group_numbers.now call) }
{
    let mut steps = Vec::with_capacity(alloc, calls.len())?;
    let mut firsts = Vec::with_capacity(alloc, calls.len())?;
    'calls: for call in 0..calls.len() {
        firsts.push(steps.len())?;
        push_row(
            alloc,
            calls,
            forking,
            group_numbers,
            below[call].items(),
            call,
            &mut steps,
        )?;
    }
    Ok(StepTable { steps, firsts })
}

impl StepTable {
    /// Lists the steps of a thread from the start of a call to its end. The only error is out of
    /// memory.
    pub fn thread(&self, alloc: Global, call: usize) -> Result<Vec<Step>, AllocError>
        requires { call < length self.now }
        ensures steps { IfOk result (λ steps. steps.items ≡ slice_index_or self.now call []) }
        ensures within { IfOk result (λ steps. All (λ s. call_of s < length self.now) steps.items) }
    {
        walk_rows(alloc, &self.steps, &self.firsts, call)
    }
}
