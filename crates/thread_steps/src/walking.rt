ghost use Rattle.std.specs.Prelude.{◌≡◌, ◌+◌, ◌<◌, ◌++◌, All, length, IfOk, OnOk};
ghost use Rattle.thread_steps.specs.Steps.{call_of};
ghost use Rattle.thread_steps.specs.inner.StepRows.{AreRows, next_of, thread_within};

use crate::Step;
use std::alloc::{AllocError, Global};

/// Puts on a stack where a walk goes on behind the step at this index. The only error is out of
/// memory.
fn push_next(
    stack: &mut Vec<usize>,
    firsts: &[usize],
    at: usize,
    step: Step,
) -> Result<(), AllocError>
    requires within { call_of step < length firsts.now }
    requires room { at < usize.MAX }
    ensures { OnOk result (stack.new.items ≡ stack.old.items ++ next_of firsts.now at step) }
{
    match step {
        Step::Starts { call } => {
            stack.push(at + 1)?;
            stack.push(firsts[call])?;
        }
        Step::Ends { .. } => {}
        Step::Forks { .. } | Step::Joins { .. } => stack.push(at + 1)?,
    }
    Ok(())
}

/// Lists the steps of a thread from the start of a call to its end, by the steps of calls and where
/// those of each call begin. The only error is out of memory.
pub(crate) fn walk_rows(
    alloc: Global,
    steps: &[Step],
    firsts: &[usize],
    call: usize,
) -> Result<Vec<Step>, AllocError>
    requires rows { AreRows steps.now firsts.now }
    requires within { call < length firsts.now }
    ensures steps { IfOk result (λ walked.
        walked.items ≡ thread_within steps.now firsts.now (length firsts.now) call) }
    ensures within { IfOk result (λ walked.
        All (λ s. call_of s < length firsts.now) walked.items) }
{
    let mut walked = Vec::new(alloc);
    let mut stack = Vec::new(alloc);
    walked.push(Step::Starts { call })?;
    stack.push(firsts[call])?;
    'steps: while let Some(at) = stack.pop() {
        let step = steps[at];
        walked.push(step)?;
        push_next(&mut stack, firsts, at, step)?;
    }
    Ok(walked)
}
