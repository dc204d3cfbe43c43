ghost use Rattle.std.specs.Prelude.{IfOk};
ghost use Rattle.task_sharings.specs.inner.Traces.{AreListsOf};

use crate::pipes::{refutes_pipe, words_of};
use crate::staying::refutes_itself;
use shared_elements::{count_common, list_elements};
use std::alloc::{AllocError, Global};
use trace_types::NamedTrace;
use word_rows::Sheet;

/// What the tasks of one trace share: the elements of each task below a number, and the words that
/// tell which pipes the trace refutes.
#[derive(Drop)]
pub(crate) struct TraceShares<'a> {
    pub trace: &'a NamedTrace,
    pub tasks: u32,
    pub lists: Vec<Vec<u32>>,
    pub words: Sheet,
}

/// Lists the elements of each task below a number, rising.
fn list_all(alloc: Global, trace: &NamedTrace, tasks: u32) -> Result<Vec<Vec<u32>>, AllocError>
    ensures { IfOk result (λ lists. AreListsOf trace.now tasks lists.items) }
{
    let mut lists = Vec::with_capacity(alloc, tasks as usize)?;
    'tasks: for task in 0..tasks {
        lists.push(list_elements(alloc, trace, task)?)?;
    }
    Ok(lists)
}

impl<'a> TraceShares<'a> {
    ghost use Rattle.std.specs.Prelude.{◌≡◌, ◌↔◌, ◌<◌, ◌≤◌, ℕ, IfOk, false, true};
    ghost use Rattle.evidence_rules.specs.Sharings.{Share};
    ghost use Rattle.task_sharings.specs.inner.Traces.{AreShares};
    ghost use Rattle.shared_elements.specs.Elements.{IsElementOf};
    ghost use Rattle.trace_types.specs.Listing.{AreExactly};
    ghost use Rattle.trace_types.specs.Parts.{by_number};
    ghost use Rattle.trace_types.specs.Pipelines.{RefutesPipe};

    /// Finds what the tasks below a number share in a trace. The only error is out of memory.
    pub(crate) fn of(
        alloc: Global,
        trace: &'a NamedTrace,
        tasks: u32,
    ) -> Result<TraceShares<'a>, AllocError>
        requires { tasks ≤ 64 }
        ensures shares { IfOk result AreShares }
        ensures trace { IfOk result (λ s. s.trace.now ≡ trace.now) }
        ensures tasks { IfOk result (λ s. s.tasks ≡ tasks) }
    {
        Ok(TraceShares {
            trace,
            tasks,
            lists: list_all(alloc, trace, tasks)?,
            words: words_of(alloc, trace)?,
        })
    }

    /// Tells whether the task has an element.
    pub(crate) fn has_elements(&self, task: u32) -> bool
        requires shares { AreShares self.now }
        requires task { task < self.now.tasks }
        ensures { result ≡ false → (e : ℕ) → IsElementOf self.now.trace.now task e → ⊥ }
    {
        !self.lists[task as usize].is_empty()
    }

    /// Counts the elements that two tasks share.
    pub(crate) fn count(&self, from: u32, to: u32) -> u64
        requires shares { AreShares self.now }
        requires first { from < self.now.tasks }
        requires second { to < self.now.tasks }
        ensures { AreExactly (Share by_number self.now.trace.now from to) result }
    {
        count_common(&self.lists[from as usize], &self.lists[to as usize])
    }

    /// Tells whether the trace refutes that elements pass from the one task to the other.
    pub(crate) fn refutes(&self, from: u32, to: u32) -> bool
        requires shares { AreShares self.now }
        requires first { from < self.now.tasks }
        requires second { to < self.now.tasks }
        ensures { (result ≡ true) ↔ RefutesPipe by_number from to self.now.trace.now }
    {
        if from == to {
            return refutes_itself(self.trace, from, &self.lists[from as usize]);
        }
        refutes_pipe(&self.words, from, to)
    }
}
