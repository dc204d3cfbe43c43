ghost use Rattle.std.specs.Prelude.{◌≡◌, ◌<◌, length};
ghost use Rattle.span_lines.specs.Mappings.{begins_thread, head_of};
ghost use Rattle.span_lines.specs.inner.LentMappings.{IsWhole, mapping_lent};

use crate::event_names::EventNames;
use context_names::{MachineNames, TaskNames};
use span_calls::Call;
use thread_steps::StepTable;

/// What lines are told from, lent: calls, contexts and groups by number.
#[derive(Clone, Copy, Debug)]
pub(crate) struct LentMapping<'a, 's> {
    /// The calls of all requests, each caller before what it calls.
    pub(crate) calls: &'a [Call<'s>],
    /// The context of each call.
    pub(crate) numbers: &'a [usize],
    /// The steps of a thread from the start of each call to its end.
    pub(crate) steps: &'a StepTable,
    /// The call that receives the message of each call.
    pub(crate) first_far: &'a [Option<usize>],
    /// The call that answers each call last.
    pub(crate) last_far: &'a [Option<usize>],
    /// The context that the thread of each context begins with.
    pub(crate) threads: &'a [usize],
    /// The names of the events of contexts.
    pub(crate) events: &'a EventNames,
    /// The group of each context.
    pub(crate) groups: &'a [usize],
    /// The first context of each group.
    pub(crate) heads: &'a [usize],
    /// The names of the pieces of threads.
    pub(crate) tasks: &'a TaskNames,
    /// The names of machines.
    pub(crate) machines: &'a MachineNames<'s>,
}

impl LentMapping<'_, '_> {
    /// Tells whether a thread begins with a call.
    pub(crate) fn begins_thread(&self, call: usize) -> bool
        requires whole { IsWhole (mapping_lent self.now) }
        requires within { call < length self.now.calls.now }
        ensures { result ≡ begins_thread (mapping_lent self.now) call }
    {
        let context = self.numbers[call];
        self.threads[context] == context
    }

    /// Gives the first context of the group of the context of a call.
    pub(crate) fn head(&self, call: usize) -> usize
        requires whole { IsWhole (mapping_lent self.now) }
        requires within { call < length self.now.calls.now }
        ensures head { result ≡ head_of (mapping_lent self.now) call }
        ensures within { result < length self.now.threads.now }
    {
        self.heads[self.groups[self.numbers[call]]]
    }
}
