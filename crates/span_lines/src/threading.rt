ghost use Rattle.std.specs.Prelude.{◌≡◌, ◌<◌, All, length, IfOk};
ghost use Rattle.call_contexts.specs.Contexts.{AreContexts, frames_of};
ghost use Rattle.call_contexts.specs.Threads.{AreThreads};
ghost use Rattle.context_forks.specs.Forks.{calls_below, context_pairs, forked_of};
ghost use Rattle.linked_groups.specs.Groups.{groups_of};
ghost use Rattle.span_calls.specs.Calls.{AreBefore, StartInOrder};

use call_contexts::{Contexts, find_threads};
use call_trees::NumberList;
use context_forks::find_forks;
use linked_groups::find_groups;
use span_calls::Call;
use std::alloc::{AllocError, Global};

/// By contexts: which are forked, the groups of those that overlap, and the context that the thread
/// of each begins with.
#[derive(Debug, Drop)]
pub(crate) struct Threads {
    pub(crate) forked: Vec<bool>,
    pub(crate) groups: Vec<usize>,
    pub(crate) threads: Vec<usize>,
}

/// Finds the threads that run the contexts of calls. The only error is out of memory.
pub(crate) fn thread_contexts(
    alloc: Global,
    calls: &[Call<'_>],
    below: &[NumberList],
    contexts: &Contexts<'_>,
    grace: u64,
) -> Result<Threads, AllocError>
    requires before { AreBefore calls.now }
    requires rise { StartInOrder calls.now }
    requires below { below.now ≡ calls_below calls.now }
    requires contexts { AreContexts calls.now contexts.now.numbers.items
        (frames_of contexts.now.contexts.items) }
    ensures forked { IfOk result (λ t. t.forked.items ≡ forked_of grace calls.now
        contexts.now.numbers.items (length (frames_of contexts.now.contexts.items))) }
    ensures groups { IfOk result (λ t. t.groups.items
        ≡ groups_of (length (frames_of contexts.now.contexts.items))
        (context_pairs grace calls.now contexts.now.numbers.items)) }
    ensures forked_size { IfOk result
        (λ t. length t.forked.items ≡ length (frames_of contexts.now.contexts.items)) }
    ensures groups_size { IfOk result
        (λ t. length t.groups.items ≡ length (frames_of contexts.now.contexts.items)) }
    ensures grouped { IfOk result (λ t.
        All (λ g. g < length (frames_of contexts.now.contexts.items)) t.groups.items) }
    ensures threads { IfOk result (λ t.
        AreThreads (frames_of contexts.now.contexts.items) t.forked.items t.threads.items) }
{
    let count = contexts.contexts.len();
    let forks = find_forks(alloc, calls, below, &contexts.numbers, count, grace)?;
    let groups = find_groups(alloc, count, &forks.links)?;
    let threads = find_threads(alloc, &contexts.contexts, &forks.forked)?;
    Ok(Threads {
        forked: forks.forked,
        groups,
        threads,
    })
}
