use crate::threading::Threads;
use call_contexts::Contexts;
use call_trees::NumberList;
use span_calls::Call;

/// Calls with their contexts and threads, lent.
#[derive(Clone, Copy, Debug)]
pub(crate) struct PlacedCalls<'a, 's> {
    /// The calls.
    pub(crate) calls: &'a [Call<'s>],
    /// The calls of each, in order.
    pub(crate) below: &'a [NumberList],
    /// Their contexts.
    pub(crate) contexts: &'a Contexts<'s>,
    /// The threads of these.
    pub(crate) threads: &'a Threads,
}
