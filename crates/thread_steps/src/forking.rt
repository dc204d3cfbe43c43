ghost use Rattle.std.specs.Prelude.{◌≡◌, ◌<◌, length};
ghost use Rattle.thread_steps.specs.Parts.{forks, group_of, grouping_of};
ghost use Rattle.thread_steps.specs.inner.Groupings.{IsGrouping};

/// The contexts of calls, and which of them are forked together.
#[derive(Clone, Copy, Debug)]
pub struct Forking<'a> {
    /// The number of the context of each call.
    pub numbers: &'a [usize],
    /// Whether each context is forked.
    pub forked: &'a [bool],
    /// The group of each context.
    pub groups: &'a [usize],
}

/// Tells whether a call is forked.
pub(crate) fn is_forked(forking: Forking<'_>, call: usize) -> bool
    requires grouping { IsGrouping (grouping_of forking) }
    requires within { call < length forking.numbers.now }
    ensures { result ≡ forks (grouping_of forking.entry) call }
{
    forking.forked[forking.numbers[call]]
}

/// Gives the group of a call.
pub(crate) fn group_of(forking: Forking<'_>, call: usize) -> usize
    requires grouping { IsGrouping (grouping_of forking) }
    requires within { call < length forking.numbers.now }
    ensures { result ≡ group_of (grouping_of forking.entry) call }
{
    forking.groups[forking.numbers[call]]
}
