ghost use Rattle.std.specs.Prelude.{◌≡◌, ◌<◌, All, length, IfOk};
ghost use Rattle.context_forks.specs.Forks.{calls_below, context_pairs, forked_of};
ghost use Rattle.linked_groups.specs.Groups.{AreLinksBelow};
ghost use Rattle.span_calls.specs.Calls.{AreBefore, StartInOrder};

use crate::links::find_links;
use crate::marks::find_forked;
use call_trees::NumberList;
use span_calls::Call;
use std::alloc::{AllocError, Global};

/// Which contexts are forked, and which of them run beside one another.
#[derive(Debug, Drop)]
pub struct Forks {
    /// For each context whether it is forked.
    pub forked: Vec<bool>,
    /// Pairs of contexts of which calls overlap.
    pub links: Vec<(usize, usize)>,
}

/// Finds which contexts are forked, and links those that run beside one another. The only error is
/// out of memory.
pub fn find_forks(
    alloc: Global,
    calls: &[Call<'_>],
    below: &[NumberList],
    numbers: &[usize],
    count: usize,
    grace: u64,
) -> Result<Forks, AllocError>
    requires below { below.now ≡ calls_below calls.now }
    requires before { AreBefore calls.now }
    requires rise { StartInOrder calls.now }
    requires same { length numbers.now ≡ length calls.now }
    requires within { All (λ n. n < count) numbers.now }
    ensures forked { IfOk result
        (λ forks. forks.forked.items ≡ forked_of grace calls.now numbers.now count) }
    ensures links { IfOk result
        (λ forks. forks.links.items ≡ context_pairs grace calls.now numbers.now) }
    ensures within { IfOk result (λ forks. AreLinksBelow count forks.links.items) }
{
    let links = find_links(alloc, calls, below, numbers, grace)?;
    let forked = find_forked(alloc, calls, numbers, &links, count, grace)?;
    Ok(Forks { forked, links })
}
