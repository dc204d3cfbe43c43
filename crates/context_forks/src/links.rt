ghost use Rattle.std.specs.Prelude.{◌≡◌, ◌<◌, ◌++◌, [], length, map, IfOk, IfSome, OnOk};
ghost use Rattle.context_forks.specs.Forks.{context_pair, context_pairs, calls_below};
ghost use Rattle.context_forks.specs.Partners.{pair_of, pairs_after};
ghost use Rattle.context_forks.specs.inner.Siblings.{AreSiblings};
ghost use Rattle.span_calls.specs.Calls.{StartInOrder};

use crate::last::last_so_far;
use crate::partners::find_partner;
use call_trees::NumberList;
use span_calls::Call;
use std::alloc::{AllocError, Global};

/// Links the context of a call with that of its partner, if it has one.
fn push_link(
    numbers: &[usize],
    partner: Option<usize>,
    call: usize,
    links: &mut Vec<(usize, usize)>,
) -> Result<(), AllocError>
    requires partner { IfSome partner (λ j. j < length numbers.now) }
    requires call { call < length numbers.now }
    ensures { OnOk result (links.new.items
        ≡ links.old.items ++ map (context_pair numbers.now) (pair_of partner call)) }
{
    if let Some(partner) = partner {
        links.push((numbers[partner], numbers[call]))?;
    }
    Ok(())
}

/// Links the contexts of the calls of one caller with those of their partners.
fn link_calls(
    alloc: Global,
    calls: &[Call<'_>],
    numbers: &[usize],
    below: &[usize],
    grace: u64,
    links: &mut Vec<(usize, usize)>,
) -> Result<(), AllocError>
    requires siblings { AreSiblings calls.now below.now }
    requires same { length numbers.now ≡ length calls.now }
    ensures { OnOk result (links.new.items ≡ links.old.items
        ++ map (context_pair numbers.now) (pairs_after calls.now grace [] below.now)) }
{
    let last = last_so_far(alloc, calls, below)?;
    for index in 0..below.len() {
        let partner = find_partner(calls, below, &last, index, grace);
        push_link(numbers, partner, below[index], links)?;
    }
    Ok(())
}

/// Links the contexts of calls with those of their partners. The only error is out of memory.
pub(crate) fn find_links(
    alloc: Global,
    calls: &[Call<'_>],
    below: &[NumberList],
    numbers: &[usize],
    grace: u64,
) -> Result<Vec<(usize, usize)>, AllocError>
    requires below { below.now ≡ calls_below calls.now }
    requires rise { StartInOrder calls.now }
    requires same { length numbers.now ≡ length calls.now }
    ensures { IfOk result (λ links. links.items ≡ context_pairs grace calls.now numbers.now) }
{
    let mut links = Vec::new(alloc);
    for at in 0..below.len() {
        link_calls(alloc, calls, numbers, below[at].items(), grace, &mut links)?;
    }
    Ok(links)
}
