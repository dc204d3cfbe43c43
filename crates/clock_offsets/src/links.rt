ghost use Rattle.std.specs.Prelude.{◌≡◌, ◌-ℤ◌, IfOk, replicate, []};
ghost use Rattle.clock_offsets.specs.Messages.{IsHalf};
ghost use Rattle.clock_offsets.specs.inner.Links.{AreNumbers, AreLinks, links_of};
ghost use Rattle.clock_offsets.specs.inner.Delays.{AreLeastDelays};

use crate::link::Link;
use event_table::RawEvents;
use std::alloc::{AllocError, Global};
use std::collections::BTreeMap;

/// Halves the difference of two delays, rounded towards minus infinity.
fn half_difference(there: i64, back: i64) -> i64
    ensures { IsHalf (there -ℤ back) result }
{
    (i128::from(there) - i128::from(back)).div_euclid(2) as i64
}

/// Makes an empty list of links for each of this many machines.
fn no_links(alloc: Global, count: usize) -> Result<Vec<Vec<Link>>, AllocError>
    ensures { IfOk result (λ links. links_of links.items ≡ replicate count []) }
{
    let mut links = Vec::with_capacity(alloc, count)?;
    for _at in 0..count {
        links.push(Vec::new(alloc))?;
    }
    Ok(links)
}

/// Links each machine, by its number, to those that are paired with it.
pub(crate) fn link_machines(
    alloc: Global,
    trace: &RawEvents<'_>,
    numbers: &[usize],
    least: &BTreeMap<(usize, usize), i64>,
) -> Result<Vec<Vec<Link>>, AllocError>
    requires numbered { AreNumbers trace.now.trace.events numbers.now }
    requires delays { AreLeastDelays trace.now.trace.events numbers.now least.now }
    ensures { IfOk result (λ links. AreLinks trace.now.trace.events numbers.now links.items) }
{
    let mut links = no_links(alloc, trace.len())?;
    for (way, there) in least {
        let (from, to) = *way;
        if let Some(back) = least.get(&(to, from)).copied() {
            links[to].push(Link {
                to: from,
                offset: half_difference(*there, back),
            })?;
        }
    }
    Ok(links)
}
