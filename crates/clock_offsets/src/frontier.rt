ghost use Rattle.std.specs.Prelude.{◌≡◌, ◌+◌, ◌<◌, Some, ℕ, IfOk, OnOk, All, length, vec_len};
ghost use Rattle.clock_offsets.specs.inner.Links.{LeadBelow, links_at};
ghost use Rattle.clock_offsets.specs.inner.Search.{LinksTo, FrontierLinksTo, depth_at, IsFrontier};
ghost use Rattle.clock_offsets.specs.inner.Search.{Visits, unvisited};

use crate::link::Link;
use std::alloc::{AllocError, Global};

/// Gives this depth to each unvisited machine that a link leads to, and adds it to the frontier.
fn visit_linked(
    links: &[Link],
    depth: usize,
    depths: &mut [Option<usize>],
    frontier: &mut Vec<usize>,
) -> Result<(), AllocError>
    requires within { LeadBelow (length depths.old) links.now }
    requires frontier { IsFrontier depth depths.old frontier.old.items }
    ensures visited { OnOk result (Visits (LinksTo links.now) depth depths.old depths.new) }
    ensures frontier { OnOk result (IsFrontier depth depths.new frontier.new.items) }
    ensures counted { OnOk result (unvisited depths.new + vec_len frontier.new
        ≡ unvisited depths.old + vec_len frontier.old) }
{
    for link in links {
        if depths[link.to].is_none() {
            depths[link.to] = Some(depth);
            frontier.push(link.to)?;
        }
    }
    Ok(())
}

/// Visits the machines of the next depth: those that the frontier's links lead to and that have not
/// been visited. They are the next frontier.
pub(crate) fn visit_next(
    alloc: Global,
    links: &[Vec<Link>],
    frontier: &[usize],
    depth: usize,
    depths: &mut [Option<usize>],
) -> Result<Vec<usize>, AllocError>
    requires frontier { All (λ v. v < length links.now) frontier.now }
    requires within { (v : ℕ) → v < length links.now → LeadBelow (length depths.old)
        (links_at links.now v) }
    requires new { (v : ℕ) → depth_at depths.old v ≡ Some depth → ⊥ }
    ensures visited { OnOk result
        (Visits (FrontierLinksTo links.now frontier.now) depth depths.old depths.new) }
    ensures frontier { IfOk result (λ next. IsFrontier depth depths.new next.items) }
    ensures counted { IfOk result (λ next.
        unvisited depths.new + vec_len next ≡ unvisited depths.old) }
{
    let mut next = Vec::new(alloc);
    for machine in frontier {
        visit_linked(&links[*machine], depth, depths, &mut next)?;
    }
    Ok(next)
}
