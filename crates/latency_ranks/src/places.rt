ghost use Rattle.std.specs.Prelude.{◌≡◌, ◌^◌, ◌<◌, ◌≤◌, IfOk, count_by, length};
ghost use Rattle.std.specs.List.Sorted.{IsSortedBy};
ghost use Rattle.trace_rules.specs.SlowTraces.{comes_after, with_indices};

use std::alloc::{AllocError, Global};

/// Lists latencies with their indices.
pub(crate) fn list_places(alloc: Global, latencies: &[u64]) -> Result<Vec<(u64, u32)>, AllocError>
    requires { length latencies.now < 2 ^ 32 }
    ensures { IfOk result (λ places. places.items ≡ with_indices latencies.now) }
{
    let mut places = Vec::with_capacity(alloc, latencies.len())?;
    'latencies: for latency in latencies {
        places.push((*latency, places.len() as u32))?;
    }
    Ok(places)
}

/// Counts the places of a sorted list that come after this one.
pub(crate) fn count_later(sorted: &[(u64, u32)], place: (u64, u32)) -> usize
    requires sorted { IsSortedBy comes_after sorted.now }
    requires few { length sorted.now < 2 ^ 32 }
    ensures later { result ≡ count_by (comes_after place) sorted.now }
    ensures few { result ≤ length sorted.now }
{
    let mut low = 0;
    let mut high = sorted.len();
    'halving: while low < high {
        let middle = low + (high - low) / 2;
        if sorted[middle] <= place {
            low = middle + 1;
        } else {
            high = middle;
        }
    }
    sorted.len() - low
}
