ghost use Rattle.std.specs.Prelude.{◌≡◌, ◌-◌, ◌*◌, ◌/◌, ◌^◌, ◌<◌, ◌≤◌, IfOk, length};
ghost use Rattle.latency_ranks.specs.Buckets.{bucket_marks, buckets_of};

use crate::places::{count_later, list_places};
use std::alloc::{AllocError, Global};

/// Tells how many buckets so many traces have: as many, but at least 1 and at most 20.
pub fn bucket_count(traces: usize) -> usize
    ensures { result ≡ buckets_of traces }
{
    traces.min(20).max(1)
}

/// Tells the bucket of one of so many traces after which so many come.
fn bucket_before(traces: usize, later: usize) -> u32
    requires some { 0 < traces }
    requires few { later < 2 ^ 32 }
    ensures { result ≡ buckets_of traces - 1 - later * buckets_of traces / traces }
{
    let buckets = bucket_count(traces);
    (buckets - 1).saturating_sub(later * buckets / traces) as u32
}

/// Finds the bucket of each trace by the traces' latencies, in order: the quickest are in bucket 0,
/// and the slow ones in the last. It sorts the latencies with their indices. The only error is that
/// memory ran out.
pub fn find_buckets(alloc: Global, latencies: &[u64]) -> Result<Vec<u32>, AllocError>
    requires { length latencies.now < 2 ^ 32 }
    ensures { IfOk result (λ buckets. buckets.items ≡ bucket_marks latencies.now) }
{
    let mut sorted = list_places(alloc, latencies)?;
    sorted.sort_unstable();
    let mut marks = Vec::with_capacity(alloc, latencies.len())?;
    'latencies: for latency in latencies {
        let later = count_later(&sorted, (*latency, marks.len() as u32));
        marks.push(bucket_before(latencies.len(), later))?;
    }
    Ok(marks)
}
