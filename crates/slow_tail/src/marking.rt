ghost use Rattle.std.specs.Prelude.{◌≡◌, ◌^◌, ◌<◌, ◌≤◌, Bool, count_by, IfOk, length, map, not};
ghost use Rattle.std.specs.Borrow.{Bor};
ghost use Rattle.trace_rules.specs.SlowTraces.{IsFloor, comes_after, slow_count, slow_marks};
ghost use Rattle.trace_rules.specs.SlowTraces.{slow_of, with_indices};
ghost use Rattle.trace_types.specs.declared.named_trace.NamedTrace.{NamedTrace};

use crate::slow_traces::SlowTraces;
use std::alloc::{AllocError, Global};
use trace_types::NamedTrace;

/// Lists the latencies of traces.
pub(crate) fn list_latencies(alloc: Global, traces: &[&NamedTrace]) -> Result<Vec<u64>, AllocError>
    ensures { IfOk result (λ latencies. latencies.items
        ≡ map (λ (t : Bor NamedTrace). t.now.latency) traces.now) }
{
    let mut latencies = Vec::with_capacity(alloc, traces.len())?;
    'traces: for trace in traces {
        latencies.push(trace.latency)?;
    }
    Ok(latencies)
}

/// Lists latencies with their indices.
fn list_places(alloc: Global, latencies: &[u64]) -> Result<Vec<(u64, u32)>, AllocError>
    requires { length latencies.now < 2 ^ 32 }
    ensures { IfOk result (λ places. places.items ≡ with_indices latencies.now) }
{
    let mut places = Vec::with_capacity(alloc, latencies.len())?;
    'latencies: for latency in latencies {
        places.push((*latency, places.len() as u32))?;
    }
    Ok(places)
}

/// Marks the latencies that do not come before this one, which is given with its index.
fn mark_from(alloc: Global, latencies: &[u64], first: (u64, u32)) -> Result<Vec<bool>, AllocError>
    requires { length latencies.now < 2 ^ 32 }
    ensures { IfOk result (λ marks. marks.items
        ≡ map (λ x. not (comes_after x first)) (with_indices latencies.now)) }
{
    let mut marks = Vec::with_capacity(alloc, latencies.len())?;
    'latencies: for latency in latencies {
        marks.push(first <= (*latency, marks.len() as u32))?;
    }
    Ok(marks)
}

/// Counts the slow ones of so many traces: one in twenty, rounded up.
fn count_slow(traces: usize) -> usize
    requires { traces < 2 ^ 32 }
    ensures count { result ≡ slow_count traces }
    ensures within { result ≤ traces }
{
    (5 * traces + 99) / 100
}

/// Finds which of the traces with these latencies are slow. It takes linear time on average.
pub(crate) fn find_slow(alloc: Global, latencies: &[u64]) -> Result<SlowTraces, AllocError>
    requires { length latencies.now < 2 ^ 32 }
    ensures marks { IfOk result (λ slow. slow.marks.items ≡ slow_marks latencies.now) }
    ensures count { IfOk result (λ slow. slow.count ≡ slow_count (length latencies.now)) }
    ensures exact { IfOk result (λ slow.
        count_by (λ (m : Bool). m) (slow_marks latencies.now) ≡ slow.count) }
    ensures floor { IfOk result (λ slow.
        IsFloor (slow_of latencies.now latencies.now) slow.floor) }
{
    let count = count_slow(latencies.len());
    if count == 0 {
        return Ok(SlowTraces {
            marks: Vec::new(alloc),
            count: 0,
            floor: 0,
        });
    }
    let mut places = list_places(alloc, latencies)?;
    let (_fast, first, _slow) = places.select_nth_unstable(latencies.len() - count);
    let first = *first;
    let marks = mark_from(alloc, latencies, first)?;
    Ok(SlowTraces {
        marks,
        count: count as u32,
        floor: first.0,
    })
}
