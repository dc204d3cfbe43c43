ghost use Rattle.std.specs.Prelude.{◌≡◌, ◌*◌, ◌^◌, ◌<◌, ◌≤◌, List, All, IfOk, length, map, sum_by};
ghost use Rattle.std.specs.Borrow.{Bor};
ghost use Rattle.std.specs.List.{flat_map};
ghost use Rattle.refute_tests.specs.Clearing.{HaveNamesBelow};
ghost use Rattle.trace_paths.specs.NumberedPaths.{IsNamedPath};
ghost use Rattle.trace_paths.specs.Tables.{IsTableOf};
ghost use Rattle.trace_rules.specs.Numbers.{AreFigures};
ghost use Rattle.trace_rules.specs.Durations.{path_length};
ghost use Rattle.trace_types.specs.Parts.{by_number};
ghost use Rattle.trace_types.specs.declared.named_segment.NamedSegment.{NamedSegment};
ghost use Rattle.trace_types.specs.declared.named_trace.NamedTrace.{NamedTrace};

use crate::measuring::measure;
use std::alloc::{AllocError, Global};
use trace_paths::DurationTable;
use trace_rules::Figures;
use trace_types::{NamedSegment, NamedSegmentList, NamedTrace};

/// Lists how long the traces' segments last, by the numbers of their names.
pub(crate) fn tabulate_traces(
    alloc: Global,
    names: u32,
    traces: &[&NamedTrace],
) -> Result<DurationTable, AllocError>
    requires { All (λ (t : Bor NamedTrace). HaveNamesBelow names t.now) traces.now }
    ensures { IfOk result (IsTableOf names
        (flat_map (λ (t : Bor NamedTrace). t.now.segments) traces.now)) }
{
    let mut table = DurationTable::new(alloc, names)?;
    'traces: for trace in traces {
        table.add(trace.segments.items())?;
    }
    Ok(table)
}

/// Lists how long the segments on the paths last, by the numbers of their names.
pub(crate) fn tabulate_paths(
    alloc: Global,
    names: u32,
    paths: &[NamedSegmentList],
) -> Result<DurationTable, AllocError>
    requires { All (IsNamedPath names) paths.now }
    ensures { IfOk result (IsTableOf names
        (flat_map (λ (path : List NamedSegment). path) paths.now)) }
{
    let mut table = DurationTable::new(alloc, names)?;
    'paths: for path in paths {
        table.add(path.items())?;
    }
    Ok(table)
}

/// Adds up how long the segments of a path last.
fn length_of(path: &[NamedSegment]) -> u128
    requires { length path.now ≤ 512 }
    ensures length { result ≡ path_length by_number path.now }
    ensures bound { result ≤ 512 * 2 ^ 64 }
{
    let mut length = 0;
    'segments: for segment in path {
        length += u128::from(segment.end.abs_diff(segment.start));
    }
    length
}

/// Adds up the lengths of paths.
pub(crate) fn add_lengths(paths: &[NamedSegmentList]) -> u128
    requires few { length paths.now < 2 ^ 32 }
    requires short { All (λ (path : List NamedSegment). length path ≤ 512) paths.now }
    ensures { result ≡ sum_by (path_length by_number) paths.now }
{
    let mut total = 0;
    'paths: for path in paths {
        total += length_of(path.items());
    }
    total
}

/// Measures the latencies of traces.
pub(crate) fn measure_latencies(
    alloc: Global,
    traces: &[&NamedTrace],
) -> Result<Figures, AllocError>
    requires { length traces.now < 2 ^ 32 }
    ensures { IfOk result (AreFigures (map (λ (t : Bor NamedTrace). t.now.latency) traces.now)) }
{
    let mut latencies = Vec::with_capacity(alloc, traces.len())?;
    'traces: for trace in traces {
        latencies.push(trace.latency)?;
    }
    Ok(measure(&mut latencies))
}
