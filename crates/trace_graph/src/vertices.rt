ghost use Rattle.std.specs.Prelude.{◌≡◌, IfOk, map};
ghost use Rattle.trace_graph.specs.inner.Keys.{AreKeys, duration_of, index_in, name_in};

use std::alloc::{AllocError, Global};
use trace_types::NamedSegment;

/// Lists the index of each vertex's segment.
pub(crate) fn indices_of(alloc: Global, keys: &[(i64, i64, u32)]) -> Result<Vec<u32>, AllocError>
    ensures { IfOk result (λ order. order.items ≡ map index_in keys.now) }
{
    let mut order = Vec::with_capacity(alloc, keys.len())?;
    for key in keys {
        order.push(key.2)?;
    }
    Ok(order)
}

/// Lists the duration of each vertex, in nanoseconds.
pub(crate) fn durations_of(alloc: Global, keys: &[(i64, i64, u32)]) -> Result<Vec<u64>, AllocError>
    ensures { IfOk result (λ weights. weights.items ≡ map duration_of keys.now) }
{
    let mut weights = Vec::with_capacity(alloc, keys.len())?;
    for key in keys {
        weights.push(key.1.abs_diff(key.0))?;
    }
    Ok(weights)
}

/// Lists the name of each vertex's segment.
pub(crate) fn names_of(
    alloc: Global,
    segments: &[NamedSegment],
    keys: &[(i64, i64, u32)],
) -> Result<Vec<u32>, AllocError>
    requires { AreKeys segments.now keys.now }
    ensures { IfOk result (λ names. names.items ≡ map (name_in segments.now) keys.now) }
{
    let mut names = Vec::with_capacity(alloc, keys.len())?;
    for key in keys {
        names.push(segments[key.2 as usize].name)?;
    }
    Ok(names)
}
