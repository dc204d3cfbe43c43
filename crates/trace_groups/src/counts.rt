ghost use Rattle.std.specs.Prelude.{◌≡◌, ◌+◌, ◌&&◌, ◌<◌, ◌^◌, All, IfOk, OnOk, length, unwrap_or, ℕ};
ghost use Rattle.std.specs.List.{IsDistinct, list_any};
ghost use Rattle.indexmap.specs.IndexMap.{get};
ghost use Rattle.trace_quality.specs.Measures.{one_if};
ghost use Rattle.trace_groups.specs.inner.Counts.{AreCounted, count_in};
ghost use Rattle.trace_groups.specs.inner.Names.{is_name};

use crate::names::{Name, begin_of, gather_names};
use event_table::GatheredEvents;
use indexmap::IndexMap;
use std::alloc::{AllocError, Global};
use std::hash::Hash;

/// How many traces that begin with the first name have the second.
pub(crate) type Counts = IndexMap<(Name, Name), usize>;

/// Gives how often a key was counted.
pub(crate) fn count_of<K: Eq + Hash>(counts: &IndexMap<K, usize>, key: &K) -> usize
    ensures { result ≡ unwrap_or (get K.eq counts.now key.now) 0 }
{
    match counts.get(key) {
        Some(count) => *count,
        None => 0,
    }
}

/// Counts a key once more.
pub(crate) fn count_key<K: Eq + Hash + Copy + Drop>(
    counts: &mut IndexMap<K, usize>,
    key: K,
) -> Result<(), AllocError>
    requires { unwrap_or (get K.eq counts.old key) 0 < usize.MAX }
    ensures { OnOk result ((other : K) → unwrap_or (get K.eq counts.new other) 0
        ≡ unwrap_or (get K.eq counts.old other) 0 + one_if (K.eq key other)) }
{
    let count = count_of(counts, &key) + 1;
    counts.insert(key, count)?;
    Ok(())
}

/// Counts the names of a trace that begins with this one.
fn count_trace(counts: &mut Counts, begin: Name, names: &[Name]) -> Result<(), AllocError>
    requires distinct { IsDistinct is_name names.now }
    requires few { (row : (ℕ × ℕ) × (ℕ × ℕ)) → count_in counts.old row < usize.MAX }
    ensures { OnOk result ((row : (ℕ × ℕ) × (ℕ × ℕ)) → count_in counts.new row
        ≡ count_in counts.old row + one_if (is_name begin row.0 && list_any (is_name row.1) names.now)) }
{
    'names: for index in 0..names.len() {
        count_key(counts, (begin, names[index]))?;
    }
    Ok(())
}

/// Counts the names of all traces.
pub(crate) fn count_names(alloc: Global, gathered: &GatheredEvents) -> Result<Counts, AllocError>
    ensures { IfOk result (AreCounted gathered.now.texts gathered.now.traces) }
{
    let mut counts = IndexMap::new(alloc);
    'traces: for index in 0..gathered.len() {
        let raw = gathered.trace(index);
        let names = gather_names(alloc, &raw)?;
        count_trace(&mut counts, begin_of(&raw), names.as_slice())?;
    }
    Ok(counts)
}
