ghost use Rattle.std.specs.Prelude.{◌≡◌, ◌<◌, ◌-◌, ℕ, IfOk, IfSome, IsTrue, length, slice_index_or};
ghost use Rattle.segment_cut.specs.inner.Keys.{AreInLineOrder, AreKeys, key_at, key_times};
ghost use Rattle.segment_cut.specs.inner.Keys.{IsKeyBefore};

use std::alloc::{AllocError, Global};

/// Tests whether one key is before another.
#[inline(always)]
fn is_key_before(a: (usize, i64, usize), b: (usize, i64, usize)) -> bool
    ensures { IsTrue result → IsKeyBefore a b }
{
    if a.0 != b.0 {
        return a.0 < b.0;
    }
    a.1 < b.1 || (a.1 == b.1 && a.2 < b.2)
}

/// Tests whether a key is after the last of these.
#[inline(always)]
fn is_after_last(keys: &[(usize, i64, usize)], key: (usize, i64, usize)) -> bool
    ensures { IsTrue result → 0 < length keys.now
        → IsKeyBefore (key_at keys.now (length keys.now - 1)) key }
{
    keys.is_empty() || is_key_before(keys[keys.len() - 1], key)
}

/// Gives for each event the index of the next one of its task, or the number of events.
fn link_tasks(alloc: Global, tasks: &[usize]) -> Result<Vec<usize>, AllocError>
    requires { (k : ℕ) → k < length tasks.now → slice_index_or tasks.now k 0 < length tasks.now }
    ensures { IfOk result (λ nexts. length nexts.items ≡ length tasks.now) }
{
    let mut nexts = vec![in alloc; tasks.len(); tasks.len()]?;
    for back in 0..tasks.len() {
        let at = tasks.len() - 1 - back;
        let first = tasks[at];
        if first != at {
            nexts[at] = nexts[first];
            nexts[first] = at;
        }
    }
    Ok(nexts)
}

/// Lists the keys of the events task by task and by line, where that is their order: where the
/// adjusted times of each task rise from line to line. Gives `None` where it is not.
pub(crate) fn list_keys_by_line(
    alloc: Global,
    tasks: &[usize],
    made: &[(usize, i64, usize)],
) -> Result<Option<Vec<(usize, i64, usize)>>, AllocError>
    requires made { AreInLineOrder tasks.now made.now }
    requires within { (k : ℕ) → k < length tasks.now
        → slice_index_or tasks.now k 0 < length tasks.now }
    ensures { IfOk result (λ r. IfSome r (λ keys.
        AreKeys tasks.now (key_times made.now) keys.items)) }
{
    let nexts = link_tasks(alloc, tasks)?;
    let mut keys: Vec<(usize, i64, usize)> = Vec::with_capacity(alloc, tasks.len())?;
    let mut at = 0;
    let mut first = 1;
    'events: while keys.len() < tasks.len() {
        if at >= tasks.len() {
            if first >= tasks.len() {
                return Ok(None);
            }
            if tasks[first] == first {
                at = first;
            }
            first += 1;
            continue;
        }
        let key = made[at];
        if !is_after_last(&keys, key) {
            return Ok(None);
        }
        keys.push(key)?;
        at = nexts[at];
    }
    Ok(Some(keys))
}
