ghost use Rattle.std.specs.Prelude.{◌≡◌, ◌↔◌, ◌<◌, ◌≤◌, ℕ, IfOk, length, not, slice_index_or};
ghost use Rattle.std.specs.Prelude.{false, true};
ghost use Rattle.std.specs.List.{AllZip};
ghost use Rattle.evidence_rules.specs.Reaching.{IsImplied};
ghost use Rattle.implied_pairs.specs.Laws.{AreNotImplied};
ghost use Rattle.implied_pairs.specs.Pairs.{AreBelow};

use implied_pairs::implied_pairs;
use std::alloc::{AllocError, Global};

/// Tells whether a pair is not marked.
fn is_unmarked(marks: &[bool], index: usize) -> bool
    requires { index < length marks.now }
    ensures { result ≡ not (slice_index_or marks.now index false) }
{
    !marks[index]
}

/// Takes the pairs that are not marked.
fn unmarked(
    alloc: Global,
    pairs: &[(u32, u32)],
    marks: &[bool],
) -> Result<Vec<(u32, u32)>, AllocError>
    requires { AllZip (λ (pair : ℕ × ℕ) v. (v ≡ true) ↔ IsImplied pairs.now pair.0 pair.1)
        pairs.now marks.now }
    ensures { IfOk result (λ left. AreNotImplied pairs.now left.items) }
{
    let mut left = Vec::with_capacity(alloc, pairs.len())?;
    'pairs: for index in 0..pairs.len() {
        if is_unmarked(marks, index) {
            left.push(pairs[index])?;
        }
    }
    Ok(left)
}

/// Takes the pairs that no chain of others implies, in their order. The only error is out of
/// memory.
pub fn kept_pairs(
    alloc: Global,
    count: u32,
    pairs: &[(u32, u32)],
) -> Result<Vec<(u32, u32)>, AllocError>
    requires few { count ≤ 128 }
    requires below { AreBelow count pairs.now }
    ensures { IfOk result (λ left. AreNotImplied pairs.now left.items) }
{
    let marks = implied_pairs(alloc, count, pairs)?;
    unmarked(alloc, pairs, &marks)
}
