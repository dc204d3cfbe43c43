ghost use Rattle.std.specs.Prelude.{◌≡◌, ◌↔◌, ◌*◌, ◌<◌, ◌≤◌, ℕ, IfOk, length, true};
ghost use Rattle.std.specs.List.{AllZip};
ghost use Rattle.evidence_rules.specs.Reaching.{IsImplied};
ghost use Rattle.implied_pairs.specs.Pairs.{AreBelow};
ghost use Rattle.implied_pairs.specs.inner.Matrices.{HasBetween, is_between};

use crate::reaching::reach;
use std::alloc::{AllocError, Global};

/// Tells whether a chain leads from the first number of a pair through this one to the second, and
/// this one is of another strongly connected component than either.
fn is_between(count: usize, matrix: &[bool], pair: (usize, usize), through: usize) -> bool
    requires size { length matrix.now ≡ count * count }
    requires few { count ≤ 512 }
    requires first { pair.0 < count }
    requires second { pair.1 < count }
    requires through { through < count }
    ensures { result ≡ is_between count matrix.now pair.0 pair.1 through }
{
    let (first, second) = pair;
    matrix[first * count + through]
        && matrix[through * count + second]
        && !matrix[through * count + first]
        && !matrix[second * count + through]
}

/// Tells whether a pair is implied.
fn is_implied(count: usize, matrix: &[bool], pair: (usize, usize)) -> bool
    requires size { length matrix.now ≡ count * count }
    requires few { count ≤ 512 }
    requires first { pair.0 < count }
    requires second { pair.1 < count }
    ensures { (result ≡ true) ↔ HasBetween count matrix.now pair.0 pair.1 }
{
    'numbers: for number in 0..count {
        if is_between(count, matrix, pair, number) {
            return true;
        }
    }
    false
}

/// Tells for each pair of numbers below a count whether it is implied by others: a chain of pairs
/// leads from its first number to its second through a third strongly connected component. It takes
/// time of at most the third power of the count, and a byte for each two numbers. The only error is
/// out of memory.
pub fn implied_pairs(
    alloc: Global,
    count: u32,
    pairs: &[(u32, u32)],
) -> Result<Vec<bool>, AllocError>
    requires few { count ≤ 512 }
    requires below { AreBelow count pairs.now }
    ensures { IfOk result (λ marks.
        AllZip (λ (pair : ℕ × ℕ) v. (v ≡ true) ↔ IsImplied pairs.now pair.0 pair.1)
        pairs.now marks.items) }
{
    let count = count as usize;
    let matrix = reach(alloc, count, pairs)?;
    let mut marks = Vec::with_capacity(alloc, pairs.len())?;
    'pairs: for pair in pairs {
        let places = (pair.0 as usize, pair.1 as usize);
        marks.push(is_implied(count, &matrix, places))?;
    }
    Ok(marks)
}
