ghost use Rattle.std.specs.Prelude.{◌≡◌, ◌*◌, ◌<◌, ◌≤◌, ◌&&◌, ◌||◌, ◌==◌, ℕ, IfOk, length};
ghost use Rattle.implied_pairs.specs.Pairs.{AreBelow};
ghost use Rattle.implied_pairs.specs.inner.Matrices.{HasPairs, IsMatrix, at};
ghost use Rattle.implied_pairs.specs.inner.Matrices.{IsReflexive, IsSound};

use std::alloc::{AllocError, Global};

/// Lets one number reach whatever another reaches.
fn add_row(count: usize, matrix: &mut [bool], to: usize, from: usize)
    requires size { length matrix.old ≡ count * count }
    requires few { count ≤ 512 }
    requires to { to < count }
    requires from { from < count }
    ensures size { length matrix.new ≡ count * count }
    ensures added { (a b : ℕ) → a < count → b < count → at count matrix.new a b
        ≡ (at count matrix.old a b || ((a == to) && at count matrix.old from b)) }
{
    'columns: for column in 0..count {
        if matrix[from * count + column] {
            matrix[to * count + column] = true;
        }
    }
}

/// Lets each number that reaches one reach whatever that one reaches.
fn pass_on(count: usize, matrix: &mut [bool], through: usize)
    requires size { length matrix.old ≡ count * count }
    requires few { count ≤ 512 }
    requires through { through < count }
    ensures size { length matrix.new ≡ count * count }
    ensures passed { (a b : ℕ) → a < count → b < count → at count matrix.new a b
        ≡ (at count matrix.old a b
        || (at count matrix.old a through && at count matrix.old through b)) }
{
    'rows: for row in 0..count {
        if matrix[row * count + through] {
            add_row(count, matrix, row, through);
        }
    }
}

/// Makes the matrix of the pairs and of each number with itself. The only error is out of memory.
fn pairs_matrix(alloc: Global, count: usize, pairs: &[(u32, u32)]) -> Result<Vec<bool>, AllocError>
    requires few { count ≤ 512 }
    requires below { AreBelow count pairs.now }
    ensures size { IfOk result (λ matrix. length matrix.items ≡ count * count) }
    ensures reflexive { IfOk result (λ matrix. IsReflexive count matrix.items) }
    ensures pairs { IfOk result (λ matrix. HasPairs count pairs.now matrix.items) }
    ensures sound { IfOk result (λ matrix. IsSound count pairs.now matrix.items) }
{
    let mut matrix = Vec::from_elem(alloc, false, count * count)?;
    'pairs: for pair in pairs {
        matrix[pair.0 as usize * count + pair.1 as usize] = true;
    }
    'numbers: for number in 0..count {
        matrix[number * count + number] = true;
    }
    Ok(matrix)
}

/// Finds which numbers below a count reach which over the pairs: an entry for each two, by the first
/// and then by the second. The only error is out of memory.
pub(crate) fn reach(
    alloc: Global,
    count: usize,
    pairs: &[(u32, u32)],
) -> Result<Vec<bool>, AllocError>
    requires few { count ≤ 512 }
    requires below { AreBelow count pairs.now }
    ensures { IfOk result (λ matrix. IsMatrix count pairs.now matrix.items) }
{
    let mut matrix = pairs_matrix(alloc, count, pairs)?;
    'through: for through in 0..count {
        pass_on(count, &mut matrix, through);
    }
    Ok(matrix)
}
