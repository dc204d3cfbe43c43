ghost use Rattle.std.specs.Prelude.{◌≡◌, ◌*◌, ◌<◌, ◌≤◌, IfOk, OnOk, length};
ghost use Rattle.implied_pairs.specs.Pairs.{AreBelow};
ghost use Rattle.graph_layers.specs.inner.Chains.{HasRow, IsMatrix, IsTable, is_pair, passes};
ghost use Rattle.graph_layers.specs.inner.Chains.{starts};

use std::alloc::{AllocError, Global};

/// Tells whether a pair is in the list.
pub(crate) fn is_pair(pairs: &[(u32, u32)], first: usize, second: usize) -> bool
    ensures { result ≡ is_pair pairs.now first second }
{
    pairs.iter().any(|pair| pair.0 as usize == first && pair.1 as usize == second)
}

/// Tells whether a box reaches another by at most one relation.
fn starts(pairs: &[(u32, u32)], row: usize, column: usize) -> bool
    ensures { result ≡ starts pairs.now row column }
{
    row == column || is_pair(pairs, row, column)
}

/// Appends what a box reaches by at most one relation.
fn push_first_row(
    matrix: &mut Vec<bool>,
    count: usize,
    pairs: &[(u32, u32)],
    row: usize,
) -> Result<(), AllocError>
    ensures { OnOk result (HasRow count (starts pairs.now row) matrix.old.items matrix.new.items) }
{
    'columns: for column in 0..count {
        matrix.push(starts(pairs, row, column))?;
    }
    Ok(())
}

/// Makes the matrix of what boxes reach by at most one relation.
fn first_matrix(alloc: Global, count: usize, pairs: &[(u32, u32)]) -> Result<Vec<bool>, AllocError>
    requires { count ≤ 128 }
    ensures { IfOk result (λ matrix. IsTable count (starts pairs.now) matrix.items) }
{
    let mut matrix = Vec::with_capacity(alloc, count * count)?;
    'rows: for row in 0..count {
        push_first_row(&mut matrix, count, pairs, row)?;
    }
    Ok(matrix)
}

/// Tells whether a box reaches another, or does through a third.
fn passes(count: usize, matrix: &[bool], through: usize, row: usize, column: usize) -> bool
    requires few { count ≤ 128 }
    requires size { length matrix.now ≡ count * count }
    requires through { through < count }
    requires row { row < count }
    requires column { column < count }
    ensures { result ≡ passes count matrix.now through row column }
{
    matrix[row * count + column]
        || (matrix[row * count + through] && matrix[through * count + column])
}

/// Appends what a box reaches, and what it does through another.
fn push_next_row(
    next: &mut Vec<bool>,
    count: usize,
    matrix: &[bool],
    through: usize,
    row: usize,
) -> Result<(), AllocError>
    requires few { count ≤ 128 }
    requires size { length matrix.now ≡ count * count }
    requires through { through < count }
    requires row { row < count }
    ensures { OnOk result
        (HasRow count (passes count matrix.now through row) next.old.items next.new.items) }
{
    'columns: for column in 0..count {
        next.push(passes(count, matrix, through, row, column))?;
    }
    Ok(())
}

/// Makes the matrix of what boxes reach, and of what they do through another.
fn next_matrix(
    alloc: Global,
    count: usize,
    matrix: &[bool],
    through: usize,
) -> Result<Vec<bool>, AllocError>
    requires few { count ≤ 128 }
    requires size { length matrix.now ≡ count * count }
    requires through { through < count }
    ensures { IfOk result (λ next. IsTable count (passes count matrix.now through) next.items) }
{
    let mut next = Vec::with_capacity(alloc, count * count)?;
    'rows: for row in 0..count {
        push_next_row(&mut next, count, matrix, through, row)?;
    }
    Ok(next)
}

/// Finds which boxes reach which over the relations: an entry for each two, by the first and then
/// by the second. The only error is out of memory.
pub(crate) fn reach(
    alloc: Global,
    count: usize,
    pairs: &[(u32, u32)],
) -> Result<Vec<bool>, AllocError>
    requires few { count ≤ 128 }
    requires below { AreBelow count pairs.now }
    ensures { IfOk result (λ matrix. IsMatrix count pairs.now matrix.items) }
{
    let mut matrix = first_matrix(alloc, count, pairs)?;
    'through: for through in 0..count {
        matrix = next_matrix(alloc, count, &matrix, through)?;
    }
    Ok(matrix)
}
