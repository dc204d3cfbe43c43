ghost use Rattle.std.specs.Prelude.{◌≡◌, ◌^◌, ◌<◌, ℕ, List, All, IfOk, Some, length, map, slice_get};
ghost use Rattle.std.specs.Prelude.{sum, true};
ghost use Rattle.slow_tail.specs.declared.tail_row.TailRow.{TailRow};
ghost use Rattle.slow_tail.specs.inner.TableRows.{IsTailRowFrom};
ghost use Rattle.trace_paths.specs.NameOrders.{number_cmp};
ghost use Rattle.trace_types.specs.Listing.{ListsExactly};

use crate::TailRow;
use crate::path_tables::PathTables;
use segment_names::Catalogue;
use std::alloc::{AllocError, Global};
use trace_paths::names_in_order;

/// Adds numbers up.
fn add_up(numbers: &[u64]) -> u128
    requires { length numbers.now < 2 ^ 32 }
    ensures { result ≡ sum numbers.now }
{
    let mut sum = 0;
    'numbers: for number in numbers {
        sum += u128::from(*number);
    }
    sum
}

/// Makes the row of a name, by how long its segments last on the critical paths of slow traces and
/// of the rest.
fn make_row(name: u32, slow: &[u64], rest: &[u64]) -> TailRow
    requires slow { length slow.now < 2 ^ 32 }
    requires rest { length rest.now < 2 ^ 32 }
    ensures name { result.name ≡ name }
    ensures slow_on { result.slow_on ≡ length slow.now }
    ensures slow_sum { result.slow_sum ≡ sum slow.now }
    ensures rest_on { result.rest_on ≡ length rest.now }
    ensures rest_sum { result.rest_sum ≡ sum rest.now }
{
    TailRow {
        name,
        slow_on: slow.len() as u32,
        slow_sum: add_up(slow),
        rest_on: rest.len() as u32,
        rest_sum: add_up(rest),
    }
}

/// Makes the rows of the marked names, in name order. There are a mark and two lists for each name.
pub(crate) fn make_rows(
    alloc: Global,
    catalogue: &Catalogue,
    marked: &[bool],
    tables: &PathTables,
) -> Result<Vec<TailRow>, AllocError>
    requires marked { length marked.now ≡ length catalogue.now.names }
    requires slow { length tables.now.slow ≡ length catalogue.now.names }
    requires rest { length tables.now.rest ≡ length catalogue.now.names }
    requires short_slow { All (λ (ns : List ℕ). length ns < 2 ^ 32) tables.now.slow }
    requires short_rest { All (λ (ns : List ℕ). length ns < 2 ^ 32) tables.now.rest }
    ensures names { IfOk result (λ rows. ListsExactly (number_cmp catalogue.now.names)
        (λ n. slice_get marked.now n ≡ Some true) (map (λ (r : TailRow). r.name) rows.items)) }
    ensures each { IfOk result (λ rows.
        All (IsTailRowFrom tables.now.slow tables.now.rest) rows.items) }
{
    let names = names_in_order(alloc, catalogue, marked)?;
    let mut rows = Vec::with_capacity(alloc, names.len())?;
    'names: for name in &names {
        let slow = tables.slow.of(*name);
        let rest = tables.rest.of(*name);
        rows.push(make_row(*name, slow, rest))?;
    }
    Ok(rows)
}
