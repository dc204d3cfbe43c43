ghost use Rattle.std.specs.Prelude.{◌≡◌, ◌^◌, ◌<◌, ℕ, List, All, length, map, nat_lt};
ghost use Rattle.std.specs.Prelude.{slice_index_or};
ghost use Rattle.std.specs.Prelude.{IfOk};
ghost use Rattle.trace_paths.specs.Tables.{list_at};
ghost use Rattle.trace_rules.specs.Numbers.{AreFigures};
ghost use Rattle.trace_rules.specs.declared.figures.Figures.{Figures};
ghost use Rattle.latency_report.specs.inner.TableRows.{AreRowsFrom};

use crate::SegmentRow;
use crate::measuring::{measure, sum_and_greatest};
use segment_names::Catalogue;
use std::alloc::{AllocError, Global};
use trace_paths::{DurationTable, names_in_order};
use trace_rules::Figures;

/// Measures each list of a table, which it uses up.
fn measure_each(alloc: Global, table: DurationTable) -> Result<Vec<Figures>, AllocError>
    requires { All (λ (ns : List ℕ). length ns < 2 ^ 32) table }
    ensures count { IfOk result (λ figures. length figures.items ≡ length table) }
    ensures figures { IfOk result (λ figures. (n : ℕ) (d : Figures) → n < length table
        → AreFigures (list_at table n) (slice_index_or figures.items n d)) }
{
    let mut lists = table.into_lists();
    let none = Figures {
        count: 0,
        sum: 0,
        median: 0,
        greatest: 0,
    };
    let mut figures = vec![in alloc; none; lists.len()]?;
    'lists: while let Some(mut list) = lists.pop() {
        figures[lists.len()] = measure(&mut list);
    }
    Ok(figures)
}

/// Marks the figures of one number or more.
fn mark(alloc: Global, figures: &[Figures]) -> Result<Vec<bool>, AllocError>
    ensures { IfOk result (λ marked. marked.items
        ≡ map (λ (f : Figures). nat_lt 0 f.count) figures.now) }
{
    let mut marked = Vec::with_capacity(alloc, figures.len())?;
    'figures: for each in figures {
        marked.push(0 < each.count)?;
    }
    Ok(marked)
}

/// Makes the rows of the names that have a duration, in name order, by the table of all durations,
/// which it uses up, and that of those on critical paths. There is a list for each name.
pub(crate) fn make_rows(
    alloc: Global,
    catalogue: &Catalogue,
    durations: DurationTable,
    on_paths: &DurationTable,
) -> Result<Vec<SegmentRow>, AllocError>
    requires names { length durations ≡ length catalogue.now.names }
    requires steps { length on_paths.now ≡ length catalogue.now.names }
    requires short { All (λ (ns : List ℕ). length ns < 2 ^ 32) durations }
    requires short_steps { All (λ (ns : List ℕ). length ns < 2 ^ 32) on_paths.now }
    ensures { IfOk result (λ rows. AreRowsFrom catalogue.now.names durations on_paths.now
        rows.items) }
{
    let figures = measure_each(alloc, durations)?;
    let marked = mark(alloc, &figures)?;
    let names = names_in_order(alloc, catalogue, &marked)?;
    let mut rows = Vec::with_capacity(alloc, names.len())?;
    'names: for name in &names {
        let steps = on_paths.of(*name);
        let (sum, _greatest) = sum_and_greatest(steps);
        rows.push(SegmentRow {
            name: *name,
            figures: figures[*name as usize],
            on_path: steps.len() as u32,
            on_path_sum: sum,
        })?;
    }
    Ok(rows)
}
