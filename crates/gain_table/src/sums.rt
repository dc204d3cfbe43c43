ghost use Rattle.std.specs.Prelude.{◌≡◌, ◌<◌, ℕ, All, IfOk, length, map};
ghost use Rattle.std.specs.Borrow.{Bor};
ghost use Rattle.std.specs.List.{AllZip};
ghost use Rattle.gain_table.specs.GainRows.{AreGainRows};
ghost use Rattle.gain_table.specs.inner.Growing.{empty_row, row_at};
ghost use Rattle.model_meet.specs.ModelStates.{ModelState};
ghost use Rattle.model_meet.specs.RelationBits.{KeepsExclusion};
ghost use Rattle.refute_tests.specs.Clearing.{HaveNamesBelow};
ghost use Rattle.trace_figures.specs.Measured.{IsMeasured};
ghost use Rattle.trace_types.specs.declared.named_trace.NamedTrace.{NamedTrace};

use crate::GainRow;
use crate::adding::add_gains;
use std::alloc::{AllocError, Global};
use trace_figures::TraceFigures;
use trace_types::NamedTrace;

/// Makes a row of nothing for each number of a name.
fn empty_rows(alloc: Global, names: u32) -> Result<Vec<GainRow>, AllocError>
    ensures count { IfOk result (λ rows. length rows.items ≡ names) }
    ensures each { IfOk result (λ rows. (name : ℕ) → name < names
        → row_at rows.items name ≡ empty_row name) }
{
    let mut rows = Vec::with_capacity(alloc, names as usize)?;
    'names: for name in 0..names {
        rows.push(GainRow {
            name,
            none: 0,
            half: 0,
        })?;
    }
    Ok(rows)
}

/// Adds up what each name gains over traces, by the figures of these traces under some model: a row
/// for each number of a name, by its number. It takes one pass over the gains of the traces'
/// vertices. The names of the traces are below `names`. The only error is that memory ran out.
pub fn sum_gains(
    alloc: Global,
    names: u32,
    traces: &[&NamedTrace],
    figures: &[TraceFigures],
) -> Result<Vec<GainRow>, AllocError>
    requires below { All (λ (t : Bor NamedTrace). HaveNamesBelow names t.now) traces.now }
    requires measured { (model : ModelState)
        × AllZip (λ (t : Bor NamedTrace) f. IsMeasured model t.now f) traces.now figures.now }
    ensures { IfOk result (λ rows. (model : ModelState)
        → AllZip (λ (t : Bor NamedTrace) f. IsMeasured model t.now f) traces.now figures.now
        → AreGainRows (KeepsExclusion model.words)
        (map (λ (t : Bor NamedTrace). t.now) traces.now) names rows.items) }
{
    let mut rows = empty_rows(alloc, names)?;
    'traces: for index in 0..traces.len() {
        add_gains(&mut rows, traces[index], &figures[index]);
    }
    Ok(rows)
}
