ghost use Rattle.std.specs.Prelude.{◌≡◌, ◌^◌, ◌<◌, ◌+ℤ◌, ℕ, length, pos};
ghost use Rattle.gain_table.specs.inner.Growing.{HasRoom, HaveGrown, IsShort, raised_row, row_at};
ghost use Rattle.model_meet.specs.ModelStates.{ModelState};
ghost use Rattle.refute_tests.specs.Clearing.{HaveNamesBelow};
ghost use Rattle.trace_figures.specs.Measured.{IsMeasured};

use crate::GainRow;
use path_gains::Gain;
use path_gains::laws::gains_are_bounded;
use trace_figures::TraceFigures;
use trace_types::{NamedSegment, NamedTrace};

/// States that a segment lasts less than 2^64 nanoseconds. It does nothing.
fn lasts_a_word(_segment: NamedSegment)
    ensures { (time : ℕ) → (_segment.start +ℤ pos time) ≡ _segment.end → time < 2 ^ 64 }
{}

/// Adds a gain to a row.
fn raise_row(row: &mut GainRow, gain: Gain)
    requires room { HasRoom row.old }
    requires short { IsShort gain }
    ensures { row.new ≡ raised_row row.old gain }
{
    row.none += gain.none;
    row.half += gain.half;
}

/// Adds what the vertices of a trace gain to the rows of their segments' names. No two segments of
/// the trace have one name, so each row gets at most one gain.
pub(crate) fn add_gains(rows: &mut [GainRow], trace: &NamedTrace, figures: &TraceFigures)
    requires measured { (model : ModelState) × IsMeasured model trace.now figures.now }
    requires names { HaveNamesBelow (length rows.old) trace.now }
    requires room { (name : ℕ) → name < length rows.old → HasRoom (row_at rows.old name) }
    ensures { HaveGrown trace.now figures.now (length figures.now.order) rows.old rows.new }
{
    // For the proof alone.
    gains_are_bounded();
    let segments = trace.segments.items();
    let order = figures.order.items();
    'vertices: for vertex in 0..order.len() {
        let segment = segments[order[vertex] as usize];
        lasts_a_word(segment);
        raise_row(&mut rows[segment.name as usize], figures.gains[vertex]);
    }
}
