//! A law over the definitions alone: the function does nothing, and its contract is the law.
ghost use Rattle.view_rows.specs.RowLaws.{RowsAddUp};

use slow_tail::laws::paths_add_up;
use trace_paths::laws::paths_by_bits_are_one;
use trace_types::{NamedSegment, NamedTrace};

/// The two counts and the two times of a name add up to those of the latency report.
pub fn rows_add_up()
    ensures { RowsAddUp }
{
    paths_add_up::<NamedTrace, NamedSegment, u32, u32, u32>();
    paths_by_bits_are_one();
}
