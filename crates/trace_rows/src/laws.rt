//! How the names of a trace by numbers are those of a kept trace, by a law of the crates below.
ghost use Rattle.trace_rows.specs.inner.ShownTraces.{NamesAreShown};

use trace_types::NameText;
use trace_types::laws::numbering_is_one_to_one;

/// The names of the vertices of a trace's graph are those of the kept trace.
pub(crate) fn names_are_shown()
    ensures { NamesAreShown }
{
    numbering_is_one_to_one::<NameText>();
}
