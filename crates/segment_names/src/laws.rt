//! Laws over the definitions alone: each function does nothing, and its contract is the law.
ghost use Rattle.std.specs.List.{enumerate_from};
ghost use Rattle.segment_names.specs.Known.{Known};
ghost use Rattle.segment_names.specs.Limits.{IsKept};
ghost use Rattle.segment_names.specs.Naming.{HasKnownNumbers, IsNamed};
ghost use Rattle.trace_types.specs.Parts.{by_number, by_text};
ghost use Rattle.trace_types.specs.Renaming.{RefuteAlike};
ghost use Rattle.trace_types.specs.declared.named_trace.NamedTrace.{NamedTrace};
ghost use Rattle.trace_types.specs.declared.trace.Trace.{Trace};

use trace_types::laws::{numbering_is_one_to_one, renamed_trace_refutes_alike};
use trace_types::{NameText, NamedSegment, NamedTrace, Segment, Text, Trace};

/// A named trace refutes of two numbers exactly what the trace refutes of the names, or of the
/// tasks, that have these numbers in the catalogue.
pub fn named_trace_refutes_alike()
    ensures { (known : Known) (named : NamedTrace) (trace : Trace) → IsKept known
        → IsNamed known named trace → RefuteAlike by_number by_text
        (enumerate_from 0 known.names) (enumerate_from 0 known.tasks) named trace }
{
    numbering_is_one_to_one::<NameText>();
    numbering_is_one_to_one::<Text>();
    renamed_trace_refutes_alike::<
        NamedTrace,
        NamedSegment,
        u32,
        u32,
        u32,
        Trace,
        Segment,
        NameText,
        Text,
        Text,
    >();
}

/// The names and tasks of a named trace are numbers of the catalogue.
pub fn named_trace_is_below()
    ensures { (known : Known) (named : NamedTrace) (trace : Trace) → IsNamed known named trace
        → HasKnownNumbers known named }
{
    numbering_is_one_to_one::<NameText>();
    numbering_is_one_to_one::<Text>();
}
