ghost use Rattle.std.specs.Prelude.{◌-◌, ◌∷◌, [], codes, decimal};
ghost use Rattle.text_rows.specs.Printing.{PrintsText};
ghost use Rattle.text_rows.specs.Rows.{figure, row_of};

use crate::TracePlace;
use evidence_rules::{Between, Sharing};
use mystery_io::Sink;
use text_rows::{Field, PrintFault, RowBuffer, print_row};
use trace_types::{NameText, Text};

/// Prints the header: how many traces are kept, and how many rows of each kind follow.
pub(crate) fn print_counts<S: Sink>(
    sink: &mut S,
    buffer: &mut RowBuffer,
    traces: u32,
    told: (usize, usize, usize),
    nearly: u128,
) -> Result<(), PrintFault>
    ensures { PrintsText S.written S.faults result sink.old sink.new buffer.old buffer.new
        (row_of (codes "evidence"
        ∷ figure (codes "traces") traces
        ∷ figure (codes "hb") told.0
        ∷ figure (codes "mx") told.1
        ∷ figure (codes "pipe") told.2
        ∷ figure (codes "nearly") nearly ∷ [])) }
{
    let (orders, exclusions, pipes) = told;
    print_row(
        sink,
        buffer,
        &[
            Field::Word("evidence"),
            Field::Figure("traces", u128::from(traces)),
            Field::Figure("hb", orders as u128),
            Field::Figure("mx", exclusions as u128),
            Field::Figure("pipe", pipes as u128),
            Field::Figure("nearly", nearly),
        ],
    )
}

/// Prints the row of an order, whose gaps are given as digits.
pub(crate) fn print_order<'t, S: Sink>(
    sink: &mut S,
    buffer: &mut RowBuffer,
    first: &'t NameText,
    second: &'t NameText,
    traces: u32,
    least: &'t str,
    greatest: &'t str,
) -> Result<(), PrintFault>
    ensures { PrintsText S.written S.faults result sink.old sink.new buffer.old buffer.new
        (row_of (codes "hb" ∷ first.now.0 ∷ first.now.1 ∷ first.now.2
        ∷ second.now.0 ∷ second.now.1 ∷ second.now.2
        ∷ decimal traces ∷ least.now ∷ greatest.now ∷ [])) }
{
    print_row(
        sink,
        buffer,
        &[
            Field::Word("hb"),
            Field::Word(first.task.as_str()),
            Field::Word(first.start.as_str()),
            Field::Word(first.end.as_str()),
            Field::Word(second.task.as_str()),
            Field::Word(second.start.as_str()),
            Field::Word(second.end.as_str()),
            Field::Number(u128::from(traces)),
            Field::Word(least),
            Field::Word(greatest),
        ],
    )
}

/// Prints the row of a mutual exclusion, whose gap is given as digits.
pub(crate) fn print_exclusion<'t, S: Sink>(
    sink: &mut S,
    buffer: &mut RowBuffer,
    first: &'t NameText,
    second: &'t NameText,
    figures: Between,
    nearest: &'t str,
) -> Result<(), PrintFault>
    ensures { PrintsText S.written S.faults result sink.old sink.new buffer.old buffer.new
        (row_of (codes "mx" ∷ first.now.0 ∷ first.now.1 ∷ first.now.2
        ∷ second.now.0 ∷ second.now.1 ∷ second.now.2
        ∷ decimal figures.traces ∷ decimal (figures.traces - figures.early)
        ∷ decimal (figures.traces - figures.turned) ∷ nearest.now ∷ [])) }
{
    let in_order = figures.traces.saturating_sub(figures.early);
    let in_reverse = figures.traces.saturating_sub(figures.turned);
    print_row(
        sink,
        buffer,
        &[
            Field::Word("mx"),
            Field::Word(first.task.as_str()),
            Field::Word(first.start.as_str()),
            Field::Word(first.end.as_str()),
            Field::Word(second.task.as_str()),
            Field::Word(second.start.as_str()),
            Field::Word(second.end.as_str()),
            Field::Number(u128::from(figures.traces)),
            Field::Number(u128::from(in_order)),
            Field::Number(u128::from(in_reverse)),
            Field::Word(nearest),
        ],
    )
}

/// Prints the row of a relation of two names that few traces refute, with the first that does.
pub(crate) fn print_nearly<'t, S: Sink>(
    sink: &mut S,
    buffer: &mut RowBuffer,
    kind: &'t str,
    first: &'t NameText,
    second: &'t NameText,
    counts: (u32, u32),
    trace: &'t TracePlace<'t>,
) -> Result<(), PrintFault>
    ensures { PrintsText S.written S.faults result sink.old sink.new buffer.old buffer.new
        (row_of (codes "nearly" ∷ kind.now ∷ first.now.0 ∷ first.now.1 ∷ first.now.2
        ∷ second.now.0 ∷ second.now.1 ∷ second.now.2
        ∷ decimal counts.0 ∷ decimal counts.1
        ∷ decimal trace.now.day ∷ decimal trace.now.index ∷ trace.now.request.now ∷ [])) }
{
    print_row(
        sink,
        buffer,
        &[
            Field::Word("nearly"),
            Field::Word(kind),
            Field::Word(first.task.as_str()),
            Field::Word(first.start.as_str()),
            Field::Word(first.end.as_str()),
            Field::Word(second.task.as_str()),
            Field::Word(second.start.as_str()),
            Field::Word(second.end.as_str()),
            Field::Number(u128::from(counts.0)),
            Field::Number(u128::from(counts.1)),
            Field::Number(u128::from(trace.day)),
            Field::Number(u128::from(trace.index)),
            Field::Word(trace.request.as_str()),
        ],
    )
}

/// Prints the row of a pipeline.
pub(crate) fn print_pipe<'t, S: Sink>(
    sink: &mut S,
    buffer: &mut RowBuffer,
    from: &'t Text,
    to: &'t Text,
    figures: Sharing,
) -> Result<(), PrintFault>
    ensures { PrintsText S.written S.faults result sink.old sink.new buffer.old buffer.new
        (row_of (codes "pipe" ∷ from.now ∷ to.now
        ∷ decimal figures.traces ∷ decimal figures.elements ∷ [])) }
{
    print_row(
        sink,
        buffer,
        &[
            Field::Word("pipe"),
            Field::Word(from.as_str()),
            Field::Word(to.as_str()),
            Field::Number(u128::from(figures.traces)),
            Field::Number(figures.elements),
        ],
    )
}

/// Prints the row of a pipeline that few traces refute, with the first that does.
pub(crate) fn print_nearly_pipe<'t, S: Sink>(
    sink: &mut S,
    buffer: &mut RowBuffer,
    from: &'t Text,
    to: &'t Text,
    figures: Sharing,
    trace: &'t TracePlace<'t>,
) -> Result<(), PrintFault>
    ensures { PrintsText S.written S.faults result sink.old sink.new buffer.old buffer.new
        (row_of (codes "nearly" ∷ codes "pipe" ∷ from.now ∷ to.now
        ∷ decimal figures.traces ∷ decimal figures.refuted
        ∷ decimal trace.now.day ∷ decimal trace.now.index ∷ trace.now.request.now ∷ [])) }
{
    print_row(
        sink,
        buffer,
        &[
            Field::Word("nearly"),
            Field::Word("pipe"),
            Field::Word(from.as_str()),
            Field::Word(to.as_str()),
            Field::Number(u128::from(figures.traces)),
            Field::Number(u128::from(figures.refuted)),
            Field::Number(u128::from(trace.day)),
            Field::Number(u128::from(trace.index)),
            Field::Word(trace.request.as_str()),
        ],
    )
}
