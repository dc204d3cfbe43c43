ghost use Rattle.std.specs.Prelude.{◌-◌, ◌∷◌, [], codes, decimal};
ghost use Rattle.std.specs.Fmt.{signed_decimal};
ghost use Rattle.text_rows.specs.Printing.{PrintsText};
ghost use Rattle.text_rows.specs.Rows.{row_of};

use crate::row_texts::{print_exclusion, print_order};
use evidence_rules::Between;
use itoa::Buffer;
use mystery_io::Sink;
use text_rows::{PrintFault, RowBuffer};
use trace_types::NameText;

/// Prints the row of an order, with its gaps.
pub(crate) fn print_order_gaps<S: Sink>(
    sink: &mut S,
    buffer: &mut RowBuffer,
    first: &NameText,
    second: &NameText,
    figures: Between,
) -> Result<(), PrintFault>
    ensures { PrintsText S.written S.faults result sink.old sink.new buffer.old buffer.new
        (row_of (codes "hb" ∷ first.now.0 ∷ first.now.1 ∷ first.now.2
        ∷ second.now.0 ∷ second.now.1 ∷ second.now.2
        ∷ decimal figures.traces ∷ signed_decimal figures.least
        ∷ signed_decimal figures.greatest ∷ [])) }
{
    let mut least = Buffer::new();
    let mut greatest = Buffer::new();
    let low = least.format(figures.least);
    let high = greatest.format(figures.greatest);
    print_order(sink, buffer, first, second, figures.traces, low, high)
}

/// Prints the row of a mutual exclusion, with its gap.
pub(crate) fn print_exclusion_gap<S: Sink>(
    sink: &mut S,
    buffer: &mut RowBuffer,
    first: &NameText,
    second: &NameText,
    figures: Between,
) -> Result<(), PrintFault>
    ensures { PrintsText S.written S.faults result sink.old sink.new buffer.old buffer.new
        (row_of (codes "mx" ∷ first.now.0 ∷ first.now.1 ∷ first.now.2
        ∷ second.now.0 ∷ second.now.1 ∷ second.now.2
        ∷ decimal figures.traces ∷ decimal (figures.traces - figures.early)
        ∷ decimal (figures.traces - figures.turned)
        ∷ signed_decimal figures.nearest ∷ [])) }
{
    let mut nearest = Buffer::new();
    let digits = nearest.format(figures.nearest);
    print_exclusion(sink, buffer, first, second, figures, digits)
}
