//! A law over the definitions alone: the function does nothing, and its contract is the law.
ghost use Rattle.span_reading_laws.specs.SpanReadings.{TextOfSpansIsReadAgain};

use reading_laws::laws::good_lines_are_read_again;
use span_laws::laws::lines_are_good;

/// The text of spans as readers give them is read again as the events of their requests.
pub fn text_of_spans_is_read_again()
    ensures { TextOfSpansIsReadAgain }
{
    lines_are_good();
    good_lines_are_read_again();
}
