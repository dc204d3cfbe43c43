ghost use Rattle.std.specs.Prelude.{◌≡◌, position};
ghost use Rattle.span_requests.specs.SpansOnce.{repeats_id, spans_once};
ghost use Rattle.span_requests.specs.inner.Ids.{lent_spans};
ghost use Rattle.span_requests.specs.inner.Numbering.{AreNumbered};

use crate::content::have_one_content;
use span_types::Span;

/// Finds the first span that says something else than the first one with its id.
pub(crate) fn find_repeat(input: &[Span], spans: &[&Span], numbers: &[u32]) -> Option<usize>
    requires once { lent_spans spans.now ≡ spans_once input.now }
    requires numbered { AreNumbered input.now (spans_once input.now) numbers.now }
    ensures { result ≡ position (repeats_id input.now) input.now }
{
    for index in 0..input.len() {
        if !have_one_content(spans[numbers[index] as usize], &input[index]) {
            return Some(index);
        }
    }
    None
}
