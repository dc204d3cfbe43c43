ghost use Rattle.std.specs.Prelude.{◌≡◌, OnOk};
ghost use Rattle.span_lines.specs.FoldedSpans.{folded_spans};

use span_names::fold_name;
use span_types::Span;
use std::alloc::{AllocError, Global};

/// Makes one name of those of spans that differ in ids alone. The only error is out of memory.
pub fn fold_names(alloc: Global, spans: &mut [Span]) -> Result<(), AllocError>
    ensures { OnOk result (spans.new ≡ folded_spans spans.old) }
{
    for at in 0..spans.len() {
        let name = fold_name(alloc, spans[at].name.as_str())?;
        spans[at].name = name;
    }
    Ok(())
}
