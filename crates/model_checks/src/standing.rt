ghost use Rattle.std.specs.Prelude.{◌≡◌, ◌↔◌, ◌&&◌, not, IsTrue, List};
ghost use Rattle.trace_types.specs.declared.trace.Trace.{Trace};
ghost use Rattle.trace_types.specs.NameOrder.{name_cmp};
ghost use Rattle.trace_types.specs.Parts.{by_text};
ghost use Rattle.trace_types.specs.Relations.{HappensBefore, ExcludesUnordered};
ghost use Rattle.model_checks.specs.inner.Answers.{IsAnswer};

use crate::refuted::Refuted;
use trace_types::NameText;

/// The lines of the model that two names have.
#[derive(Clone, Copy)]
pub(crate) struct Standing {
    /// The first happens before the second.
    pub happens_before: bool,
    /// They are mutually exclusive in no fixed order, and the first has the lesser name.
    pub excludes_unordered: bool,
}

/// Tells whether the first of two names happens before the second.
fn happens_before(differ: bool, refuted: Refuted) -> bool
    ensures { result ≡ (differ && refuted.apart && not refuted.before) }
{
    differ && refuted.apart && !refuted.before
}

/// Tells whether two names, the lesser first, are mutually exclusive in no fixed order.
fn excludes_unordered(rises: bool, refuted: Refuted) -> bool
    ensures { result ≡
        (rises && refuted.apart && not refuted.exclusive && refuted.before && refuted.after) }
{
    rises && refuted.apart && !refuted.exclusive && refuted.before && refuted.after
}

/// Gives the relations of two names, given which relations the traces refute.
pub(crate) fn standing_of(refuted: Refuted, a: &NameText, b: &NameText) -> Standing
    ensures before { (traces : List Trace) → IsAnswer traces a.now b.now refuted
        → IsTrue result.happens_before ↔ HappensBefore by_text traces a.now b.now }
    ensures exclusive { (traces : List Trace) → IsAnswer traces a.now b.now refuted
        → IsTrue result.excludes_unordered ↔ ExcludesUnordered by_text name_cmp traces a.now b.now }
{
    Standing {
        happens_before: happens_before(a != b, refuted),
        excludes_unordered: excludes_unordered(a < b, refuted),
    }
}
