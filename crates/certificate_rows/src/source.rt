ghost use Rattle.std.specs.Prelude.{◌≡◌, ◌<◌, Some};
ghost use Rattle.certificate_rows.specs.inner.Numbered.{trace_at};
ghost use Rattle.certificate_rows.specs.inner.Pairs.{refuter_between};
ghost use Rattle.certificate_rows.specs.inner.Sources.{IsKeptThere, IsSource, count_of};

use crate::kind::Kind;
use counterexamples::{Finding, FirstRefuters};
use kept_books::KeptBook;
use trace_types::NamedTrace;

/// What a certificate is printed of.
#[derive(Drop)]
pub(crate) struct Source<'a> {
    /// The kept traces, with the texts of their names and tasks.
    pub(crate) book: &'a KeptBook,
    /// The first refuter of each relation of the book.
    pub(crate) refuters: &'a FirstRefuters,
}

impl Source<'_> {
    /// Finds the first refuter of the relation of a kind between two numbers; none between a number
    /// and itself.
    pub(crate) fn refuter(&self, kind: Kind, one: u32, other: u32) -> Option<Finding>
        requires source { IsSource self.now }
        requires one { one < count_of self.now.book.now.known kind }
        requires other { other < count_of self.now.book.now.known kind }
        ensures { result ≡ refuter_between self.now.refuters.now kind one other }
    {
        if one == other {
            return None;
        }
        self.refuters.find(kind.relation(one, other))
    }

    /// Lends the trace that is kept there.
    pub(crate) fn trace(&self, finding: Finding) -> &NamedTrace
        requires { IsKeptThere self.now.book.now.book.days finding }
        ensures { trace_at self.now.book.now.book.days finding ≡ Some result.now }
    {
        &self.book.traces(finding.place)[finding.index as usize]
    }
}
