ghost use Rattle.std.specs.Prelude.{◌≡◌};
ghost use Rattle.evidence_rules.specs.EvidenceRows.{are_few};
ghost use Rattle.name_rows.specs.Kinds.{is_told};

use evidence_rules::Between;

/// A kind of rows of two names.
#[derive(Clone, Copy, Debug, PartialEq, Eq)]
pub enum NameKind {
    /// The first happens before the second.
    Order,
    /// The two are mutually exclusive, with no fixed order.
    Exclusion,
    /// Few traces refute that the first happens before the second.
    NearlyOrder,
    /// Few traces refute that the two are mutually exclusive.
    NearlyExclusion,
}

/// Tells whether some are refuted, and at most one in a hundred.
fn are_few(refuted: u32, traces: u32) -> bool
    ensures { result ≡ are_few refuted traces }
{
    0 < refuted && 100 * u64::from(refuted) <= u64::from(traces)
}

impl NameKind {
    /// Tells whether the figures of two names, by their places in name order, tell a relation of
    /// this kind.
    pub fn is_told(self, first: u32, second: u32, figures: &Between) -> bool
        ensures { result ≡ is_told self first second figures.now }
    {
        match self {
            NameKind::Order => first != second && 0 < figures.traces && figures.early == 0,
            NameKind::Exclusion => {
                first < second
                    && (0 < figures.traces && figures.both == 0)
                    && (0 < figures.early && 0 < figures.turned)
            }
            NameKind::NearlyOrder => first != second && are_few(figures.early, figures.traces),
            NameKind::NearlyExclusion => first < second && are_few(figures.both, figures.traces),
        }
    }
}
