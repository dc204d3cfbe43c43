ghost use Rattle.std.specs.Prelude.{◌≡◌};
ghost use Rattle.evidence_rules.specs.EvidenceRows.{are_few};
ghost use Rattle.task_rows.specs.Kinds.{is_told};

use evidence_rules::Sharing;

/// A kind of rows of two tasks.
#[derive(Clone, Copy, Debug, PartialEq, Eq)]
pub enum TaskKind {
    /// Elements pass from the first to the second.
    Pipe,
    /// Few traces refute that they do.
    NearlyPipe,
}

/// Tells whether some are refuted, and at most one in a hundred.
fn are_few(refuted: u32, traces: u32) -> bool
    ensures { result ≡ are_few refuted traces }
{
    0 < refuted && 100 * u64::from(refuted) <= u64::from(traces)
}

impl TaskKind {
    /// Tells whether the figures of two tasks, by their places, tell a relation of this kind.
    pub fn is_told(self, first: u32, second: u32, figures: &Sharing) -> bool
        ensures { result ≡ is_told self first second figures.now }
    {
        match self {
            TaskKind::Pipe => first != second && 0 < figures.traces && figures.refuted == 0,
            TaskKind::NearlyPipe => first != second && are_few(figures.refuted, figures.traces),
        }
    }
}
