use std::marker::Model;
use trace_types::Text;

/// Two tasks of a catalogue, borrowed. Contracts see them as a pair of texts.
#[derive(Debug, Drop)]
pub(crate) struct TaskPair<'a> {
    /// The task that passes elements on.
    pub from: &'a Text,
    /// The task that takes them.
    pub to: &'a Text,
}

impl<'a> Model for TaskPair<'a> {
    ghost use Rattle.std.specs.Prelude.{ℕ, List};

    ghost Value = { List ℕ × List ℕ };

    ghost view = { λ a. (a.from.now, a.to.now) };
}
