ghost use Rattle.std.specs.Prelude.{◌≡◌};
ghost use Rattle.mystery_run.specs.CommandLines.{named_view};
ghost use Rattle.mystery_run.specs.Works.{view_command};

use event_lines::Command;

/// What is printed of the kept traces.
#[derive(Clone, Copy, Debug, PartialEq, Eq)]
pub(crate) enum View {
    /// Their model.
    Model,
    /// Their critical paths.
    Paths,
    /// The slack of their segments.
    Slack,
    /// The report on their latencies and segments.
    Report,
    /// Their graphs.
    Graph,
    /// Their digest.
    Summarize,
}

impl View {
    /// Finds the view with this name.
    pub(crate) fn parse(name: &str) -> Option<View>
        ensures { result ≡ named_view name.now }
    {
        match name {
            "model" => Some(View::Model),
            "paths" => Some(View::Paths),
            "slack" => Some(View::Slack),
            "report" => Some(View::Report),
            "graph" => Some(View::Graph),
            "summarize" => Some(View::Summarize),
            _ => None,
        }
    }

    /// Returns the command that prints the view.
    pub(crate) fn command(self) -> Command
        ensures { result ≡ view_command self }
    {
        match self {
            View::Model => Command::Model,
            View::Paths => Command::Paths,
            View::Slack => Command::Slack,
            View::Report => Command::Report,
            View::Graph => Command::Graph,
            View::Summarize => Command::Summarize,
        }
    }
}
