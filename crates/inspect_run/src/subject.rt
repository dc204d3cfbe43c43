ghost use Rattle.std.specs.Prelude.{◌≡◌};
ghost use Rattle.inspect_run.specs.NameRows.{subject_kind, subject_limit, subject_text};

/// What the names of segments are listed as.
#[derive(Clone, Copy, Debug, PartialEq, Eq)]
pub enum Subject {
    /// Names: a task, a start event and an end event.
    Names,
    /// Tasks.
    Tasks,
}

impl Subject {
    /// Gives the kind of the rows.
    pub(crate) fn kind(self) -> &'static str
        ensures { result.now ≡ subject_kind self }
    {
        match self {
            Subject::Names => "name",
            Subject::Tasks => "task",
        }
    }

    /// Gives what is counted.
    pub(crate) fn text(self) -> &'static str
        ensures { result.now ≡ subject_text self }
    {
        match self {
            Subject::Names => "segment names",
            Subject::Tasks => "tasks",
        }
    }

    /// Gives how many of it other commands take.
    pub(crate) fn limit(self) -> usize
        ensures { result ≡ subject_limit self }
    {
        match self {
            Subject::Names => 512,
            Subject::Tasks => 64,
        }
    }
}
