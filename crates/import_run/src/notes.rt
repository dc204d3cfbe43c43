/// What is told of spans that were written.
#[derive(Clone, Copy, Debug, PartialEq, Eq)]
pub struct Notes {
    /// How many spans have a parent that is not in their trace.
    pub missing: usize,
    /// How many requests have more lines than `mystery` takes, which are 4,096.
    pub long: usize,
}

impl Notes {
    ghost use Rattle.std.specs.Prelude.{◌≡◌};
    ghost use Rattle.import_run.specs.Messages.{no_notes};

    /// Tells nothing.
    pub(crate) fn none() -> Notes
        ensures { result ≡ no_notes }
    {
        Notes {
            missing: 0,
            long: 0,
        }
    }
}
