ghost use Rattle.std.specs.Prelude.{◌≡◌};
ghost use Rattle.import_run.specs.CommandLines.{nothing_asked};
ghost use Rattle.import_run.specs.inner.ParsedLines.{asked_view};

/// What is asked of spans.
#[derive(Clone, Copy, Debug)]
pub(crate) struct Asked<'w> {
    /// By how many nanoseconds spans may overlap that run one after another.
    pub(crate) grace: u64,
    /// The operation, as its service and its name, that the kept requests begin with; none keeps all.
    pub(crate) operation: Option<&'w str>,
    /// Whether names that differ in ids alone are made one.
    pub(crate) fold: bool,
}

impl Asked<'_> {
    /// Asks for nothing.
    pub(crate) fn nothing() -> Asked<'static>
        ensures { asked_view result ≡ nothing_asked }
    {
        Asked {
            grace: 0,
            operation: None,
            fold: false,
        }
    }
}
