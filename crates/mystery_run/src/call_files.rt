ghost use Rattle.std.specs.Prelude.{◌≡◌, ◌<◌, ◌^◌, length};
ghost use Rattle.mystery_run.specs.inner.ReadingTwice.{preface_files};

use trace_types::Text;

/// The files of a call.
#[derive(Clone, Copy, Debug)]
pub(crate) struct CallFiles<'w> {
    /// Those that are given.
    pub(crate) given: &'w [Text],
    /// That of the certificate that is checked, if there is one.
    pub(crate) certificate: &'w [Text],
    /// Those of the input.
    pub(crate) input: &'w [Text],
}

impl CallFiles<'_> {
    /// Counts the files of the preface: those that are given, or that of the certificate.
    pub(crate) fn preface_count(self) -> u32
        requires { length (preface_files self) < 2 ^ 32 }
        ensures { result ≡ length (preface_files self.entry) }
    {
        if self.given.is_empty() {
            self.certificate.len() as u32
        } else {
            self.given.len() as u32
        }
    }
}
