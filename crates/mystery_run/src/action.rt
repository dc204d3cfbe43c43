ghost use Rattle.std.specs.Prelude.{◌≡◌};
ghost use Rattle.mystery_run.specs.CommandLines.{certificate_of_action, files_of_action};
ghost use Rattle.mystery_run.specs.CommandLines.{is_judged};
ghost use Rattle.mystery_run.specs.inner.ParsedLines.{action_of};
ghost use Rattle.mystery_run.specs.inner.Inputs.{form_of_action};

use crate::change_words::ChangeWords;
use crate::input_form::InputForm;
use crate::view::View;
use evidence_rules::Choice;
use std::slice;
use trace_types::Text;

/// What the arguments ask for. At least one file of an input is named, but for a drill and for a
/// view of what is given alone.
#[derive(Clone, Copy, Debug)]
pub(crate) enum Action<'w> {
    /// Carry out the control lines of these files.
    Session {
        files: &'w [Text],
    },
    /// Carry out the control lines of these files, and then print this view.
    View {
        view: View,
        files: &'w [Text],
    },
    /// Carry out the control lines of these files, and then print how long the critical paths would
    /// be under this change.
    WhatIf {
        change: ChangeWords<'w>,
        files: &'w [Text],
    },
    /// Carry out the control lines of these files, and then print the report on the slowest traces.
    Tail {
        files: &'w [Text],
    },
    /// Carry out the control lines of these files, and then print a certificate of what the traces
    /// refute.
    Why {
        files: &'w [Text],
    },
    /// Carry out the control lines of these files, and then check the certificate in another file.
    Verify {
        certificate: &'w Text,
        files: &'w [Text],
    },
    /// Carry out the control lines of these files, and then print what stands behind relations.
    Evidence {
        choice: Choice,
        files: &'w [Text],
    },
    /// Make the events of so many traces by draws from this number, add them, and print their
    /// summary.
    Drill {
        number: u32,
        traces: u32,
    },
    /// Replay this file of steps.
    Replay {
        file: &'w Text,
    },
}

impl<'w> Action<'w> {
    /// Lends the names of the files of the input, in order.
    pub(crate) fn files(self) -> &'w [Text]
        ensures { result.now ≡ files_of_action (action_of self.entry) }
    {
        match self {
            Action::Session { files } => files,
            Action::View { files, .. } => files,
            Action::WhatIf { files, .. } => files,
            Action::Tail { files } => files,
            Action::Why { files } => files,
            Action::Verify { files, .. } => files,
            Action::Evidence { files, .. } => files,
            Action::Drill { .. } => &[],
            Action::Replay { file } => slice::from_ref(file),
        }
    }

    /// Tells whether it judges traces under what is given.
    pub(crate) fn is_judged(self) -> bool
        ensures { result ≡ is_judged (action_of self.entry) }
    {
        match self {
            Action::Session { .. } => false,
            Action::View { .. } => true,
            Action::WhatIf { .. } => true,
            Action::Tail { .. } => true,
            Action::Why { .. } => false,
            Action::Verify { .. } => false,
            Action::Evidence { .. } => false,
            Action::Drill { .. } => false,
            Action::Replay { .. } => false,
        }
    }

    /// Returns what the input is read as.
    pub(crate) fn form(self) -> InputForm
        ensures { result ≡ form_of_action (action_of self.entry) }
    {
        match self {
            Action::Replay { .. } => InputForm::Steps,
            _ => InputForm::Lines,
        }
    }

    /// Lends the name of the file of the certificate, if there is one.
    pub(crate) fn certificate(self) -> &'w [Text]
        ensures { result.now ≡ certificate_of_action (action_of self.entry) }
    {
        match self {
            Action::Verify { certificate, .. } => slice::from_ref(certificate),
            _ => &[],
        }
    }
}
