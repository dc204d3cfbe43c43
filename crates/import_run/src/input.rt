ghost use Rattle.std.specs.Prelude.{◌≡◌, ◌+◌, ◌≤◌, ◌++◌, ◌∷◌, [], ℕ, List, length, Ok, IfErr, OnOk};
ghost use Rattle.event_lines.specs.InputLines.{lines_said};
ghost use Rattle.event_lines.specs.LineParts.{lines_of_runs};
ghost use Rattle.event_lines.specs.declared.line.Line.{Line};
ghost use Rattle.span_files.specs.SpansOfForms.{spans_by};
ghost use Rattle.import_run.specs.Inputs.{input_limit};
ghost use Rattle.import_run.specs.inner.Taken.{form_of_input, HasTaken, IsFileFault};
ghost use Rattle.import_run.specs.inner.Taken.{IsLineCause, IsSpanCause, MayStopTaking, TakesSpans};

use crate::{Form, Outcome, SpanReason};
use event_lines::{LineError, LineRun, read_lines};
use span_files::{FileSpans, SpanForm, SpanPlace};
use span_text::SpanError;
use std::alloc::Global;
use std::thread::Threads;

/// How many workers read the lines of a file.
const WORKERS: u32 = 4;

/// What files have, one behind the other.
#[derive(Drop)]
pub(crate) enum Input {
    /// Event lines.
    Lines { runs: Vec<LineRun> },
    /// Spans in this form.
    Spans { form: SpanForm, spans: FileSpans },
}

/// Appends the lines of the bytes of the file with this index.
fn append_lines<R: Threads + Sync>(
    rt: &R,
    alloc: Global,
    index: u32,
    bytes: &[u8],
    runs: &mut Vec<LineRun>,
) -> Result<(), Outcome>
    requires { length bytes.now ≤ input_limit }
    ensures appended { OnOk result ((more : List Line) × (lines_said bytes.now ≡ Ok more)
        × (lines_of_runs runs.new.items ≡ lines_of_runs runs.old.items ++ more)
        × (length more ≤ length bytes.now + 1)) }
    ensures cause { IfErr result (IsLineCause index (lines_said bytes.now)) }
    ensures kind { IfErr result MayStopTaking }
{
    match read_lines(rt, alloc, bytes, WORKERS) {
        Ok(more) => {
            let mut more = more.into_runs();
            runs.append(&mut more)?;
            Ok(())
        }
        Err(LineError::Memory) => Err(Outcome::Memory),
        Err(LineError::Bad { line, why }) => Err(Outcome::BadLine {
            file: index,
            line,
            why,
        }),
    }
}

/// Appends the spans of the bytes of the file with this index.
fn append_spans(
    alloc: Global,
    form: SpanForm,
    index: u32,
    bytes: &[u8],
    spans: &mut FileSpans,
) -> Result<(), Outcome>
    ensures appended { OnOk result (TakesSpans index (spans_by form bytes.now) spans.old spans.new) }
    ensures cause { IfErr result (IsSpanCause form index (spans_by form bytes.now)) }
    ensures kind { IfErr result MayStopTaking }
{
    match spans.take_file(alloc, form, index, bytes) {
        Ok(()) => Ok(()),
        Err(SpanError::Memory) => Err(Outcome::Memory),
        Err(SpanError::Refused(fault)) => Err(Outcome::BadSpan {
            form,
            at: SpanPlace {
                file: index,
                place: fault.place,
            },
            reason: SpanReason::Unreadable { why: fault.why },
        }),
    }
}

impl Input {
    /// Starts with no files.
    pub(crate) fn new(alloc: Global, form: Form) -> Input
        ensures form { form_of_input result ≡ form }
        ensures none { HasTaken result [] }
    {
        match form {
            Form::Events => Input::Lines {
                runs: Vec::new(alloc),
            },
            Form::Spans { form } => Input::Spans {
                form,
                spans: FileSpans::new(alloc),
            },
        }
    }

    /// Appends what the bytes of the file with this index have, or tells its first fault.
    pub(crate) fn take_file<R: Threads + Sync>(
        &mut self,
        rt: &R,
        alloc: Global,
        index: u32,
        bytes: &[u8],
    ) -> Result<(), Outcome>
        requires { length bytes.now ≤ input_limit }
        ensures form { form_of_input self.new ≡ form_of_input self.old }
        ensures taken { OnOk result ((inputs : List (List ℕ)) → length inputs ≡ index
            → HasTaken self.old inputs → HasTaken self.new (inputs ++ bytes.now ∷ [])) }
        ensures cause { IfErr result (λ outcome. (inputs : List (List ℕ)) → length inputs ≡ index
            → HasTaken self.old inputs
            → IsFileFault (form_of_input self.old) index (inputs ++ bytes.now ∷ []) outcome) }
        ensures kind { IfErr result MayStopTaking }
    {
        match self {
            Input::Lines { runs } => append_lines(rt, alloc, index, bytes, runs),
            Input::Spans { form, spans } => append_spans(alloc, *form, index, bytes, spans),
        }
    }
}
