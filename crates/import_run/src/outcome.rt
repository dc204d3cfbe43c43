ghost use Rattle.std.specs.Prelude.{◌≡◌, ◌+◌, ◌≤◌, ◌<◌, ◌++◌, length, codes, decimal};
ghost use Rattle.import_run.specs.Messages.{message_of, note_text, notes_text, status_of, unit_text};

use crate::{Notes, SpanReason};
use arrayvec::ArrayString;
use event_lines::Why;
use itoa::Buffer;
use span_files::{SpanForm, SpanPlace};
use std::alloc::AllocError;

/// How a run ended.
#[derive(Clone, Copy, Debug, PartialEq, Eq)]
pub enum Outcome {
    /// Every file was read to its end, and the lines were written.
    Done {
        notes: Notes,
    },
    /// An allocation failed.
    Memory,
    /// The arguments are outside the grammar.
    Arguments,
    /// The line with this number, from 1, of the file with this index, from 0, is the first bad
    /// one.
    BadLine {
        file: u32,
        line: u32,
        why: Why,
    },
    /// The span, or the line, at this place is the first that is refused.
    BadSpan {
        form: SpanForm,
        at: SpanPlace,
        reason: SpanReason,
    },
    /// The file with this index, from 0, could not be opened or read.
    File {
        index: u32,
    },
    /// The lines could not be written to their end.
    Write,
    /// The files have more than 268,435,456 bytes together.
    Size,
    /// The files have more than 1,000,000,000 spans together.
    TooMany,
}

/// The greatest length of a message in bytes.
const LONGEST: usize = 160;

/// Makes a message of a text.
fn make_message(text: &str) -> ArrayString<LONGEST>
    requires { length text.now < 90 }
    ensures { result.bytes ≡ text.now }
{
    let mut message = ArrayString::new();
    message.push_str(text);
    message
}

/// Appends the number of the file with this index, from 1, to its name.
fn make_file_message(index: u32) -> ArrayString<LONGEST>
    ensures bytes { result.bytes ≡ codes "file " ++ decimal (index + 1) }
    ensures short { length result.bytes ≤ 25 }
{
    let mut digits = Buffer::new();
    let mut message = ArrayString::new();
    message.push_str("file ");
    message.push_str(digits.format(u64::from(index) + 1));
    message
}

/// Makes the message of a bad line.
fn make_line_message(file: u32, line: u32, why: Why) -> ArrayString<LONGEST>
    ensures { result.bytes ≡ message_of (Outcome.BadLine file line why) }
{
    let mut digits = Buffer::new();
    let mut message = make_file_message(file);
    message.push_str(": line ");
    message.push_str(digits.format(line));
    message.push_str(": ");
    message.push_str(why.as_str());
    message.push_str("\n");
    message
}

/// Returns what a place of this form counts, with a colon before it.
fn unit_of(form: SpanForm) -> &'static str
    ensures { result.now ≡ unit_text form }
{
    match form {
        SpanForm::Otlp => ": line ",
        SpanForm::Jaeger | SpanForm::Zipkin => ": span ",
    }
}

/// Makes the message of a span that is refused.
fn make_span_message(form: SpanForm, at: SpanPlace, reason: SpanReason) -> ArrayString<LONGEST>
    ensures { result.bytes ≡ message_of (Outcome.BadSpan form at reason) }
{
    let mut digits = Buffer::new();
    let mut message = make_file_message(at.file);
    message.push_str(unit_of(form));
    message.push_str(digits.format(at.place));
    message.push_str(": ");
    let (first, second) = reason.parts();
    message.push_str(first);
    message.push_str(second);
    message.push_str("\n");
    message
}

/// Appends a note with a number, unless that is 0.
fn push_note(message: &mut ArrayString<LONGEST>, what: &str, number: usize)
    requires what { length what.now < 40 }
    requires room { length message.old.bytes < 80 }
    ensures bytes { message.new.bytes ≡ message.old.bytes ++ note_text what.now number }
    ensures short { length message.new.bytes ≤ length message.old.bytes + 70 }
{
    if number == 0 {
        return;
    }
    let mut digits = Buffer::new();
    message.push_str("note: ");
    message.push_str(what);
    message.push_str(": ");
    message.push_str(digits.format(number));
    message.push_str("\n");
}

/// Makes the notes on spans that were written.
fn make_notes(notes: Notes) -> ArrayString<LONGEST>
    ensures { result.bytes ≡ notes_text notes }
{
    let mut message = ArrayString::new();
    push_note(&mut message, "spans whose parent is missing", notes.missing);
    push_note(&mut message, "requests over 4096 lines", notes.long);
    message
}

/// Makes the message of a file that could not be read.
fn make_read_message(index: u32) -> ArrayString<LONGEST>
    ensures { result.bytes ≡ message_of (Outcome.File index) }
{
    let mut message = make_file_message(index);
    message.push_str(": read failed\n");
    message
}

impl Outcome {
    /// Returns the exit status, from 0 to 6.
    pub fn status(self) -> u8
        ensures { result ≡ status_of self }
    {
        match self {
            Outcome::Done { .. } => 0,
            Outcome::Memory => 1,
            Outcome::Arguments => 2,
            Outcome::BadLine { .. } | Outcome::BadSpan { .. } => 3,
            Outcome::File { .. } => 4,
            Outcome::Write => 5,
            Outcome::Size | Outcome::TooMany => 6,
        }
    }

    /// Makes the message for standard error, without allocating: nothing, notes, or one line.
    pub fn message(self) -> ArrayString<LONGEST>
        ensures { result.bytes ≡ message_of self }
    {
        match self {
            Outcome::Done { notes } => make_notes(notes),
            Outcome::Memory => make_message("out of memory\n"),
            Outcome::Arguments => make_message(
                "usage: mystery import FORM [--grace MICROS] [--entry NAME] [--fold] [FILE]...\n",
            ),
            Outcome::BadLine { file, line, why } => make_line_message(file, line, why),
            Outcome::BadSpan { form, at, reason } => make_span_message(form, at, reason),
            Outcome::File { index } => make_read_message(index),
            Outcome::Write => make_message("write failed\n"),
            Outcome::Size => make_message("limit: input over 268435456 bytes\n"),
            Outcome::TooMany => make_message("limit: input over 1000000000 spans\n"),
        }
    }
}

impl From<AllocError> for Outcome {
    ghost use Rattle.import_run.specs.declared.outcome.Outcome.TheVariants.{Memory};

    ghost from_gives = { λ _ e. e ≡ Memory };

    fn from(_: AllocError) -> Self {
        Outcome::Memory
    }
}
