ghost use Rattle.std.specs.Prelude.{◌≡◌, ◌++◌, ◌≤◌, length, codes, decimal};
ghost use Rattle.mystery_io.specs.Prefixes.{Sends};
ghost use Rattle.view_run.specs.Messages.{message_name, message_of, message_text, why_text};

use crate::Outcome;
use crate::command_line::page_name;
use arrayvec::ArrayString;
use itoa::Buffer;
use mystery_io::{Sink, send_text, write_text};
use page_rows::Why;
use trace_types::Text;

/// The greatest length of what a message says, in bytes.
const LONGEST: usize = 80;

/// Gives the text in which it is printed why a line is bad.
fn why_text(why: Why) -> &'static str
    ensures text { result.now ≡ why_text why }
    ensures short { length result.now ≤ 40 }
{
    match why {
        Why::NotUtf8 => "not UTF-8",
        Why::NoRow => "no row of a page",
        Why::NoNumber => "a field is no number",
        Why::Misplaced => "out of place",
        Why::Unfinished => "the page ends before its last part",
    }
}

/// Makes what a message says of a bad line.
fn bad_line_text(line: u32, why: &str) -> ArrayString<LONGEST>
    requires { length why.now ≤ 40 }
    ensures { result.bytes
        ≡ codes "line " ++ decimal line ++ codes ": bad row: " ++ why.now ++ codes "\n" }
{
    let mut digits = Buffer::new();
    let mut text = ArrayString::new();
    text.push_str("line ");
    text.push_str(digits.format(line));
    text.push_str(": bad row: ");
    text.push_str(why);
    text.push_str("\n");
    text
}

/// Makes a text of a message.
fn make_text(words: &str) -> ArrayString<LONGEST>
    requires { length words.now ≤ 80 }
    ensures { result.bytes ≡ words.now }
{
    let mut text = ArrayString::new();
    text.push_str(words);
    text
}

/// Makes what a message says, without allocating.
fn message_text(outcome: Outcome) -> ArrayString<LONGEST>
    ensures { result.bytes ≡ message_text outcome }
{
    match outcome {
        Outcome::Done => ArrayString::new(),
        Outcome::Memory => make_text("out of memory\n"),
        Outcome::Arguments => make_text("usage: mystery view [PAGE]\n"),
        Outcome::BadLine { line, why } => bad_line_text(line, why_text(why)),
        Outcome::File => make_text(": read failed\n"),
        Outcome::Write => make_text("write failed\n"),
        Outcome::Size => make_text("limit: input over 67108864 bytes\n"),
    }
}

/// Finds the name of the file that a message speaks of.
fn message_name(words: &[Text], outcome: Outcome) -> &str
    ensures { result.now ≡ message_name words.now outcome }
{
    match outcome {
        Outcome::File => page_name(words),
        Outcome::Done
        | Outcome::Memory
        | Outcome::Arguments
        | Outcome::BadLine { .. }
        | Outcome::Write
        | Outcome::Size => "",
    }
}

/// Sends two texts, best effort: stops at the first failure and does not report it.
fn send_both<S: Sink>(sink: &mut S, first: &[u8], second: &[u8])
    ensures sends { Sends S.written S.faults sink.old sink.new (first.now ++ second.now) }
    ensures nothing { length (first.now ++ second.now) ≡ 0 → sink.new ≡ sink.old }
{
    if write_text(sink, first).is_ok() {
        send_text(sink, second);
    }
}

/// Sends the message of a run that ended so.
pub(crate) fn send_message<S: Sink>(sink: &mut S, words: &[Text], outcome: Outcome)
    ensures sends { Sends S.written S.faults sink.old sink.new (message_of words.now outcome) }
    ensures nothing { length (message_of words.now outcome) ≡ 0 → sink.new ≡ sink.old }
{
    let text = message_text(outcome);
    send_both(
        sink,
        message_name(words, outcome).as_bytes(),
        text.as_str().as_bytes(),
    );
}
