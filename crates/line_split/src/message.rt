ghost use Rattle.std.specs.Prelude.{◌≡◌, ◌++◌, ◌+◌, ◌≤◌, ◌<◌, length, codes, decimal};
ghost use Rattle.mystery_io.specs.Prefixes.{Sends};
ghost use Rattle.line_split.specs.Messages.{file_name, message_name, message_of, message_text};

use crate::SplitFault;
use crate::command_line::CommandLine;
use arrayvec::ArrayString;
use itoa::Buffer;
use mystery_io::{Sink, send_text, write_text};
use trace_types::Text;

/// The greatest length of what a message says, in bytes.
const LONGEST: usize = 64;

/// Finds the name of the file argument with this index, from 0.
fn file_name(words: &[Text], index: usize) -> &str
    ensures { result.now ≡ file_name words.now index }
{
    let Some(call) = CommandLine::parse(words) else {
        return "";
    };
    match call.files.get(index) {
        Some(name) => name.as_str(),
        None => "",
    }
}

/// Finds the name of the file that a message speaks of.
fn message_name(words: &[Text], outcome: Result<(), SplitFault>) -> &str
    ensures { result.now ≡ message_name words.now outcome }
{
    match outcome {
        Err(SplitFault::BadLine { file, .. }) => file_name(words, file),
        Err(SplitFault::File { index }) => file_name(words, index),
        _ => "",
    }
}

/// Makes what a message says of a bad line.
fn bad_line_text(line: u64, why: &str) -> ArrayString<LONGEST>
    requires { length why.now ≤ 24 }
    ensures { result.bytes
        ≡ codes ": line " ++ decimal line ++ codes ": " ++ why.now ++ codes "\n" }
{
    let mut digits = Buffer::new();
    let mut text = ArrayString::new();
    text.push_str(": line ");
    text.push_str(digits.format(line));
    text.push_str(": ");
    text.push_str(why);
    text.push_str("\n");
    text
}

/// Makes a text of a message.
fn make_text(words: &str) -> ArrayString<LONGEST>
    requires { length words.now ≤ 64 }
    ensures { result.bytes ≡ words.now }
{
    let mut text = ArrayString::new();
    text.push_str(words);
    text
}

/// Makes what a message says, without allocating.
fn message_text(outcome: Result<(), SplitFault>) -> ArrayString<LONGEST>
    ensures { result.bytes ≡ message_text outcome }
{
    match outcome {
        Ok(()) => ArrayString::new(),
        Err(SplitFault::Memory) => make_text("out of memory\n"),
        Err(SplitFault::Arguments) => {
            make_text("usage: mystery split [--grace MICROS] N SEED PREFIX FILE...\n")
        }
        Err(SplitFault::BadLine { line, why, .. }) => bad_line_text(line, why.as_str()),
        Err(SplitFault::File { .. }) => make_text(": read failed\n"),
        Err(SplitFault::Write) => make_text("write failed\n"),
    }
}

/// Sends two texts, best effort: stops at the first failure and does not report it.
fn send_both<S: Sink>(sink: &mut S, first: &[u8], second: &[u8])
    ensures sends { Sends S.written S.faults sink.old sink.new (first.now ++ second.now) }
    ensures nothing { length (first.now ++ second.now) ≡ 0 → sink.new ≡ sink.old }
{
    if write_text(sink, first).is_ok() {
        send_text(sink, second);
    }
}

/// Sends the message of a run that ended so.
pub(crate) fn send_message<S: Sink>(sink: &mut S, words: &[Text], outcome: Result<(), SplitFault>)
    ensures sends { Sends S.written S.faults sink.old sink.new (message_of words.now outcome) }
    ensures nothing { length (message_of words.now outcome) ≡ 0 → sink.new ≡ sink.old }
{
    let text = message_text(outcome);
    send_both(
        sink,
        message_name(words, outcome).as_bytes(),
        text.as_str().as_bytes(),
    );
}
