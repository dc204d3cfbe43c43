ghost use Rattle.std.specs.Prelude.{◌≡◌, ◌++◌, length};
ghost use Rattle.mystery_io.specs.Prefixes.{Sends};
ghost use Rattle.inspect_run.specs.Messages.{message_name, message_of, message_text};

use crate::Outcome;
use mystery_io::{Sink, send_text, write_text};
use trace_types::Text;

/// Finds the name of the file that a message speaks of.
fn message_name(words: &[Text], outcome: Outcome) -> &str
    ensures { result.now ≡ message_name words.now outcome }
{
    match outcome {
        Outcome::File { index } => match words.get(index as usize) {
            Some(name) => name.as_str(),
            None => "",
        },
        Outcome::Done | Outcome::Memory | Outcome::Arguments | Outcome::Write | Outcome::Size => "",
    }
}

/// Gives what a message says.
fn message_text(outcome: Outcome) -> &'static str
    ensures { result.now ≡ message_text outcome }
{
    match outcome {
        Outcome::Done => "",
        Outcome::Memory => "out of memory\n",
        Outcome::Arguments => "usage: mystery inspect FILE...\n",
        Outcome::File { .. } => ": read failed\n",
        Outcome::Write => "write failed\n",
        Outcome::Size => "limit: input over 67108864 bytes\n",
    }
}

/// Sends two texts, best effort: stops at the first failure and does not report it.
fn send_both<S: Sink>(sink: &mut S, first: &[u8], second: &[u8])
    ensures sends { Sends S.written S.faults sink.old sink.new (first.now ++ second.now) }
    ensures nothing { length (first.now ++ second.now) ≡ 0 → sink.new ≡ sink.old }
{
    if write_text(sink, first).is_ok() {
        send_text(sink, second);
    }
}

/// Sends the message of a run that ended so.
pub(crate) fn send_message<S: Sink>(sink: &mut S, words: &[Text], outcome: Outcome)
    ensures sends { Sends S.written S.faults sink.old sink.new (message_of words.now outcome) }
    ensures nothing { length (message_of words.now outcome) ≡ 0 → sink.new ≡ sink.old }
{
    send_both(
        sink,
        message_name(words, outcome).as_bytes(),
        message_text(outcome).as_bytes(),
    );
}
