ghost use Rattle.std.specs.Prelude.{◌≡◌, ◌+◌, ◌≤◌, ◌<◌, ◌^◌, ◌++◌, length, codes, decimal};
ghost use Rattle.mystery_run.specs.inner.FaultEndings.{outcome_of};
ghost use Rattle.mystery_run.specs.Messages.{given_count, given_unit, limit_count, limit_line};
ghost use Rattle.mystery_run.specs.Messages.{limit_unit, message_of, status_of};

use crate::Reason;
use arrayvec::ArrayString;
use digest_merging::DigestLimit;
use itoa::Buffer;
use session::CommandFault;
use session_rules::Limit;

/// How a run ended.
#[derive(Clone, Copy, Debug, PartialEq, Eq)]
pub enum Outcome {
    /// Every file was read to its end, and the text was written.
    Done,
    /// An allocation failed.
    Memory,
    /// The arguments are outside the grammar.
    Arguments,
    /// The line with this number is the first bad one: of the preface, or else of the input.
    BadLine { line: u32, why: Reason },
    /// The file argument with this index, from 0, could not be opened or read. Those of the preface
    /// come first.
    File { index: u32 },
    /// The text could not be written to its end.
    Write,
    /// The preface or the input has more than 67,108,864 bytes.
    Size,
    /// An add passes this limit. The text of the jobs before it was written.
    Over { limit: Limit },
    /// What is given passes this limit. Nothing was written.
    OverGiven { limit: DigestLimit },
}

/// The greatest length of a message in bytes.
const LONGEST: usize = 64;

/// Makes a message of one line.
fn make_line(text: &str) -> ArrayString<LONGEST>
    requires { length text.now < 60 }
    ensures { result.bytes ≡ text.now ++ codes "\n" }
{
    let mut line = ArrayString::new();
    line.push_str(text);
    line.push_str("\n");
    line
}

/// Makes a message of one line around a number.
fn make_numbered_line(before: &str, number: u64, after: &str, reason: &str) -> ArrayString<LONGEST>
    requires { length before.now + length after.now + length reason.now ≤ 40 }
    ensures { result.bytes ≡ before.now ++ decimal number ++ after.now ++ reason.now ++ codes "\n" }
{
    let mut digits = Buffer::new();
    let mut line = ArrayString::new();
    line.push_str(before);
    line.push_str(digits.format(number));
    line.push_str(after);
    line.push_str(reason);
    line.push_str("\n");
    line
}

/// Makes the message of a limit that so many pass.
fn make_limit_line(count: u64, unit: &str) -> ArrayString<LONGEST>
    requires { length unit.now ≤ 20 }
    ensures { result.bytes ≡ limit_line count unit.now }
{
    make_numbered_line("limit: ", count, " ", unit)
}

/// Makes the message of 2^64 traces, which are too many by one.
fn make_trace_line() -> ArrayString<LONGEST>
    ensures { result.bytes ≡ limit_line (2 ^ 64) (codes "traces") }
{
    make_line("limit: 18446744073709551616 traces")
}

/// Makes the message of a limit that an add passes.
fn make_add_line(limit: Limit) -> ArrayString<LONGEST>
    ensures { result.bytes ≡ limit_line (limit_count limit) (limit_unit limit) }
{
    match limit {
        Limit::Names { count } => make_limit_line(u64::from(count), "segment names"),
        Limit::Tasks { count } => make_limit_line(u64::from(count), "tasks"),
        Limit::Days { count } => make_limit_line(u64::from(count), "days"),
        Limit::Traces => make_trace_line(),
    }
}

/// Makes the message of a limit that what is given passes.
fn make_given_line(limit: DigestLimit) -> ArrayString<LONGEST>
    ensures { result.bytes ≡ limit_line (given_count limit) (given_unit limit) }
{
    match limit {
        DigestLimit::Names { count } => make_limit_line(count, "segment names"),
        DigestLimit::Tasks { count } => make_limit_line(count, "tasks"),
        DigestLimit::Traces => make_trace_line(),
    }
}

impl From<CommandFault> for Outcome {
    ghost from_gives = { λ fault outcome. outcome ≡ outcome_of fault };

    /// Gives the ending of a run whose jobs end with this fault.
    fn from(fault: CommandFault) -> Outcome {
        match fault {
            CommandFault::Memory => Outcome::Memory,
            CommandFault::Write => Outcome::Write,
            CommandFault::Over { limit } => Outcome::Over { limit },
        }
    }
}

impl Outcome {
    /// Returns the exit status, from 0 to 6.
    pub fn status(self) -> u8
        ensures { result ≡ status_of self }
    {
        match self {
            Outcome::Done => 0,
            Outcome::Memory => 1,
            Outcome::Arguments => 2,
            Outcome::BadLine { .. } => 3,
            Outcome::File { .. } => 4,
            Outcome::Write => 5,
            Outcome::Size => 6,
            Outcome::Over { .. } => 6,
            Outcome::OverGiven { .. } => 6,
        }
    }

    /// Makes the message for standard error, without allocating: nothing, or one line.
    pub fn message(self) -> ArrayString<LONGEST>
        ensures { result.bytes ≡ message_of self }
    {
        match self {
            Outcome::Done => ArrayString::new(),
            Outcome::Memory => make_line("out of memory"),
            Outcome::Arguments => make_line("usage: mystery [--workers N] COMMAND FILE..."),
            Outcome::BadLine { line, why } => {
                make_numbered_line("line ", u64::from(line), ": ", why.as_str())
            }
            Outcome::File { index } => {
                make_numbered_line("file ", u64::from(index) + 1, ": ", "read failed")
            }
            Outcome::Write => make_line("write failed"),
            Outcome::Size => make_line("limit: input over 67108864 bytes"),
            Outcome::Over { limit } => make_add_line(limit),
            Outcome::OverGiven { limit } => make_given_line(limit),
        }
    }
}
