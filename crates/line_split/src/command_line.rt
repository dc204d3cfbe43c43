ghost use Rattle.std.specs.Prelude.{◌≡◌, ◌<◌, ◌≤◌, option_map, IfSome};
ghost use Rattle.std.specs.List.{list_all};
ghost use Rattle.line_split.specs.CommandLines.{call_after, call_of, is_filled};
ghost use Rattle.line_split.specs.inner.Calls.{call_of_line};

use crate::call_numbers::number_within;
use trace_types::Text;

/// The greatest grace in microseconds.
const MAX_MICROS: u32 = 1_000_000;

/// The most parts.
const MAX_PARTS: u32 = 256;

/// What the arguments ask for.
#[derive(Clone, Copy, Debug)]
pub(crate) struct CommandLine<'w> {
    /// The microseconds of the control line in front of each part, where it is to have one.
    pub(crate) grace: Option<u32>,
    /// The number of parts, from 1 to 256.
    pub(crate) parts: u32,
    /// What is put in front of a request before its digest is taken.
    pub(crate) seed: &'w Text,
    /// What the names of the parts begin with.
    pub(crate) prefix: &'w Text,
    /// The names of the files, one or more.
    pub(crate) files: &'w [Text],
}

/// Tells whether all arguments may be files.
fn are_filled(words: &[Text]) -> bool
    ensures { result ≡ list_all is_filled words.now }
{
    words.iter().all(|word| !word.as_str().is_empty())
}

impl<'w> CommandLine<'w> {
    /// Reads the arguments `N SEED PREFIX FILE...`.
    fn parse_after(grace: Option<u32>, words: &'w [Text]) -> Option<CommandLine<'w>>
        ensures call { option_map call_of_line result ≡ call_after grace words.now }
        ensures some { IfSome result (λ line. 0 < line.parts) }
        ensures most { IfSome result (λ line. line.parts ≤ 256) }
    {
        match words {
            [parts, seed, prefix, _, ..] if are_filled(&words[2..]) => Some(CommandLine {
                grace,
                parts: number_within(1, MAX_PARTS, parts.as_str())?,
                seed,
                prefix,
                files: &words[3..],
            }),
            _ => None,
        }
    }

    /// Reads the arguments `[--grace MICROS] N SEED PREFIX FILE...`; `None` if they are outside the
    /// grammar.
    pub(crate) fn parse(words: &'w [Text]) -> Option<CommandLine<'w>>
        ensures call { option_map call_of_line result ≡ call_of words.now }
        ensures some { IfSome result (λ line. 0 < line.parts) }
        ensures most { IfSome result (λ line. line.parts ≤ 256) }
    {
        match words {
            [first, micros, ..] if first.as_str() == "--grace" => {
                let micros = number_within(0, MAX_MICROS, micros.as_str())?;
                Self::parse_after(Some(micros), &words[2..])
            }
            _ => Self::parse_after(None, words),
        }
    }
}
