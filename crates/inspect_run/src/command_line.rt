ghost use Rattle.std.specs.Prelude.{◌≡◌, ◌<◌, ◌^◌, length, true};
ghost use Rattle.std.specs.List.{list_all};
ghost use Rattle.line_clean.specs.CommandLines.{is_filled};
ghost use Rattle.inspect_run.specs.CommandLines.{is_in_grammar};

use trace_types::Text;

/// The least number of arguments that are outside the grammar.
const TOO_MANY: usize = 1 << 30;

/// Tells whether no argument is empty.
fn are_filled(words: &[Text]) -> bool
    ensures { result ≡ list_all is_filled words.now }
{
    words.iter().all(|word| !word.as_str().is_empty())
}

/// Tells whether the arguments are in the grammar: one file or more, none with an empty name.
pub(crate) fn are_files(words: &[Text]) -> bool
    ensures grammar { result ≡ is_in_grammar words.now }
    ensures few { result ≡ true → length words.now < 2 ^ 30 }
{
    !words.is_empty() && words.len() < TOO_MANY && are_filled(words)
}
