ghost use Rattle.std.specs.Prelude.{◌≡◌};
ghost use Rattle.std.specs.List.{list_all};
ghost use Rattle.line_clean.specs.CommandLines.{is_filled, is_in_grammar};

use trace_types::Text;

/// Tells whether no argument is empty.
fn are_filled(words: &[Text]) -> bool
    ensures { result ≡ list_all is_filled words.now }
{
    words.iter().all(|word| !word.as_str().is_empty())
}

/// Tells whether the arguments are in the grammar: one file or more, none with an empty name.
pub(crate) fn are_files(words: &[Text]) -> bool
    ensures { result ≡ is_in_grammar words.now }
{
    !words.is_empty() && are_filled(words)
}
