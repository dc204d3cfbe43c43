ghost use Rattle.std.specs.Prelude.{◌≡◌};
ghost use Rattle.view_run.specs.CommandLines.{file_named, is_in_grammar, page_name};

use trace_types::Text;

/// Tells whether the arguments are in the grammar: none, or one that is not empty.
pub(crate) fn are_page(words: &[Text]) -> bool
    ensures { result ≡ is_in_grammar words.now }
{
    match words {
        [] => true,
        [word] => !word.as_str().is_empty(),
        _ => false,
    }
}

/// Gives the name of the file that an argument stands for.
fn file_named(word: &str) -> &str
    ensures { result.now ≡ file_named word.now }
{
    if word == "-" { "/dev/stdin" } else { word }
}

/// Gives the name of the file of rows: without an argument that of standard input.
pub(crate) fn page_name(words: &[Text]) -> &str
    ensures { result.now ≡ page_name words.now }
{
    match words {
        [] => "/dev/stdin",
        [word, ..] => file_named(word.as_str()),
    }
}
