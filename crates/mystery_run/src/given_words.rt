ghost use Rattle.std.specs.Prelude.{◌≡◌, ◌≤◌, ◌+◌, length, option_map, if◌then◌else◌, IfOk, IfSome};
ghost use Rattle.std.specs.Prelude.{Some, None};
ghost use Rattle.std.specs.List.{list_all};
ghost use Rattle.mystery_run.specs.CommandLines.{after_given, given_in, is_filled};
ghost use Rattle.mystery_run.specs.inner.GivenWords.{first_given};

use std::alloc::{AllocError, Global};
use trace_types::Text;

/// Finds the file of the option `--given FILE` with which these arguments begin.
pub(crate) fn first_given(words: &[Text]) -> Option<&Text>
    ensures { option_map (λ file. file.now) result ≡ first_given words.now }
{
    match words {
        [first, file, ..] if first.as_str() == "--given" => Some(file),
        _ => None,
    }
}

/// Finds the arguments after the options `--given FILE` with which these begin; `None` if one of the
/// files is empty.
pub(crate) fn find_form(words: &[Text]) -> Option<&[Text]>
    ensures form { option_map (λ form. form.now) result
        ≡ (if list_all is_filled (given_in words.now) then Some (after_given words.now) else None) }
    ensures few { IfSome result (λ form.
        length (given_in words.now) + length form.now ≤ length words.now) }
{
    let mut at = 0;
    'options: while let Some(file) = first_given(&words[at..]) {
        if file.as_str().is_empty() {
            return None;
        }
        at += 2;
    }
    Some(&words[at..])
}

/// Copies the files of the options `--given FILE` with which these arguments begin. The only error
/// is an allocation failure.
pub(crate) fn copy_given(alloc: Global, words: &[Text]) -> Result<Vec<Text>, AllocError>
    ensures { IfOk result (λ files. files.items ≡ given_in words.now) }
{
    let mut files = Vec::new(alloc);
    let mut at = 0;
    'options: while let Some(file) = first_given(&words[at..]) {
        files.push(file.copy(alloc)?)?;
        at += 2;
    }
    Ok(files)
}
