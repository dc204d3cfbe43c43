ghost use Rattle.std.specs.Prelude.{◌≡◌, IfOk, option_map};
ghost use Rattle.certificates.specs.Claims.{name_of_texts, text_of};

use event_lines::is_bad_text;
use std::alloc::{AllocError, Global};
use std::str::from_utf8;
use trace_types::{NameText, Text};

/// Reads a text; none where the field is not a good one.
#[tactic(auto, using(crate::proofs::TextLemmas::not_utf8, crate::proofs::TextLemmas::good, crate::proofs::TextLemmas::bad))]
pub(crate) fn text_of(field: &[u8]) -> Option<&str>
    ensures { option_map (λ t. t.now) result ≡ text_of field.now }
{
    let Ok(text) = from_utf8(field) else {
        return None;
    };
    if is_bad_text(text) { None } else { Some(text) }
}

/// Reads a text as [`text_of`] does, and copies it. The only error is out of memory.
pub(crate) fn read_text(alloc: Global, field: &[u8]) -> Result<Option<Text>, AllocError>
    ensures { IfOk result (λ text. text ≡ text_of field.now) }
{
    match text_of(field) {
        Some(text) => Ok(Some(Text::new(alloc, text)?)),
        None => Ok(None),
    }
}

/// Reads a name from its three texts; none where one is not a good text. The only error is out of
/// memory.
pub(crate) fn read_name(
    alloc: Global,
    task: &[u8],
    start: &[u8],
    end: &[u8],
) -> Result<Option<NameText>, AllocError>
    ensures { IfOk result (λ name. name ≡ name_of_texts task.now start.now end.now) }
{
    let (Some(task), Some(start), Some(end)) = (text_of(task), text_of(start), text_of(end)) else {
        return Ok(None);
    };
    Ok(Some(NameText {
        task: Text::new(alloc, task)?,
        start: Text::new(alloc, start)?,
        end: Text::new(alloc, end)?,
    }))
}
