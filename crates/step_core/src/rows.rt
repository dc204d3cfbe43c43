ghost use Rattle.std.specs.Prelude.{◌≡◌, IfOk, Some};
ghost use Rattle.step_core.specs.StepLines.{entry_of, row_of_words, line_words};

use crate::cutting::first_part;
use crate::numbers::{mask_number, plain_number};
use std::alloc::{AllocError, Global};
use word_rows::{Entry, Row};

/// Reads an entry, `WORD:MASK`; none where the word has another form.
fn read_entry(word: &[u8]) -> Option<Entry>
    ensures { result ≡ entry_of word.now }
{
    let part = first_part(word, b':');
    let mask = first_part(part.rest?, b':');
    let word = plain_number(part.first)?;
    if mask.rest.is_some() {
        return None;
    }
    let mask = mask_number(mask.first)?;
    Some(Entry { word, mask })
}

/// Reads the entries of a row, with exactly one space between them; none where they have another
/// form, or not the form of a row. The only error is that memory ran out.
pub(crate) fn read_row(alloc: Global, text: &[u8]) -> Result<Option<Row>, AllocError>
    ensures { IfOk result (λ row. row ≡ row_of_words (line_words text.now)) }
{
    let mut entries = Vec::new(alloc);
    let mut left = Some(text);
    'entries: while let Some(words) = left {
        let part = first_part(words, b' ');
        let Some(entry) = read_entry(part.first) else {
            return Ok(None);
        };
        entries.push(entry)?;
        left = part.rest;
    }
    if Row::fits(&entries) {
        Ok(Some(Row::of(entries)))
    } else {
        Ok(None)
    }
}
