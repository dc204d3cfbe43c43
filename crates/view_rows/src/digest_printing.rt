ghost use Rattle.std.specs.Prelude.{◌≡◌, ℕ, List};
ghost use Rattle.digest_facts.specs.Digests.{Digest};
ghost use Rattle.judged_books.specs.JudgedBooks.{IsJudgedOf};
ghost use Rattle.session_rules.specs.DigestTexts.{IsDigestText};
ghost use Rattle.session_rules.specs.KeptTraces.{Kept};
ghost use Rattle.text_rows.specs.Printing.{print_faults};
ghost use Rattle.text_rows.specs.TextsOfParts.{PrintsPart};
ghost use Rattle.trace_types.specs.Segments.{SegmentName};

use digest_text::make_text;
use judged_books::JudgedBook;
use mystery_io::Sink;
use std::alloc::Global;
use text_rows::{PrintFault, RowBuffer, print_texts};

/// Prints the digest of both: of the traces that the given digest stands for, and of those of the
/// book. The text is made before any of it is printed. After an error a prefix of it was printed,
/// or nothing.
pub fn print_digest<S: Sink>(
    alloc: Global,
    book: &JudgedBook<'_>,
    sink: &mut S,
    buffer: &mut RowBuffer,
) -> Result<(), PrintFault>
    ensures printed { (given : Digest SegmentName (List ℕ)) (kept : List Kept)
        → IsJudgedOf book.now given kept
        → PrintsPart S.written S.faults result sink.old sink.new (IsDigestText given kept)
        buffer.old buffer.new }
    ensures counted { S.faults sink.new ≡ print_faults result (S.faults sink.old) }
{
    let table = book.digest(alloc)?;
    let text = make_text(alloc, &table)?;
    print_texts(sink, buffer, &[text])
}
