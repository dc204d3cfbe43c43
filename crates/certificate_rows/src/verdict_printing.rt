ghost use Rattle.std.specs.Prelude.{◌≡◌, ◌^◌, ◌<◌, Bool, List, codes, length};
ghost use Rattle.std.specs.List.{AllZip};
ghost use Rattle.book_laws.specs.Shown.{AreShown};
ghost use Rattle.kept_books.specs.KeptBooks.{traces_in};
ghost use Rattle.session_rules.specs.CertificateTexts.{verdict_row};
ghost use Rattle.session_rules.specs.KeptTraces.{Kept};
ghost use Rattle.session_rules.specs.Parts.{IsPart, count_row};
ghost use Rattle.session_rules.specs.Refutations.{IsVerdict};
ghost use Rattle.session_rules.specs.Sessions.{verify_parts};
ghost use Rattle.text_rows.specs.Printing.{PrintsText, print_faults};
ghost use Rattle.text_rows.specs.TextsOfParts.{PrintsTexts};

use crate::laws::claims_are_shown;
use certificates::Claim;
use counterexamples::shown;
use kept_books::KeptBook;
use mystery_io::Sink;
use session_rules::SessionPart;
use text_rows::laws::{part_calls_follow, parts_follow};
use text_rows::{Field, PrintFault, RowBuffer, print_row};

/// Prints whether the claim of a line is shown.
fn print_verdict<S: Sink>(
    sink: &mut S,
    buffer: &mut RowBuffer,
    is_shown: bool,
    line: u32,
) -> Result<(), PrintFault>
    ensures { PrintsText S.written S.faults result sink.old sink.new buffer.old buffer.new
        (verdict_row is_shown line) }
{
    let word = if is_shown { "shown" } else { "not shown" };
    print_row(
        sink,
        buffer,
        &[Field::Word(word), Field::Number(u128::from(line))],
    )
}

/// Prints how many claims are shown, and how many there are.
fn print_verified<S: Sink>(
    sink: &mut S,
    buffer: &mut RowBuffer,
    shown: u32,
    claims: u64,
) -> Result<(), PrintFault>
    ensures { PrintsText S.written S.faults result sink.old sink.new buffer.old buffer.new
        (count_row (codes "verified") shown claims) }
{
    print_row(
        sink,
        buffer,
        &[
            Field::Word("verified"),
            Field::Number(u128::from(shown)),
            Field::Number(u128::from(claims)),
        ],
    )
}

/// Prints for each claim whether the traces of a book show it, by the number of its line, and then
/// how many are shown and how many there are. A claim is shown where the trace that it names has
/// its request and refutes its relation; it need not be the first that does.
///
/// After an error a prefix of the text was printed, and nothing is said of the buffer.
pub fn print_verdicts<S: Sink>(
    book: &KeptBook,
    claims: &[Claim],
    sink: &mut S,
    buffer: &mut RowBuffer,
) -> Result<(), PrintFault>
    requires few { length claims.now < 2 ^ 32 }
    ensures printed { (kept : List Kept) → AreShown book.now.known (traces_in book.now) kept
        → (verdicts : List Bool) → AllZip (IsVerdict kept) claims.now verdicts
        → PrintsTexts S.written S.faults result sink.old sink.new IsPart
        (verify_parts claims.now verdicts) buffer.old buffer.new }
    ensures counted { S.faults sink.new ≡ print_faults result (S.faults sink.old) }
{
    // For the proof alone.
    parts_follow::<SessionPart>();
    part_calls_follow::<S, SessionPart>();
    claims_are_shown();
    let days = book.day_book();
    let catalogue = book.catalogue();
    let mut count = 0;
    'claims: for claim in claims {
        let is_shown = shown(days, catalogue, claim);
        print_verdict(sink, buffer, is_shown, claim.line)?;
        if is_shown {
            count += 1;
        }
    }
    print_verified(sink, buffer, count, claims.len() as u64)
}
