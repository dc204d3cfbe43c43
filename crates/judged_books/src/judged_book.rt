ghost use Rattle.std.specs.Prelude.{◌≡◌, IfOk, length};
ghost use Rattle.kept_books.specs.KeptBooks.{IsKeptBook};
ghost use Rattle.word_rows.specs.Rows.{below};
ghost use Rattle.judged_books.specs.inner.Copies.{IsSheetOfBook};

use crate::{GivenDigest, digest_of_kept};
use digest_merging::merge_digests;
use digest_text::DigestTable;
use kept_books::KeptBook;
use std::alloc::{AllocError, Global};
use std::marker::Model;
use word_rows::{Row, Sheet};

/// Kept traces with a given digest, borrowed, and the words that tell which relations neither
/// refutes: a bit is 1 where its relation survives.
#[derive(Drop)]
pub struct JudgedBook<'a> {
    book: &'a KeptBook,
    given: &'a GivenDigest,
    words: Sheet,
}

impl<'a> Model for JudgedBook<'a> {
    ghost use Rattle.judged_books.specs.JudgedBooks.{IsJudgedBook, JudgedState};

    ghost Value = { JudgedState };

    ghost view = { λ j. record { book = j.book.now; given = j.given.now; words = j.words } };

    ghost invariant = { λ j. IsJudgedBook
        (record { book = j.book.now; given = j.given.now; words = j.words }) };
}

/// Tells whether all words of a row are below the width.
fn is_within(row: &Row, width: usize) -> bool
    ensures { result ≡ below width row.now }
{
    'entries: for entry in row.entries() {
        if entry.word as usize >= width {
            return false;
        }
    }
    true
}

/// Copies the words of a book. The only error is out of memory.
fn copy_words(alloc: Global, book: &KeptBook) -> Result<Sheet, AllocError>
    ensures { IfOk result (λ sheet. IsSheetOfBook book.now sheet) }
{
    // Its contract tells what every kept book keeps.
    let _names = book.names();
    let words = book.words();
    let mut copy = Vec::with_capacity(alloc, words.len())?;
    copy.extend_from_slice(words)?;
    Ok(Sheet::of(copy))
}

impl<'a> JudgedBook<'a> {
    ghost use Rattle.std.specs.Prelude.{List, ℕ};
    ghost use Rattle.hypothesis_index.specs.Places.{width_of};
    ghost use Rattle.session_rules.specs.KeptTraces.{Kept};
    ghost use Rattle.trace_types.specs.Segments.{SegmentName};
    ghost use Rattle.digest_facts.specs.Digests.{Digest};
    ghost use Rattle.judged_books.specs.JudgedBooks.{IsJudgedBook, IsJudgedOf};
    ghost use Rattle.judged_books.specs.KeptDigests.{IsJudgedTable};

    /// Judges the kept traces of a book together with a given digest. The only error is out of
    /// memory.
    pub fn judge(
        alloc: Global,
        book: &'a KeptBook,
        given: &'a GivenDigest,
    ) -> Result<JudgedBook<'a>, AllocError>
        ensures book { IfOk result (λ j. j.book ≡ book.now) }
        ensures given { IfOk result (λ j. j.given ≡ given.now) }
        ensures judged { IfOk result IsJudgedBook }
    {
        let mut words = copy_words(alloc, book)?;
        let row = given.row();
        if is_within(row, words.words().len()) {
            words.meet_row(row);
        }
        // Its contract tells that each word has 64 bits.
        let _words = words.words();
        Ok(JudgedBook { book, given, words })
    }

    /// Lends the book.
    pub fn book(&self) -> &'a KeptBook
        ensures book { result.now ≡ self.now.book }
        ensures judged { IsJudgedBook self.now }
    {
        self.book
    }

    /// Lends the table of the given digest.
    pub fn table(&self) -> &'a DigestTable
        ensures table { result.now ≡ self.now.given.table }
        ensures judged { IsJudgedBook self.now }
    {
        self.given.table()
    }

    /// Lends the words.
    pub fn words(&self) -> &[u64]
        ensures words { result.now ≡ self.now.words }
        ensures width { length result.now ≡ width_of (length self.now.book.known.names) }
        ensures judged { IsJudgedBook self.now }
    {
        self.words.words()
    }

    /// Makes the table of the given digest and that of the kept traces, merged. The names and the
    /// tasks of both are those of the book, and their traces can be counted, so that the only error
    /// is out of memory.
    pub fn digest(&self, alloc: Global) -> Result<DigestTable, AllocError>
        ensures { IfOk result (λ table. (given : Digest SegmentName (List ℕ)) (kept : List Kept)
            → IsJudgedOf self.now given kept → IsJudgedTable given kept table) }
    {
        let kept = digest_of_kept(alloc, self.book)?;
        match merge_digests(alloc, self.given.table(), &kept) {
            Ok(table) => Ok(table),
            Err(_) => Err(AllocError),
        }
    }
}
