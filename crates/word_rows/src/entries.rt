ghost use Rattle.std.specs.Prelude.{◌≡◌, IfOk, IsTrue};
ghost use Rattle.word_rows.specs.Rows.{is_ascending, is_blank, is_row};

use std::alloc::{AllocError, Global};
use std::marker::Model;

/// The bits of one word that are to be cleared.
#[derive(Clone, Copy, Debug, PartialEq, Eq)]
pub struct Entry {
    /// The word, counted from 0.
    pub word: u32,
    /// The bits of the mask are those to be cleared.
    pub mask: u64,
}

/// A list of entries that has the form of a row: at least one entry, the words rise strictly and no
/// mask is 0. A row that clears nothing is the one entry (0, 0).
#[derive(Debug, Drop)]
pub struct Row {
    entries: Vec<Entry>,
}

impl Model for Row {
    ghost use Rattle.std.specs.Prelude.{◌≡◌, List, true};
    ghost use Rattle.word_rows.specs.declared.entries.Entry.{Entry};
    ghost use Rattle.word_rows.specs.Rows.{is_row};

    ghost Value = { List Entry };

    ghost view = { λ r. r.entries.items };

    ghost invariant = { λ r. is_row r.entries.items ≡ true };
}

/// Tests whether the only entry is (0, 0).
fn clears_nothing(entries: &[Entry]) -> bool
    ensures { result ≡ is_blank entries.now }
{
    match entries {
        [only] => only.word == 0 && only.mask == 0,
        _ => false,
    }
}

/// Tests whether the words rise strictly and no mask is 0.
fn ascends(entries: &[Entry]) -> bool
    ensures { result ≡ is_ascending entries.now }
{
    let mut least = 0u64;
    for entry in entries {
        if u64::from(entry.word) < least || entry.mask == 0 {
            return false;
        }
        least = u64::from(entry.word) + 1;
    }
    true
}

impl Row {
    /// Tests whether the entries have the form of a row.
    pub fn fits(entries: &[Entry]) -> bool
        ensures { result ≡ is_row entries.now }
    {
        clears_nothing(entries) || (!entries.is_empty() && ascends(entries))
    }

    /// Makes the row of these entries, whose form `fits` tests.
    pub fn of(entries: Vec<Entry>) -> Row
        requires { IsTrue (is_row entries.items) }
        ensures { result ≡ entries.items }
    {
        Row { entries }
    }

    /// Lends the entries, their words rising.
    pub fn entries(&self) -> &[Entry]
        ensures same { result.now ≡ self.now }
        ensures form { IsTrue (is_row self.now) }
    {
        self.entries.as_slice()
    }

    /// Gives the entries back, and takes no memory.
    pub fn into_entries(self) -> Vec<Entry>
        ensures { result.items ≡ self }
    {
        self.entries
    }

    /// Makes a second row with the same entries. The only error is that memory ran out.
    pub fn copy(&self, alloc: Global) -> Result<Row, AllocError>
        ensures { IfOk result (λ r. r ≡ self.now) }
    {
        Ok(Row {
            entries: Vec::from_slice(alloc, self.entries.as_slice())?,
        })
    }
}

impl PartialEq for Row {
    ghost use Rattle.std.proofs.Common.{rules};
    ghost use Rattle.std.specs.Cmp.Lexicographic.{lists_per};
    ghost use Rattle.std.specs.Cmp.Rules.{comparing};
    ghost use Rattle.word_rows.specs.Rows.{same_row};

    ghost eq = { same_row };

    ghost laws = { lists_per (Prim.search (comparing, rules)) };

    fn eq(&self, other: &Row) -> bool {
        self.entries == other.entries
    }
}

impl Eq for Row {
    ghost use Rattle.std.proofs.Common.{rules};
    ghost use Rattle.std.specs.Cmp.Lexicographic.{lists_equiv};
    ghost use Rattle.std.specs.Cmp.Rules.{comparing};

    ghost laws = { lists_equiv (Prim.search (comparing, rules)) };
}
