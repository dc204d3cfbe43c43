use crate::given_names::list_given;
use crate::given_rows::make_row;
use digest_text::DigestTable;
use segment_names::Catalogue;
use std::alloc::{AllocError, Global};
use std::marker::Model;
use word_rows::Row;

/// A given digest: its table, and the row of the bits of the relations that it lists, by the numbers
/// of a catalogue that begins with its names and tasks.
#[derive(Drop)]
pub struct GivenDigest {
    table: DigestTable,
    row: Row,
}

impl Model for GivenDigest {
    ghost use Rattle.judged_books.specs.GivenDigests.{GivenState};

    ghost Value = { GivenState };

    ghost view = { λ g. record { table = g.table; row = g.row } };
}

impl GivenDigest {
    ghost use Rattle.std.specs.Prelude.{◌≡◌, IfOk, List, ℕ};
    ghost use Rattle.trace_types.specs.Segments.{SegmentName};
    ghost use Rattle.digest_facts.specs.Digests.{Digest};
    ghost use Rattle.digest_merging.specs.Merges.{IsGivenTable, IsTableOf};
    ghost use Rattle.judged_books.specs.GivenDigests.{IsGivenOf, known_of};

    /// Takes a digest by its table, and makes the catalogue of its names and tasks, each in their
    /// order. The only error is out of memory.
    pub fn of(alloc: Global, table: DigestTable) -> Result<(GivenDigest, Catalogue), AllocError>
        requires { IsGivenTable table }
        ensures given { IfOk result (λ r. (given : Digest SegmentName (List ℕ))
            → IsTableOf given table → IsGivenOf given r.0) }
        ensures known { IfOk result (λ r. (given : Digest SegmentName (List ℕ))
            → IsTableOf given table → r.1 ≡ known_of given) }
    {
        let catalogue = list_given(alloc, &table)?;
        let row = make_row(alloc, &table)?;
        Ok((GivenDigest { table, row }, catalogue))
    }

    /// Lends the table.
    pub fn table(&self) -> &DigestTable
        ensures { result.now ≡ self.now.table }
    {
        &self.table
    }

    /// Lends the row.
    pub fn row(&self) -> &Row
        ensures { result.now ≡ self.now.row }
    {
        &self.row
    }
}
