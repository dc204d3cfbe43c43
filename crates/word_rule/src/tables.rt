ghost use Rattle.std.specs.Prelude.{◌≡◌, ◌<◌, [], IfOk};
ghost use Rattle.word_rows.specs.Changes.{first_view};

use crate::passes::Pass;
use crate::rule::{Knowledge, OneHistory, Plan};
use atomic_table::Table;
use std::alloc::{AllocError, Global};
use std::marker::Model;

/// The words that threads share. Contracts see which table it is, the number of its words and the
/// number of all shares.
#[derive(Drop)]
pub struct MeetTable {
    pub(crate) table: Table<(), Knowledge, Plan, OneHistory, Global>,
    pub(crate) width: u32,
    pub(crate) all: u32,
}

impl Model for MeetTable {
    ghost use Rattle.word_rule.specs.Holdings.{Opened};
    ghost use Rattle.word_rule.specs.inner.Keeping.{IsTable};

    ghost Value = { Opened };

    ghost view = { λ t. record {
      table_id = t.table.shared.table_id;
      width = t.width;
      all = t.all;
    } };

    ghost invariant = { λ t. IsTable t.width t.all t.table.shared.key t.table.shared.table_id };
}

impl MeetTable {
    /// Opens a table of so many words with all bits 1, and a pass with all shares. The only error
    /// is that memory ran out.
    pub fn open(alloc: Global, width: u32, shares: u32) -> Result<(MeetTable, Pass), AllocError>
        requires width { 0 < width }
        requires shares { 0 < shares }
        ensures table { IfOk result (λ t. (t.0.width ≡ width) × (t.0.all ≡ shares)) }
        ensures pass { IfOk result (λ t. t.1 ≡ record {
          table_id = t.0.table_id;
          view = first_view shares;
          pasts = [];
        }) }
    {
        let words = Vec::from_elem(alloc, u64::MAX, width as usize)?;
        let plan = Plan { width, all: shares };
        let (table, seat) = Table::of_words(alloc, words.as_slice(), &plan)?;
        let table = MeetTable {
            table,
            width,
            all: shares,
        };
        Ok((table, Pass { seat, shares }))
    }

    /// Tells the number of words.
    pub fn width(&self) -> u32
        ensures width { result ≡ self.now.width }
        ensures some { 0 < result }
    {
        self.width
    }

    /// Tells the number of all shares.
    pub fn all(&self) -> u32
        ensures all { result ≡ self.now.all }
        ensures some { 0 < result }
    {
        self.all
    }
}
