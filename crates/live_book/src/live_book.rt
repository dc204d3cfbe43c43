ghost use Rattle.std.specs.Prelude.{◌≡◌, ◌≤◌, IfOk};
ghost use Rattle.live_book.specs.Callers.{first_caller};

use crate::callers::Caller;
use crate::rule::{Knowledge, OneJournal, Plan};
use atomic_table::Table;
use live_journal::JournaledBook;
use std::alloc::{AllocError, Global};
use std::marker::Model;

/// A book of days that callers on many threads share by reference. Contracts see which it is, and
/// the numbers of names and turns at opening. A thread that dies in its turn stops the others: no
/// turn comes after it.
#[derive(Drop)]
pub struct LiveBook {
    pub(crate) table: Table<Option<JournaledBook>, Knowledge, Plan, OneJournal, Global>,
}

impl Model for LiveBook {
    ghost use Rattle.live_book.specs.Callers.{OpenBook};
    ghost use Rattle.live_book.specs.inner.Seats.{IsShared};

    ghost Value = { OpenBook };

    ghost view = { λ b. record {
      table_id = b.table.shared.table_id;
      names = b.table.shared.key.names;
      turns = b.table.shared.key.turns;
    } };

    ghost invariant = { λ b. IsShared b.table.shared.table_id };
}

impl LiveBook {
    /// Opens a book without days and entries, for so many names, and a caller with so many turns:
    /// each call that waits spends one. The only error is that memory ran out.
    pub fn open(alloc: Global, names: u32, turns: u64) -> Result<(LiveBook, Caller), AllocError>
        requires { names ≤ 512 }
        ensures names { IfOk result (λ r. r.0.names ≡ names) }
        ensures turns { IfOk result (λ r. r.0.turns ≡ turns) }
        ensures caller { IfOk result (λ r. r.1 ≡ first_caller r.0) }
    {
        let book = JournaledBook::new(alloc, names)?;
        let slots = Vec::from_array(alloc, [Some(book)])?;
        let plan = Plan { names, turns };
        let Ok((table, seat)) = Table::new(alloc, &[0, 0, 0], slots, &plan) else {
            return Err(AllocError);
        };
        Ok((LiveBook { table }, Caller { seat, turns }))
    }
}
