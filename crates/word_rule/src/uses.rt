ghost use Rattle.std.specs.Prelude.{◌≡◌, ◌<◌, length, IfSome, IsTrue};
ghost use Rattle.word_rows.specs.Rows.{below};
ghost use Rattle.word_rule.specs.Holdings.{IsOfTable};
ghost use Rattle.word_rule.specs.Uses.{HasOfferedAndRead, OfferedInOneHistory};

use crate::laws::not_both_miss;
use crate::passes::Pass;
use crate::tables::MeetTable;
use std::alloc::Global;
use std::thread::{self, Threads};
use word_rows::laws::{block_lacks, lacks_append};
use word_rows::{Row, Sheet};

/// Offers the row by a pass, and then reads all words.
fn offer_and_read(
    table: &MeetTable,
    mut pass: Pass,
    row: &Row,
    mut into: Vec<u64>,
) -> (Pass, Vec<u64>)
    requires table { IsOfTable table.now pass }
    requires row { IsTrue (below table.now.width row.now) }
    requires width { length into.items ≡ table.now.width }
    ensures { HasOfferedAndRead table.now pass row.now result.1.items result.0 }
{
    table.offer(&mut pass, row);
    table.read(&mut pass, into.as_mut_slice());
    (pass, into)
}

/// Opens a table for two passes. Two threads beside one another each offer a row and then read; the
/// passes become one and close. Both readings stand in the one history that the close ends, and not
/// both miss the other's row. Gives the two readings and the words at the end, or nothing where
/// memory ran out.
pub fn offer_and_read_beside<R: Threads + Sync>(
    rt: &R,
    alloc: Global,
    width: u32,
    row: &Row,
    other_row: &Row,
) -> Option<(Vec<u64>, Vec<u64>, Sheet)>
    requires width { 0 < width }
    requires row { IsTrue (below width row.now) }
    requires other_row { IsTrue (below width other_row.now) }
    ensures { IfSome result
        (λ r. OfferedInOneHistory width 2 row.now other_row.now r.0.items r.1.items r.2) }
{
    // For the proof alone.
    not_both_miss();
    block_lacks();
    lacks_append();
    row.entries();
    other_row.entries();
    let first = Vec::from_elem(alloc, 0u64, width as usize).ok()?;
    let second = Vec::from_elem(alloc, 0u64, width as usize).ok()?;
    let Ok((table, mut one)) = MeetTable::open(alloc, width, 2) else {
        return None;
    };
    let other = table.split(&mut one, 1);
    let shared = &table;
    let ((mut one, first), (other, second)) = thread::join(
        rt,
        || -> (Pass, Vec<u64>)
            requires { IsOfTable shared.now one × IsTrue (below shared.now.width row.now)
                × (length first.items ≡ shared.now.width) }
            ensures { HasOfferedAndRead shared.entry.now one row.entry.now result.1.items
                result.0 }
        { offer_and_read(shared, one, row, first) },
        || -> (Pass, Vec<u64>)
            requires { IsOfTable shared.now other × IsTrue (below shared.now.width other_row.now)
                × (length second.items ≡ shared.now.width) }
            ensures { HasOfferedAndRead shared.entry.now other other_row.entry.now
                result.1.items result.0 }
        { offer_and_read(shared, other, other_row, second) },
    );
    table.join(&mut one, other);
    match table.close(alloc, one) {
        Ok(closed) => Some((first, second, closed.words)),
        Err(_) => None,
    }
}
