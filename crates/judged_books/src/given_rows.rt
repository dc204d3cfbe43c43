ghost use Rattle.std.specs.Prelude.{◌≡◌, ◌+◌, ◌<◌, ◌⊎◌, IsTrue, IfOk, List, ℕ, OnOk, length, take};
ghost use Rattle.hypothesis_index.specs.Places.{pairs_below, width_of};
ghost use Rattle.refute_tests.specs.Clearing.{AddsExactly, ClearsExactly};
ghost use Rattle.word_rows.specs.Rows.{below};
ghost use Rattle.judged_books.specs.inner.MarkedRows.{AreTriangle, RowTells, RowsTell, TellsOfNames};
ghost use Rattle.judged_books.specs.inner.MarkedRows.{TellsOfTasks, name_width, name_word};
ghost use Rattle.judged_books.specs.inner.MarkedRows.{task_width, task_word};
ghost use Rattle.judged_books.specs.inner.MarkedRows.{tells_after, tells_before, tells_both};
ghost use Rattle.judged_books.specs.inner.MarkedRows.{tells_exclusive};

use digest_text::{DigestTable, NameRow, TaskRow};
use hypothesis_index::Relation;
use hypothesis_index::laws::pairs_follow;
use refute_tests::clear_if;
use std::alloc::{AllocError, Global};
use word_rows::laws::below_wider;
use word_rows::{Row, RowMaker};

/// The mark of a pair of which nothing is known.
const UNKNOWN: u8 = b'.';

/// Tells whether the mark says that some trace has both.
fn tells_both(mark: u8) -> bool
    ensures { result ≡ tells_both mark }
{
    mark != UNKNOWN
}

/// Tells whether the mark says that the first order is refuted.
fn tells_before(mark: u8) -> bool
    ensures { result ≡ tells_before mark }
{
    mark.saturating_sub(b'0') % 2 == 1
}

/// Tells whether the mark says that the second order is refuted.
fn tells_after(mark: u8) -> bool
    ensures { result ≡ tells_after mark }
{
    mark.saturating_sub(b'0') / 2 % 2 == 1
}

/// Tells whether the mark says that mutual exclusion is refuted.
fn tells_exclusive(mark: u8) -> bool
    ensures { result ≡ tells_exclusive mark }
{
    mark.saturating_sub(b'0') / 4 == 1
}

/// Clears the places of what the mark of two tasks tells.
fn clear_tasks(maker: &mut RowMaker, low: u32, high: u32, mark: u8) -> Result<(), AllocError>
    requires rises { low < high }
    requires small { high < 64 }
    requires no_later { IsTrue (below (task_word low high + 1) maker.old) }
    ensures cleared { OnOk result (AddsExactly maker.old (TellsOfTasks low high mark) maker.new) }
    ensures no_later { OnOk result (IsTrue (below (task_word low high + 1) maker.new)) }
{
    clear_if(
        maker,
        tells_before(mark),
        Relation::Pipe {
            from: low,
            to: high,
        },
    )?;
    clear_if(
        maker,
        tells_after(mark),
        Relation::Pipe {
            from: high,
            to: low,
        },
    )?;
    clear_if(maker, tells_both(mark), Relation::Unshared { low, high })?;
    Ok(())
}

/// Clears the places of what the mark of two names tells.
fn clear_names(maker: &mut RowMaker, low: u32, high: u32, mark: u8) -> Result<(), AllocError>
    requires rises { low < high }
    requires small { high < 512 }
    requires no_later { IsTrue (below (name_word low high + 1) maker.old) }
    ensures cleared { OnOk result (AddsExactly maker.old (TellsOfNames low high mark) maker.new) }
    ensures no_later { OnOk result (IsTrue (below (name_word low high + 1) maker.new)) }
{
    clear_if(
        maker,
        tells_before(mark),
        Relation::Before {
            first: low,
            second: high,
        },
    )?;
    clear_if(
        maker,
        tells_after(mark),
        Relation::Before {
            first: high,
            second: low,
        },
    )?;
    clear_if(
        maker,
        tells_exclusive(mark),
        Relation::Exclusive { low, high },
    )?;
    clear_if(maker, tells_both(mark), Relation::Apart { low, high })?;
    Ok(())
}

/// Clears the places of what the marks of a task tell.
fn clear_task_row(maker: &mut RowMaker, high: u32, marks: &[u8]) -> Result<(), AllocError>
    requires long { length marks.now ≡ high }
    requires small { high < 64 }
    requires no_later { IsTrue (below (task_width (pairs_below high)) maker.old) }
    ensures cleared { OnOk result
        (AddsExactly maker.old (RowTells TellsOfTasks high marks.now) maker.new) }
    ensures no_later { OnOk result
        (IsTrue (below (task_width (pairs_below (high + 1))) maker.new)) }
{
    // For the proof alone.
    below_wider();
    pairs_follow();
    'marks: for low in 0..high {
        clear_tasks(maker, low, high, marks[low as usize])?;
    }
    Ok(())
}

/// Clears the places of what the marks of a name tell.
fn clear_name_row(maker: &mut RowMaker, high: u32, marks: &[u8]) -> Result<(), AllocError>
    requires long { length marks.now ≡ high }
    requires small { high < 512 }
    requires no_later { IsTrue (below (name_width (pairs_below high)) maker.old) }
    ensures cleared { OnOk result
        (AddsExactly maker.old (RowTells TellsOfNames high marks.now) maker.new) }
    ensures no_later { OnOk result
        (IsTrue (below (name_width (pairs_below (high + 1))) maker.new)) }
{
    // For the proof alone.
    below_wider();
    pairs_follow();
    'marks: for low in 0..high {
        clear_names(maker, low, high, marks[low as usize])?;
    }
    Ok(())
}

/// Clears the places of what rows of tasks tell.
fn clear_task_rows(maker: &mut RowMaker, rows: &[TaskRow]) -> Result<(), AllocError>
    requires triangle { AreTriangle 64 rows.now }
    requires no_later { IsTrue (below 1 maker.old) }
    ensures cleared { OnOk result (AddsExactly maker.old (RowsTell TellsOfTasks rows.now) maker.new) }
    ensures no_later { OnOk result (IsTrue (below 126 maker.new)) }
{
    // For the proof alone.
    below_wider();
    pairs_follow();
    'rows: for high in 0..rows.len() {
        let row = &rows[high];
        clear_task_row(maker, high as u32, &row.marks)?;
    }
    Ok(())
}

/// Clears the places of what rows of names tell.
fn clear_name_rows(maker: &mut RowMaker, rows: &[NameRow]) -> Result<(), AllocError>
    requires triangle { AreTriangle 512 rows.now }
    requires no_later { IsTrue (below 126 maker.old) }
    ensures cleared { OnOk result (AddsExactly maker.old (RowsTell TellsOfNames rows.now) maker.new) }
    ensures no_later { OnOk result (IsTrue (below (width_of (length rows.now)) maker.new)) }
{
    // For the proof alone.
    below_wider();
    pairs_follow();
    'rows: for high in 0..rows.len() {
        let row = &rows[high];
        clear_name_row(maker, high as u32, &row.marks)?;
    }
    Ok(())
}

/// Makes the row of the bits of all relations that a table's marks tell. The only error is out of
/// memory.
pub(crate) fn make_row(alloc: Global, table: &DigestTable) -> Result<Row, AllocError>
    requires names { AreTriangle 512 table.now.names }
    requires tasks { AreTriangle 64 table.now.tasks }
    ensures clears { IfOk result (λ row. ClearsExactly row (λ r.
        RowsTell TellsOfTasks table.now.tasks r ⊎ RowsTell TellsOfNames table.now.names r)) }
    ensures within { IfOk result (λ row. IsTrue (below (width_of (length table.now.names)) row)) }
{
    let mut maker = RowMaker::new(alloc);
    clear_task_rows(&mut maker, &table.tasks)?;
    clear_name_rows(&mut maker, &table.names)?;
    maker.finish()
}
