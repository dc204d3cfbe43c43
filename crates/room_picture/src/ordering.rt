ghost use Rattle.std.specs.Prelude.{◌≡◌, ◌++◌, IfOk, IsPermutation, OnOk};
ghost use Rattle.std.specs.List.{flat_map};
ghost use Rattle.std.specs.List.Sorted.{IsSortedByKey};
ghost use Rattle.std.specs.Ordering.{nat_cmp};
ghost use Rattle.room_picture.specs.Rooms.{IsRoomOrder, room_key, row_if_free};

use page_rows::{Amount, Page, RoomRow};
use std::alloc::{AllocError, Global};

/// Copies the row of a name.
fn copy_row(alloc: Global, row: &RoomRow) -> Result<RoomRow, AllocError>
    ensures { IfOk result (λ made. made ≡ row.now) }
{
    Ok(RoomRow {
        name: row.name.copy(alloc)?,
        count: Amount::of(row.count.get()),
        zero: Amount::of(row.zero.get()),
        least: Amount::of(row.least.get()),
        tenth: Amount::of(row.tenth.get()),
        median: Amount::of(row.median.get()),
        ninetieth: Amount::of(row.ninetieth.get()),
        greatest: Amount::of(row.greatest.get()),
    })
}

/// Appends the row of a name, if it has slack in some load.
fn add_row(alloc: Global, row: &RoomRow, rows: &mut Vec<RoomRow>) -> Result<(), AllocError>
    ensures { OnOk result (rows.new.items ≡ rows.old.items ++ row_if_free row.now) }
{
    if row.greatest.get() > 0 {
        rows.push(copy_row(alloc, row)?)?;
    }
    Ok(())
}

/// Makes the rows of the names that have slack in some load.
fn list_rows(alloc: Global, rooms: &[RoomRow]) -> Result<Vec<RoomRow>, AllocError>
    ensures { IfOk result (λ rows. rows.items ≡ flat_map row_if_free rooms.now) }
{
    let mut rows = Vec::new(alloc);
    'rooms: for row in rooms {
        add_row(alloc, row, &mut rows)?;
    }
    Ok(rows)
}

/// Returns the key by which rows are ordered: the one with most slack in nine of ten loads has the
/// least.
fn room_key(row: &RoomRow) -> u128
    ensures { result ≡ room_key row.now }
{
    u128::MAX - row.tenth.get()
}

/// Brings rows into order, those first that have most slack in nine of ten loads.
fn order_rows(rows: &mut Vec<RoomRow>) -> Result<(), AllocError>
    ensures same { IsPermutation rows.old.items rows.new.items }
    ensures sorted { OnOk result (IsSortedByKey room_key nat_cmp rows.new.items) }
{
    rows.sort_by_key(room_key)?;
    Ok(())
}

/// Finds the names that have slack in some load, those first that have most in nine of ten. The only
/// error is out of memory.
pub fn order_rooms(alloc: Global, page: &Page) -> Result<Vec<RoomRow>, AllocError>
    ensures { IfOk result (λ rows. IsRoomOrder page.now rows.items) }
{
    let mut rows = list_rows(alloc, page.rooms())?;
    order_rows(&mut rows)?;
    Ok(rows)
}
