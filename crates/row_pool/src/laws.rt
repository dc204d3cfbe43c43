//! What follows from the definitions alone. Each law is the contract of a function that does
//! nothing.
ghost use Rattle.row_pool.specs.Keeping.{OneRowChanges, OtherRowsStay};

/// A written row has these words, a taken one is full, and one that was given back is not live.
pub fn one_row_changes()
    ensures { OneRowChanges }
{}

/// Writing, taking and giving back a row change no other row.
pub fn other_rows_stay()
    ensures { OtherRowsStay }
{}
