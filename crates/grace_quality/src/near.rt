ghost use Rattle.std.specs.Prelude.{◌≡◌, ◌++◌, ◌<◌, All, IfOk, OnOk, true};
ghost use Rattle.name_meetings.specs.Tables.{figures_of};
ghost use Rattle.grace_quality.specs.Near.{are_fewer, is_near_exclusion, is_near_order, is_slight};
ghost use Rattle.grace_quality.specs.Near.{near_of, near_rows};
ghost use Rattle.grace_quality.specs.declared.near.NearRelation.{NearRelation};
ghost use Rattle.grace_quality.specs.inner.Listings.{rows_of_name};

use evidence_rules::Between;
use name_meetings::MeetingTable;
use std::alloc::{AllocError, Global};

/// A relation of two names.
#[derive(Clone, Copy, Debug, PartialEq, Eq)]
pub enum NearKind {
    /// The first happens before the second.
    Order,
    /// The two are mutually exclusive.
    Exclusion,
}

/// A relation of two names that few traces refute, and all of these by little.
#[derive(Clone, Copy, Debug, PartialEq, Eq)]
pub struct NearRelation {
    /// Which relation.
    pub kind: NearKind,
    /// The number of the first name.
    pub first: u32,
    /// The number of the second name.
    pub second: u32,
    /// How many traces refute it.
    pub refuted: u32,
    /// How many traces have both names.
    pub traces: u32,
    /// The index of the first trace that refutes it.
    pub trace: u32,
    /// The gap of the trace that refutes it by most, in nanoseconds; below 0.
    pub gap: i128,
}

/// Tells whether some traces refute a relation, and fewer than one in a hundred.
fn are_fewer(refuted: u32, traces: u32) -> bool
    ensures { result ≡ are_fewer refuted traces }
{
    0 < refuted && 100 * u64::from(refuted) < u64::from(traces)
}

/// Tells whether a gap is less than a millisecond below none.
fn is_slight(gap: i128) -> bool
    ensures { result ≡ is_slight gap }
{
    -1_000_000 < gap
}

/// Tells whether few traces refute that the first of two names happens before the second, and by
/// little.
fn is_near_order(first: u32, second: u32, figures: &Between) -> bool
    ensures { result ≡ is_near_order first second figures.now }
{
    first != second && are_fewer(figures.early, figures.traces) && is_slight(figures.least)
}

/// Tells whether few traces refute that two names are mutually exclusive, and by little.
fn is_near_exclusion(first: u32, second: u32, figures: &Between) -> bool
    ensures { result ≡ is_near_exclusion first second figures.now }
{
    first < second && are_fewer(figures.both, figures.traces) && is_slight(figures.nearest)
}

/// Appends what two names with these figures nearly keep.
fn add_pair(
    rows: &mut Vec<NearRelation>,
    first: u32,
    second: u32,
    figures: &Between,
) -> Result<(), AllocError>
    ensures { OnOk result (rows.new.items ≡ rows.old.items ++ near_of first second figures.now) }
{
    if is_near_order(first, second, figures) {
        rows.push(NearRelation {
            kind: NearKind::Order,
            first,
            second,
            refuted: figures.early,
            traces: figures.traces,
            trace: figures.first_early,
            gap: figures.least,
        })?;
    }
    if is_near_exclusion(first, second, figures) {
        rows.push(NearRelation {
            kind: NearKind::Exclusion,
            first,
            second,
            refuted: figures.both,
            traces: figures.traces,
            trace: figures.first_both,
            gap: figures.nearest,
        })?;
    }
    Ok(())
}

/// Appends what one name nearly keeps with all.
fn add_name(
    table: &MeetingTable,
    names: u32,
    first: u32,
    rows: &mut Vec<NearRelation>,
) -> Result<(), AllocError>
    requires names { names ≡ table.now.names }
    requires first { first < names }
    ensures { OnOk result (rows.new.items
        ≡ rows.old.items ++ rows_of_name (figures_of table.now) names first) }
{
    'seconds: for second in 0..names {
        add_pair(rows, first, second, &table.between(first, second))?;
    }
    Ok(())
}

/// Finds the relations of each two names that fewer than one in a hundred of the traces with both
/// refute, and any, all of these by less than a millisecond, by the numbers of the names. The only
/// error is out of memory.
pub fn find_near(
    alloc: Global,
    table: &MeetingTable,
    names: u32,
) -> Result<Vec<NearRelation>, AllocError>
    requires { names ≡ table.now.names }
    ensures rows { IfOk result (λ rows. rows.items ≡ near_rows (figures_of table.now) names) }
    ensures slight { IfOk result
        (λ rows. All (λ (r : NearRelation). is_slight r.gap ≡ true) rows.items) }
{
    let mut rows = Vec::new(alloc);
    'firsts: for first in 0..names {
        add_name(table, names, first, &mut rows)?;
    }
    Ok(rows)
}
