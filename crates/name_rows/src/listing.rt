ghost use Rattle.std.specs.Prelude.{◌≡◌, ◌<◌, ◌≤◌, ◌++◌, ℕ, All, IfOk, OnOk, length};
ghost use Rattle.evidence_rules.specs.EvidenceRows.{rows_where, supported};
ghost use Rattle.name_rows.specs.Kinds.{between_at, is_told, rows_in, traces_of};
ghost use Rattle.name_rows.specs.declared.kind.NameKind.{NameKind as Kind};
ghost use Rattle.name_rows.specs.inner.Listings.{row_told, rows_of_pair, rows_of_place};

use crate::NameKind;
use evidence_rules::{Between, PairRow};
use name_meetings::MeetingTable;
use std::alloc::{AllocError, Global};

/// The rows of two names of each kind, by the first name and then by the second.
#[derive(Debug, Drop)]
pub struct NameLists {
    /// The orders.
    pub orders: Vec<PairRow<Between>>,
    /// The exclusions.
    pub exclusions: Vec<PairRow<Between>>,
    /// The orders that few traces refute.
    pub nearly_orders: Vec<PairRow<Between>>,
    /// The exclusions that few traces refute.
    pub nearly_exclusions: Vec<PairRow<Between>>,
}

/// Appends the row of the names at two places, with these figures, where it is of the kind and so
/// many traces support it.
fn add_row(
    kind: NameKind,
    least: u32,
    first: u32,
    second: u32,
    figures: Between,
    rows: &mut Vec<PairRow<Between>>,
) -> Result<(), AllocError>
    ensures { OnOk result (rows.new.items
        ≡ rows.old.items ++ row_told kind least first second figures) }
{
    if kind.is_told(first, second, &figures) && least <= figures.traces {
        rows.push(PairRow {
            first,
            second,
            figures,
        })?;
    }
    Ok(())
}

/// Appends the rows of the names at two places, those of each kind to its list.
fn add_pair(
    table: &MeetingTable,
    names: &[u32],
    least: u32,
    first: u32,
    second: u32,
    lists: &mut NameLists,
) -> Result<(), AllocError>
    requires names { All (λ n. n < table.now.names) names.now }
    requires first { first < length names.now }
    requires second { second < length names.now }
    ensures { OnOk result ((kind : Kind) → rows_in lists.new kind
        ≡ rows_in lists.old kind ++ rows_of_pair table.now names.now kind least first second) }
{
    let figures = table.between(names[first as usize], names[second as usize]);
    let nearly = NameKind::NearlyExclusion;
    add_row(
        NameKind::Order,
        least,
        first,
        second,
        figures,
        &mut lists.orders,
    )?;
    add_row(
        NameKind::Exclusion,
        least,
        first,
        second,
        figures,
        &mut lists.exclusions,
    )?;
    add_row(
        NameKind::NearlyOrder,
        least,
        first,
        second,
        figures,
        &mut lists.nearly_orders,
    )?;
    add_row(
        nearly,
        least,
        first,
        second,
        figures,
        &mut lists.nearly_exclusions,
    )
}

/// Appends those of the name at one place with all.
fn add_place(
    table: &MeetingTable,
    names: &[u32],
    least: u32,
    first: u32,
    lists: &mut NameLists,
) -> Result<(), AllocError>
    requires names { All (λ n. n < table.now.names) names.now }
    requires few { length names.now ≤ 512 }
    requires first { first < length names.now }
    ensures { OnOk result ((kind : Kind) → rows_in lists.new kind ≡ rows_in lists.old kind
        ++ rows_of_place table.now names.now kind least (length names.now) first) }
{
    let count = names.len() as u32;
    'seconds: for second in 0..count {
        add_pair(table, names, least, first, second, lists)?;
    }
    Ok(())
}

/// Lists the rows of each kind of the names with these numbers that so many traces support, in one
/// pass over their figures. The only error is out of memory.
pub fn list_rows(
    alloc: Global,
    table: &MeetingTable,
    names: &[u32],
    least: u32,
) -> Result<NameLists, AllocError>
    requires names { All (λ n. n < table.now.names) names.now }
    requires few { length names.now ≤ 512 }
    ensures { IfOk result (λ lists. (kind : Kind) → rows_in lists kind
        ≡ rows_where (between_at table.now names.now)
        (supported traces_of least (is_told kind)) (length names.now)) }
{
    let count = names.len() as u32;
    let mut lists = NameLists {
        orders: Vec::new(alloc),
        exclusions: Vec::new(alloc),
        nearly_orders: Vec::new(alloc),
        nearly_exclusions: Vec::new(alloc),
    };
    'firsts: for first in 0..count {
        add_place(table, names, least, first, &mut lists)?;
    }
    Ok(lists)
}
