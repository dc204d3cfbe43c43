ghost use Rattle.std.specs.Prelude.{◌≡◌, ◌*◌, ◌<◌, ◌≤◌};
ghost use Rattle.name_meetings.specs.Tables.{figures_of};
ghost use Rattle.grace_quality.specs.Near.{count_met, met_of};
ghost use Rattle.grace_quality.specs.inner.Listings.{met_with};

use evidence_rules::Between;
use name_meetings::MeetingTable;

/// Tells how many relations there are of two names with these figures, where some trace has both.
fn met_of(first: u32, second: u32, figures: &Between) -> u64
    ensures count { result ≡ met_of first second figures.now }
    ensures few { result ≤ 2 }
{
    if figures.traces == 0 || first == second {
        0
    } else if first < second {
        2
    } else {
        1
    }
}

/// Counts the relations of one name with all.
fn met_with(table: &MeetingTable, names: u32, first: u32) -> u64
    requires names { names ≡ table.now.names }
    requires first { first < names }
    ensures count { result ≡ met_with (figures_of table.now) names first }
    ensures few { result ≤ 2 * names }
{
    let mut met = 0;
    'seconds: for second in 0..names {
        met += met_of(first, second, &table.between(first, second));
    }
    met
}

/// Counts the relations of each two names that some trace has both of: an order of two different
/// names, and an exclusion of two.
pub fn count_met(table: &MeetingTable, names: u32) -> u64
    requires names { names ≡ table.now.names }
    requires few { names ≤ 512 }
    ensures { result ≡ count_met (figures_of table.now) names }
{
    let mut met = 0;
    'firsts: for first in 0..names {
        met += met_with(table, names, first);
    }
    met
}
