ghost use Rattle.std.specs.Prelude.{◌≡◌};
ghost use Rattle.pretty_cli.specs.Fields.{texts_of};
ghost use Rattle.pretty_cli.specs.Orders.{place_of, rank_of, tail_rank};

use crate::cells::each_of;
use crate::context::{Context, Kind, View};
use crate::fields::number_at;

/// Where a row stands among the others: rows are printed by rising places.
#[derive(Clone, Copy, PartialEq, Eq, PartialOrd, Ord)]
pub(crate) struct Place {
    /// The number of the part of the text that it is in: each header and each row of another kind
    /// begins one.
    pub(crate) section: u64,
    /// The rank of its trace in the section, the slowest first; 0 for what stands above them.
    pub(crate) group: u64,
    /// The number of its trace, which keeps traces of one latency apart.
    pub(crate) turn: u64,
    /// The rank of the row in its group.
    pub(crate) rank: u128,
}

/// Ranks a segment of `tail`: first those that are longer on the paths of slow traces.
fn tail_rank(context: Context, fields: &[&str]) -> u128
    ensures { result ≡ tail_rank context (texts_of fields.now) }
{
    let slow = each_of(number_at(fields, 5), context.slow);
    let other = each_of(number_at(fields, 7), context.others);
    (1 << 64) + u128::from(other) - u128::from(slow)
}

/// Ranks a row in its group: what matters most first.
fn rank_of(context: Context, fields: &[&str]) -> u128
    ensures { result ≡ rank_of context.view context.kind context (texts_of fields.now) }
{
    match (context.view, context.kind) {
        (View::Report, Kind::Segment) => u128::from(u64::MAX - number_at(fields, 9)),
        (View::Slack, Kind::Segment) => u128::from(number_at(fields, 5)) + 1,
        (View::Tail, Kind::Segment) => tail_rank(context, fields),
        (_, Kind::Forecast) => {
            let gain = number_at(fields, 3).saturating_sub(number_at(fields, 4));
            u128::from(u64::MAX - gain)
        }
        (_, Kind::Latency | Kind::Step) => 1,
        _ => 0,
    }
}

/// Places a row.
pub(crate) fn place_of(context: Context, fields: &[&str]) -> Place
    ensures { result ≡ place_of context (texts_of fields.now) }
{
    let group = match context.kind {
        Kind::Header | Kind::Latency | Kind::Other => 0,
        _ => context.group,
    };
    Place {
        section: context.section,
        group,
        turn: context.turn,
        rank: rank_of(context, fields),
    }
}
