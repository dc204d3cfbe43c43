ghost use Rattle.std.specs.Prelude.{◌≡◌, ◌*◌, ◌≤◌, ◌^◌, IfOk, string_bytes};
ghost use Rattle.pretty_cli.specs.Titles.{IsTitleLine, legend, title_columns, titled_view};

use crate::context::{Context, Kind, View};
use crate::cut::cut;
use crate::line::columns_within;
use std::alloc::{AllocError, Global};

/// Finds the view whose titles stand below a row: below the header, and in a report below the
/// latencies. It is `Other` where none do.
pub(crate) fn titled_view(context: Context) -> View
    ensures { result ≡ titled_view context.view context.kind }
{
    match (context.view, context.kind) {
        (View::Report, Kind::Latency) => View::Report,
        (View::Report, _) => View::Other,
        (view, Kind::Header) => view,
        _ => View::Other,
    }
}

/// Lends the titles of a view's columns.
fn title_columns(view: View) -> &'static str
    ensures { result.now ≡ title_columns view }
{
    match view {
        View::Report => " on path     share    median  greatest  ",
        View::Paths => " on path     share   latency  ",
        View::Slack => "   slack     lasts   latency  ",
        View::Tail => "   apart      slow    others  ",
        View::WhatIf => "    gain     share    before     after  ",
        View::Evidence => "  traces     least  greatest  ",
        View::Other => "",
    }
}

/// Lends what the labels of a view are.
fn legend(view: View) -> &'static str
    ensures { result.now ≡ legend view }
{
    match view {
        View::Report => "segment (on paths of times seen)",
        View::Paths => "trace, and its critical path",
        View::Slack => "trace, and its segments",
        View::Tail => "segment, on the path of a slow trace and of another",
        View::WhatIf => "trace, and its critical path",
        View::Evidence => "relation, and the gaps between its sides",
        View::Other => "",
    }
}

/// Makes the line of a view's titles, cut at so many columns of the terminal.
pub(crate) fn title_line(alloc: Global, view: View, limit: usize) -> Result<String, AllocError>
    ensures { IfOk result (λ line. IsTitleLine limit view (string_bytes line)) }
{
    let mut line = String::from_str(alloc, title_columns(view))?;
    cut(&mut line, 10 * columns_within(limit));
    line.push_str(legend(view))?;
    cut(&mut line, limit);
    Ok(line)
}
