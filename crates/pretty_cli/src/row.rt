ghost use Rattle.std.specs.Prelude.{IfOk, OnOk, string_bytes};
ghost use Rattle.pretty_cli.specs.Fields.{texts_of};
ghost use Rattle.pretty_cli.specs.Texts.{AddsTitles, AreRowsOf, IsRowOf, IsRowText, IsShownLine};
ghost use Rattle.pretty_cli.specs.Texts.{IsShownText};

use crate::cells::cells_of;
use crate::context::{Context, Kind, View};
use crate::fields::fields_of;
use crate::label::label_text;
use crate::line::line_of;
use crate::place::{Place, place_of};
use crate::titles::{title_line, titled_view};
use std::alloc::{AllocError, Global};

/// A line of the text, with what the lines before it tell of it.
#[derive(Clone, Copy)]
pub(crate) struct Row<'t> {
    /// Where it stands.
    pub(crate) place: Place,
    /// What it is.
    pub(crate) context: Context,
    /// The line.
    pub(crate) line: &'t str,
}

/// Makes the row of a line below this context.
fn row_of<'t>(alloc: Global, before: Context, line: &'t str) -> Result<Row<'t>, AllocError>
    ensures { IfOk result (λ row. IsRowOf before line.now row) }
{
    let fields = fields_of(alloc, line)?;
    let context = before.after(&fields);
    Ok(Row {
        place: place_of(context, &fields),
        context,
        line,
    })
}

/// Makes the rows of lines, one for each, in their order.
pub(crate) fn rows_of<'t>(alloc: Global, lines: &[&'t str]) -> Result<Vec<Row<'t>>, AllocError>
    ensures { IfOk result (λ rows. AreRowsOf (texts_of lines.now) rows.items) }
{
    let mut rows = Vec::with_capacity(alloc, lines.len())?;
    let mut context = Context::new();
    'lines: for line in lines {
        let row = row_of(alloc, context, line)?;
        context = row.context;
        rows.push(row)?;
    }
    Ok(rows)
}

/// Makes the line of a row of a view: its columns and its label.
fn shown_line(
    alloc: Global,
    context: Context,
    fields: &[&str],
    limit: usize,
) -> Result<String, AllocError>
    ensures { IfOk result (λ line.
        IsShownLine limit context (texts_of fields.now) (string_bytes line)) }
{
    let label = label_text(alloc, context, fields)?;
    line_of(alloc, &cells_of(context, fields), label.as_str(), limit)
}

/// Appends the line of titles that stands below a row, if one does.
fn push_titles(
    alloc: Global,
    text: &mut String,
    context: Context,
    limit: usize,
) -> Result<(), AllocError>
    ensures { OnOk result (AddsTitles limit context (string_bytes text.old) (string_bytes text.new)) }
{
    match titled_view(context) {
        View::Other => Ok(()),
        view => {
            let titles = title_line(alloc, view, limit)?;
            text.push('\n')?;
            text.push_str(titles.as_str())
        }
    }
}

/// Makes the text of a row of a view: its line, and the titles below it.
fn shown_text(alloc: Global, row: &Row<'_>, limit: usize) -> Result<String, AllocError>
    ensures { IfOk result (λ text. IsShownText limit row.now (string_bytes text)) }
{
    let fields = fields_of(alloc, row.line)?;
    let mut text = shown_line(alloc, row.context, &fields, limit)?;
    push_titles(alloc, &mut text, row.context, limit)?;
    Ok(text)
}

/// Makes the text that a row is printed as.
pub(crate) fn row_text(alloc: Global, row: &Row<'_>, limit: usize) -> Result<String, AllocError>
    ensures { IfOk result (λ text. IsRowText limit row.now (string_bytes text)) }
{
    match row.context.kind {
        Kind::Other => String::from_str(alloc, row.line),
        _ => shown_text(alloc, row, limit),
    }
}
