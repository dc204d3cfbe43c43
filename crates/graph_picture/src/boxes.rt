ghost use Rattle.std.specs.Prelude.{◌≡◌, ◌≤◌, ◌++◌, OnOk};
ghost use Rattle.std.specs.List.{flat_map};
ghost use Rattle.graph_picture.specs.Boxes.{box_if, box_text, box_title, label_text, name_label};
ghost use Rattle.graph_picture.specs.Boxes.{name_title};
ghost use Rattle.graph_picture.specs.Boxes.{shape_text, share_text, task_label};

use crate::arrows::place_at;
use crate::shares::{box_time, critical_of, is_task, share_width};
use graph_layers::Place;
use markup::{Piece, Share, push_fixed, push_pieces};
use page_rows::{BoxRow, Page};
use picture_parts::{push_title, whole_of};
use std::alloc::AllocError;
use trace_types::NameText;

/// Appends the name of a box in a title.
fn push_name(bytes: &mut Vec<u8>, row: &BoxRow) -> Result<(), AllocError>
    ensures { OnOk result (bytes.new.items ≡ bytes.old.items ++ name_title row.now) }
{
    if is_task(row) {
        return push_pieces(bytes, &[Piece::Name(row.name.task.as_str())]);
    }
    push_title(bytes, &row.name)
}

/// Appends the time of a box and its share.
fn push_share(bytes: &mut Vec<u8>, page: &Page, row: &BoxRow) -> Result<(), AllocError>
    ensures { OnOk result (bytes.new.items ≡ bytes.old.items ++ share_text page.now row.now) }
{
    let time = box_time(page, row);
    let all = whole_of(time, critical_of(page));
    let share = Share::of(time, all);
    push_pieces(
        bytes,
        &[
            Piece::Fixed(": on critical paths "),
            Piece::Time(time),
            Piece::Fixed(", "),
            Piece::Share(share),
            Piece::Fixed("</title>"),
        ],
    )
}

/// Appends what the title of a box says.
#[tactic(auto, unfolding(crate::specs::Boxes::box_title))]
fn push_box_title(bytes: &mut Vec<u8>, page: &Page, row: &BoxRow) -> Result<(), AllocError>
    ensures { OnOk result (bytes.new.items ≡ bytes.old.items ++ box_title page.now row.now) }
{
    push_name(bytes, row)?;
    push_share(bytes, page, row)
}

/// Appends the shape of a box, and the line for its share.
fn push_shape(bytes: &mut Vec<u8>, width: u32, place: Place) -> Result<(), AllocError>
    ensures { OnOk result (bytes.new.items ≡ bytes.old.items ++ shape_text width place) }
{
    let x = u128::from(place.x);
    let y = u128::from(place.y);
    push_pieces(
        bytes,
        &[
            Piece::Fixed("<rect class=\"bx\" x=\""),
            Piece::Number(x),
            Piece::Fixed("\" y=\""),
            Piece::Number(y),
            Piece::Fixed("\" width=\"150\" height=\"34\" rx=\"3\"/><rect class=\"path\" x=\""),
            Piece::Number(x + 1),
            Piece::Fixed("\" y=\""),
            Piece::Number(y + 30),
            Piece::Fixed("\" width=\""),
            Piece::Number(u128::from(width)),
            Piece::Fixed("\" height=\"3\"/><svg x=\""),
            Piece::Number(x),
            Piece::Fixed("\" y=\""),
            Piece::Number(y),
            Piece::Fixed("\" width=\"150\" height=\"34\"><text class=\"gt\" x=\"5\" y=\"14\">"),
        ],
    )
}

/// Appends the label of a task.
fn push_task_label(bytes: &mut Vec<u8>, name: &NameText) -> Result<(), AllocError>
    ensures { OnOk result (bytes.new.items ≡ bytes.old.items ++ task_label name.now) }
{
    push_pieces(
        bytes,
        &[
            Piece::Name(name.task.as_str()),
            Piece::Fixed(
                "</text><text class=\"ge\" x=\"5\" y=\"26\">all segments</text></svg></g>",
            ),
        ],
    )
}

/// Appends the label of a name.
fn push_name_label(bytes: &mut Vec<u8>, name: &NameText) -> Result<(), AllocError>
    ensures { OnOk result (bytes.new.items ≡ bytes.old.items ++ name_label name.now) }
{
    push_pieces(
        bytes,
        &[
            Piece::Name(name.task.as_str()),
            Piece::Fixed("</text><text class=\"ge\" x=\"5\" y=\"26\">"),
            Piece::Name(name.start.as_str()),
            Piece::Fixed(" → "),
            Piece::Name(name.end.as_str()),
            Piece::Fixed("</text></svg></g>"),
        ],
    )
}

/// Appends the label of a box.
fn push_label(bytes: &mut Vec<u8>, row: &BoxRow) -> Result<(), AllocError>
    ensures { OnOk result (bytes.new.items ≡ bytes.old.items ++ label_text row.now) }
{
    if is_task(row) {
        return push_task_label(bytes, &row.name);
    }
    push_name_label(bytes, &row.name)
}

/// Appends a box with this number.
#[tactic(auto, unfolding(crate::specs::Boxes::box_text))]
fn push_box(
    bytes: &mut Vec<u8>,
    page: &Page,
    places: &[Place],
    row: &BoxRow,
    number: usize,
) -> Result<(), AllocError>
    requires { number ≡ row.now.number }
    ensures { OnOk result
        (bytes.new.items ≡ bytes.old.items ++ box_text page.now places.now row.now) }
{
    push_fixed(bytes, "<g><title>")?;
    push_box_title(bytes, page, row)?;
    push_shape(bytes, share_width(page, row), place_at(places, number))?;
    push_label(bytes, row)
}

/// Appends a box, if it is in the graph.
fn push_box_if(
    bytes: &mut Vec<u8>,
    page: &Page,
    places: &[Place],
    row: &BoxRow,
) -> Result<(), AllocError>
    ensures { OnOk result
        (bytes.new.items ≡ bytes.old.items ++ box_if page.now places.now row.now) }
{
    let number = row.number.get();
    if number >= page.boxes().len() as u128 {
        return Ok(());
    }
    push_box(bytes, page, places, row, number as usize)
}

/// Appends the boxes.
pub(crate) fn push_boxes(
    bytes: &mut Vec<u8>,
    page: &Page,
    places: &[Place],
    rows: &[BoxRow],
) -> Result<(), AllocError>
    ensures { OnOk result
        (bytes.new.items ≡ bytes.old.items ++ flat_map (box_if page.now places.now) rows.now) }
{
    'rows: for row in rows {
        push_box_if(bytes, page, places, row)?;
    }
    Ok(())
}
