ghost use Rattle.std.specs.Prelude.{◌≡◌, ◌++◌, OnOk};
ghost use Rattle.room_picture.specs.Texts.{key_text, lines_start, picture_start, rooms_end};
ghost use Rattle.room_picture.specs.Texts.{rooms_start, row_start, rows_start, table_end};
ghost use Rattle.room_picture.specs.Texts.{table_start};

use markup::push_fixed;
use std::alloc::AllocError;

/// Appends how the part begins.
pub(crate) fn push_rooms_start(bytes: &mut Vec<u8>) -> Result<(), AllocError>
    ensures { OnOk result (bytes.new.items ≡ bytes.old.items ++ rooms_start) }
{
    push_fixed(
        bytes,
        "<section id=\"slack\"><h2>Who can grow unnoticed?</h2>",
    )
}

/// Appends what its pictures mean.
pub(crate) fn push_key(bytes: &mut Vec<u8>) -> Result<(), AllocError>
    ensures { OnOk result (bytes.new.items ≡ bytes.old.items ++ key_text) }
{
    push_fixed(
        bytes,
        "<p class=\"key\"><i class=\"k range\"></i>least to greatest slack <i class=\"k box\"></i>middle 80 % of loads <i class=\"k med\"></i>median; 0 = on a longest chain; the steps 1, 2, 5 and 10 are equally wide, up to the slowest load. Time between segments does not count, so true room may be greater.</p>",
    )
}

/// Appends how its table begins, up to the axis.
pub(crate) fn push_table_start(bytes: &mut Vec<u8>) -> Result<(), AllocError>
    ensures { OnOk result (bytes.new.items ≡ bytes.old.items ++ table_start) }
{
    push_fixed(
        bytes,
        "<table class=\"rank\"><thead><tr><th class=\"n\">Segment<th class=\"b\"><svg class=\"axis\" width=\"100%\" height=\"14\"><text x=\"2%\" y=\"11\">0</text>",
    )
}

/// Appends how the head of the table goes on behind the texts of the axis, up to its lines.
pub(crate) fn push_lines_start(bytes: &mut Vec<u8>) -> Result<(), AllocError>
    ensures { OnOk result (bytes.new.items ≡ bytes.old.items ++ lines_start) }
{
    push_fixed(
        bytes,
        "</svg><svg width=\"0\" height=\"0\" aria-hidden=\"true\"><defs><g id=\"decades\"><line class=\"grid\" x1=\"2%\" x2=\"2%\" y1=\"0\" y2=\"22\"/>",
    )
}

/// Appends how the rows begin.
pub(crate) fn push_rows_start(bytes: &mut Vec<u8>) -> Result<(), AllocError>
    ensures { OnOk result (bytes.new.items ≡ bytes.old.items ++ rows_start) }
{
    push_fixed(
        bytes,
        "</g></defs></svg><th>9 of 10 loads<th>Median<th>No slack</tr></thead><tbody>",
    )
}

/// Appends how the row of a segment begins.
pub(crate) fn push_row_start(bytes: &mut Vec<u8>) -> Result<(), AllocError>
    ensures { OnOk result (bytes.new.items ≡ bytes.old.items ++ row_start) }
{
    push_fixed(bytes, "<tr><td class=\"n\">")
}

/// Appends how the picture of a row begins.
pub(crate) fn push_picture_start(bytes: &mut Vec<u8>) -> Result<(), AllocError>
    ensures { OnOk result (bytes.new.items ≡ bytes.old.items ++ picture_start) }
{
    push_fixed(
        bytes,
        "<td class=\"b\"><svg class=\"bar\" width=\"100%\" height=\"22\"><use href=\"#decades\"/>",
    )
}

/// Appends how its table ends.
pub(crate) fn push_table_end(bytes: &mut Vec<u8>) -> Result<(), AllocError>
    ensures { OnOk result (bytes.new.items ≡ bytes.old.items ++ table_end) }
{
    push_fixed(bytes, "</tbody></table>")
}

/// Appends how the part ends.
pub(crate) fn push_rooms_end(bytes: &mut Vec<u8>) -> Result<(), AllocError>
    ensures { OnOk result (bytes.new.items ≡ bytes.old.items ++ rooms_end) }
{
    push_fixed(bytes, "</section>")
}
