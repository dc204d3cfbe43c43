ghost use Rattle.std.specs.Prelude.{◌≡◌, ◌++◌, OnOk};
ghost use Rattle.tail_picture.specs.Texts.{heat_end, heat_start, picture_start, row_start};
ghost use Rattle.tail_picture.specs.Texts.{table_end, table_start, tail_end, tail_start};

use markup::push_fixed;
use std::alloc::AllocError;

/// Appends how the part begins.
pub(crate) fn push_tail_start(bytes: &mut Vec<u8>) -> Result<(), AllocError>
    ensures { OnOk result (bytes.new.items ≡ bytes.old.items ++ tail_start) }
{
    push_fixed(
        bytes,
        "<section id=\"slow\"><h2>What makes the slowest 5 % slow?</h2>",
    )
}

/// Appends how its table begins.
pub(crate) fn push_table_start(bytes: &mut Vec<u8>) -> Result<(), AllocError>
    ensures { OnOk result (bytes.new.items ≡ bytes.old.items ++ table_start) }
{
    push_fixed(
        bytes,
        "<p class=\"key\"><i class=\"k path\"></i>slowest 5 %, mean per load on critical paths <i class=\"k off\"></i>the rest</p><table class=\"rank tailt\"><thead><tr><th class=\"n\">Segment<th class=\"b\">Per load<th>Slow<th>Rest<th>More in slow<th class=\"heat\">Loads from quickest to slowest</tr></thead><tbody>",
    )
}

/// Appends how the row of a segment begins.
pub(crate) fn push_row_start(bytes: &mut Vec<u8>) -> Result<(), AllocError>
    ensures { OnOk result (bytes.new.items ≡ bytes.old.items ++ row_start) }
{
    push_fixed(bytes, "<tr><td class=\"n\">")
}

/// Appends how the picture of a row begins.
pub(crate) fn push_picture_start(bytes: &mut Vec<u8>) -> Result<(), AllocError>
    ensures { OnOk result (bytes.new.items ≡ bytes.old.items ++ picture_start) }
{
    push_fixed(
        bytes,
        "<td class=\"b\"><svg class=\"bar\" width=\"100%\" height=\"18\">",
    )
}

/// Appends how its table ends.
pub(crate) fn push_table_end(bytes: &mut Vec<u8>) -> Result<(), AllocError>
    ensures { OnOk result (bytes.new.items ≡ bytes.old.items ++ table_end) }
{
    push_fixed(bytes, "</tbody></table>")
}

/// Appends how the part ends.
pub(crate) fn push_tail_end(bytes: &mut Vec<u8>) -> Result<(), AllocError>
    ensures { OnOk result (bytes.new.items ≡ bytes.old.items ++ tail_end) }
{
    push_fixed(bytes, "</section>")
}

/// Appends how the cells of a name begin.
pub(crate) fn push_heat_start(bytes: &mut Vec<u8>) -> Result<(), AllocError>
    ensures { OnOk result (bytes.new.items ≡ bytes.old.items ++ heat_start) }
{
    push_fixed(
        bytes,
        "<td class=\"heat\"><svg class=\"bar\" width=\"100%\" height=\"18\">",
    )
}

/// Appends how the row of a name ends behind its cells.
pub(crate) fn push_heat_end(bytes: &mut Vec<u8>) -> Result<(), AllocError>
    ensures { OnOk result (bytes.new.items ≡ bytes.old.items ++ heat_end) }
{
    push_fixed(bytes, "</svg></tr>")
}
