ghost use Rattle.std.specs.Prelude.{◌≡◌, ◌++◌, OnOk};
ghost use Rattle.refute_picture.specs.Texts.{none_text, refutes_end, refutes_start, row_start};
ghost use Rattle.refute_picture.specs.Texts.{second_start, table_end, table_start};

use markup::push_fixed;
use std::alloc::AllocError;

/// Appends how the part begins.
pub(crate) fn push_refutes_start(bytes: &mut Vec<u8>) -> Result<(), AllocError>
    ensures { OnOk result (bytes.new.items ≡ bytes.old.items ++ refutes_start) }
{
    push_fixed(
        bytes,
        "<section id=\"why\"><h2>What refutes a relation?</h2>",
    )
}

/// Appends how its table begins.
pub(crate) fn push_table_start(bytes: &mut Vec<u8>) -> Result<(), AllocError>
    ensures { OnOk result (bytes.new.items ≡ bytes.old.items ++ table_start) }
{
    push_fixed(
        bytes,
        "<table class=\"rank wit\"><thead><tr><th class=\"n\">These two run beside each other<th class=\"w\">since they overlap in this load, first of all<th>Pairs of names</tr></thead><tbody>",
    )
}

/// Appends how the row of two boxes begins.
pub(crate) fn push_row_start(bytes: &mut Vec<u8>) -> Result<(), AllocError>
    ensures { OnOk result (bytes.new.items ≡ bytes.old.items ++ row_start) }
{
    push_fixed(bytes, "<tr><td class=\"n\"><div>")
}

/// Appends what stands between the labels of two boxes.
pub(crate) fn push_second_start(bytes: &mut Vec<u8>) -> Result<(), AllocError>
    ensures { OnOk result (bytes.new.items ≡ bytes.old.items ++ second_start) }
{
    push_fixed(bytes, "</div><div>")
}

/// Appends how its table ends.
pub(crate) fn push_table_end(bytes: &mut Vec<u8>) -> Result<(), AllocError>
    ensures { OnOk result (bytes.new.items ≡ bytes.old.items ++ table_end) }
{
    push_fixed(bytes, "</tbody></table>")
}

/// Appends what stands in place of a table without rows.
pub(crate) fn push_none(bytes: &mut Vec<u8>) -> Result<(), AllocError>
    ensures { OnOk result (bytes.new.items ≡ bytes.old.items ++ none_text) }
{
    push_fixed(
        bytes,
        "<p class=\"note\">No two segments overlap in any load.</p>",
    )
}

/// Appends how the part ends.
pub(crate) fn push_refutes_end(bytes: &mut Vec<u8>) -> Result<(), AllocError>
    ensures { OnOk result (bytes.new.items ≡ bytes.old.items ++ refutes_end) }
{
    push_fixed(bytes, "</section>")
}
