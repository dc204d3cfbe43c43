ghost use Rattle.std.specs.Prelude.{◌≡◌, ◌++◌, OnOk};
ghost use Rattle.lanes_picture.specs.Texts.{lanes_end, loads_end, loads_start, names_start, row_start, table_end};

use markup::push_fixed;
use std::alloc::AllocError;

/// Appends how the loads begin.
pub(crate) fn push_loads_start(bytes: &mut Vec<u8>) -> Result<(), AllocError>
    ensures { OnOk result (bytes.new.items ≡ bytes.old.items ++ loads_start) }
{
    push_fixed(
        bytes,
        "<section id=\"loads\"><h2>Single loads</h2><p class=\"key\"><i class=\"k path\"></i>critical path <i class=\"k off\"></i>beside it <i class=\"k slk\"></i>slack: could last so much longer <i class=\"k wait\"></i>between segments</p>",
    )
}

/// Appends how the loads end.
pub(crate) fn push_loads_end(bytes: &mut Vec<u8>) -> Result<(), AllocError>
    ensures { OnOk result (bytes.new.items ≡ bytes.old.items ++ loads_end) }
{
    push_fixed(bytes, "</section>")
}

/// Appends how the row of a bar begins.
pub(crate) fn push_row_start(bytes: &mut Vec<u8>) -> Result<(), AllocError>
    ensures { OnOk result (bytes.new.items ≡ bytes.old.items ++ row_start) }
{
    push_fixed(bytes, "<tr><td class=\"n\">")
}

/// Appends how the names of lanes begin.
pub(crate) fn push_names_start(bytes: &mut Vec<u8>) -> Result<(), AllocError>
    ensures { OnOk result (bytes.new.items ≡ bytes.old.items ++ names_start) }
{
    push_fixed(
        bytes,
        "<div class=\"gantt\"><div class=\"names\"><div class=\"axisgap\"></div><div class=\"lane top\">critical path</div>",
    )
}

/// Appends how lanes end, and a table of their bars begins.
pub(crate) fn push_lanes_end(bytes: &mut Vec<u8>) -> Result<(), AllocError>
    ensures { OnOk result (bytes.new.items ≡ bytes.old.items ++ lanes_end) }
{
    push_fixed(
        bytes,
        "</svg></div></div><details><summary>As a table</summary><div class=\"scroll\"><table class=\"rank\"><thead><tr><th class=\"n\">Segment<th>From<th>Lasts<th>Slack</tr></thead><tbody>",
    )
}

/// Appends how a table of bars ends, and a load.
pub(crate) fn push_table_end(bytes: &mut Vec<u8>) -> Result<(), AllocError>
    ensures { OnOk result (bytes.new.items ≡ bytes.old.items ++ table_end) }
{
    push_fixed(bytes, "</tbody></table></div></details></details>")
}
