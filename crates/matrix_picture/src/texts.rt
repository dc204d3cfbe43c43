ghost use Rattle.std.specs.Prelude.{◌≡◌, ◌++◌, OnOk};
ghost use Rattle.matrix_picture.specs.Texts.{matrix_end, matrix_start};

use markup::push_fixed;
use std::alloc::AllocError;

/// Appends how the part begins.
pub(crate) fn push_matrix_start(bytes: &mut Vec<u8>) -> Result<(), AllocError>
    ensures { OnOk result (bytes.new.items ≡ bytes.old.items ++ matrix_start) }
{
    push_fixed(
        bytes,
        "<section id=\"model\"><h2>What depends on what?</h2><p class=\"key\"><i class=\"k full\"></i>the row happens before the column <i class=\"k part\"></i>some of its names do <i class=\"k excl\"></i>mutually exclusive <i class=\"k over\"></i>overlap <i class=\"k pip\"></i>pipeline; empty: never in one load, or the column happens before the row</p><div class=\"scroll\">",
    )
}

/// Appends how the part ends.
pub(crate) fn push_matrix_end(bytes: &mut Vec<u8>) -> Result<(), AllocError>
    ensures { OnOk result (bytes.new.items ≡ bytes.old.items ++ matrix_end) }
{
    push_fixed(bytes, "</svg></div></section>")
}
