ghost use Rattle.std.specs.Prelude.{◌≡◌, ◌++◌, OnOk};
ghost use Rattle.head_picture.specs.Texts.{columns_end, columns_start, head_start};

use markup::push_fixed;
use std::alloc::AllocError;

/// Appends how the head begins.
pub(crate) fn push_head_start(bytes: &mut Vec<u8>) -> Result<(), AllocError>
    ensures { OnOk result (bytes.new.items ≡ bytes.old.items ++ head_start) }
{
    push_fixed(bytes, "<header><h1>Where the time of loads goes</h1>")
}

/// Appends how the columns begin.
pub(crate) fn push_columns_start(bytes: &mut Vec<u8>) -> Result<(), AllocError>
    ensures { OnOk result (bytes.new.items ≡ bytes.old.items ++ columns_start) }
{
    push_fixed(
        bytes,
        "<figure class=\"dist\"><svg width=\"100%\" height=\"54\">",
    )
}

/// Appends how the columns end.
pub(crate) fn push_columns_end(bytes: &mut Vec<u8>) -> Result<(), AllocError>
    ensures { OnOk result (bytes.new.items ≡ bytes.old.items ++ columns_end) }
{
    push_fixed(
        bytes,
        "</svg><figcaption>Mean latency, the quickest loads first; hatched: between segments.</figcaption></figure>",
    )
}
