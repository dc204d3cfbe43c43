ghost use Rattle.std.specs.Prelude.{◌≡◌, ◌++◌, OnOk};
ghost use Rattle.ranking_picture.specs.Texts.{between_name, others_end, others_start, picture_start, ranking_end, ranking_start, row_start, strip_start, table_end, table_start};

use markup::push_fixed;
use std::alloc::AllocError;

/// Appends how a picture in a table begins.
pub(crate) fn push_picture_start(bytes: &mut Vec<u8>) -> Result<(), AllocError>
    ensures { OnOk result (bytes.new.items ≡ bytes.old.items ++ picture_start) }
{
    push_fixed(
        bytes,
        "<td class=\"b\"><svg class=\"bar\" width=\"100%\" height=\"16\">",
    )
}

/// Appends how the strip begins.
pub(crate) fn push_strip_start(bytes: &mut Vec<u8>) -> Result<(), AllocError>
    ensures { OnOk result (bytes.new.items ≡ bytes.old.items ++ strip_start) }
{
    push_fixed(bytes, "<svg class=\"strip\" width=\"100%\" height=\"34\">")
}

/// Appends the name of the row for the time between segments.
pub(crate) fn push_between_name(bytes: &mut Vec<u8>) -> Result<(), AllocError>
    ensures { OnOk result (bytes.new.items ≡ bytes.old.items ++ between_name) }
{
    push_fixed(bytes, "<tr class=\"rest\"><td class=\"n\">between segments")
}

/// Appends how the row of a segment begins.
pub(crate) fn push_row_start(bytes: &mut Vec<u8>) -> Result<(), AllocError>
    ensures { OnOk result (bytes.new.items ≡ bytes.old.items ++ row_start) }
{
    push_fixed(bytes, "<tr><td class=\"n\">")
}

/// Appends how the list of the others begins.
pub(crate) fn push_others_start(bytes: &mut Vec<u8>) -> Result<(), AllocError>
    ensures { OnOk result (bytes.new.items ≡ bytes.old.items ++ others_start) }
{
    push_fixed(
        bytes,
        "<details><summary>The others by name</summary><ol class=\"others\">",
    )
}

/// Appends how the list of the others ends.
pub(crate) fn push_others_end(bytes: &mut Vec<u8>) -> Result<(), AllocError>
    ensures { OnOk result (bytes.new.items ≡ bytes.old.items ++ others_end) }
{
    push_fixed(bytes, "</ol></details>")
}

/// Appends how the ranking begins.
pub(crate) fn push_ranking_start(bytes: &mut Vec<u8>) -> Result<(), AllocError>
    ensures { OnOk result (bytes.new.items ≡ bytes.old.items ++ ranking_start) }
{
    push_fixed(
        bytes,
        "<section id=\"where\"><h2>Where did the time go, and what would pay?</h2>",
    )
}

/// Appends how the table begins.
pub(crate) fn push_table_start(bytes: &mut Vec<u8>) -> Result<(), AllocError>
    ensures { OnOk result (bytes.new.items ≡ bytes.old.items ++ table_start) }
{
    push_fixed(
        bytes,
        "<p class=\"key\"><i class=\"k path\"></i>on critical paths <i class=\"k gain\"></i>of it gained if it took no time <i class=\"k half\"></i>gained at half its time <i class=\"k wait\"></i>between segments (network, queues)</p><table class=\"rank\"><thead><tr><th class=\"n\">Segment<th class=\"b\">Share of all latency<th>Share<th>Per load<th>Gain per load<th>Loads</tr></thead><tbody>",
    )
}

/// Appends how the table ends.
pub(crate) fn push_table_end(bytes: &mut Vec<u8>) -> Result<(), AllocError>
    ensures { OnOk result (bytes.new.items ≡ bytes.old.items ++ table_end) }
{
    push_fixed(
        bytes,
        "</tbody></table><p class=\"note\">Gains do not add up: two segments beside each other gain nothing alone, two in a row may gain less together.</p>",
    )
}

/// Appends how the ranking ends.
pub(crate) fn push_ranking_end(bytes: &mut Vec<u8>) -> Result<(), AllocError>
    ensures { OnOk result (bytes.new.items ≡ bytes.old.items ++ ranking_end) }
{
    push_fixed(bytes, "</section>")
}
