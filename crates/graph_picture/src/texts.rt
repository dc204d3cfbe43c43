ghost use Rattle.std.specs.Prelude.{◌≡◌, ◌++◌, OnOk};
ghost use Rattle.graph_picture.specs.Texts.{graph_end, graph_start, markers, too_many};

use markup::push_fixed;
use std::alloc::AllocError;

/// Appends how the part begins.
pub(crate) fn push_graph_start(bytes: &mut Vec<u8>) -> Result<(), AllocError>
    ensures { OnOk result (bytes.new.items ≡ bytes.old.items ++ graph_start) }
{
    push_fixed(
        bytes,
        "<section id=\"graph\"><h2>What happens before what?</h2><p class=\"key\"><i class=\"k hb\"></i>happens before <i class=\"k mx\"></i>mutually exclusive <i class=\"k pipe\"></i>pipeline <i class=\"k path\"></i>share of critical paths</p><div class=\"scroll\">",
    )
}

/// Appends the heads of arrows.
pub(crate) fn push_markers(bytes: &mut Vec<u8>) -> Result<(), AllocError>
    ensures { OnOk result (bytes.new.items ≡ bytes.old.items ++ markers) }
{
    push_fixed(
        bytes,
        "<defs><marker id=\"arr\" viewBox=\"0 0 8 8\" refX=\"7\" refY=\"4\" markerWidth=\"7\" markerHeight=\"7\" orient=\"auto\"><path class=\"ah\" d=\"M0 0L8 4L0 8z\"/></marker><marker id=\"arp\" viewBox=\"0 0 8 8\" refX=\"7\" refY=\"4\" markerWidth=\"4\" markerHeight=\"4\" orient=\"auto\"><path class=\"ahp\" d=\"M0 0L8 4L0 8z\"/></marker></defs>",
    )
}

/// Appends how the part ends.
pub(crate) fn push_graph_end(bytes: &mut Vec<u8>) -> Result<(), AllocError>
    ensures { OnOk result (bytes.new.items ≡ bytes.old.items ++ graph_end) }
{
    push_fixed(bytes, "</p></section>")
}

/// Appends what stands for the graph of too many boxes.
pub(crate) fn push_too_many(bytes: &mut Vec<u8>) -> Result<(), AllocError>
    ensures { OnOk result (bytes.new.items ≡ bytes.old.items ++ too_many) }
{
    push_fixed(
        bytes,
        "<section id=\"graph\"><h2>What happens before what?</h2><p class=\"note\">There are more than 128 boxes: see the matrix.</p></section>",
    )
}
