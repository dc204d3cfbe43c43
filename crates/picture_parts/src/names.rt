ghost use Rattle.std.specs.Prelude.{◌≡◌, ◌++◌, OnOk};
ghost use Rattle.picture_parts.specs.Names.{isolated_text, label_text, same_name, title_text};

use markup::{Piece, push_pieces};
use std::alloc::AllocError;
use trace_types::{NameText, Text};

/// Appends the name of a segment as it stands in a table.
#[tactic(auto, unfolding(crate::specs::Names::label_text))]
pub fn push_label(bytes: &mut Vec<u8>, name: &NameText) -> Result<(), AllocError>
    ensures { OnOk result (bytes.new.items ≡ bytes.old.items ++ label_text name.now) }
{
    push_pieces(
        bytes,
        &[
            Piece::Fixed("<b><bdi>"),
            Piece::Name(name.task.as_str()),
            Piece::Fixed("</bdi></b> <span class=\"ev\"><bdi>"),
            Piece::Name(name.start.as_str()),
            Piece::Fixed("</bdi> → <bdi>"),
            Piece::Name(name.end.as_str()),
            Piece::Fixed("</bdi></span>"),
        ],
    )
}

/// Appends the name of a segment as it stands in a title.
#[tactic(auto, unfolding(crate::specs::Names::title_text))]
pub fn push_title(bytes: &mut Vec<u8>, name: &NameText) -> Result<(), AllocError>
    ensures { OnOk result (bytes.new.items ≡ bytes.old.items ++ title_text name.now) }
{
    push_pieces(
        bytes,
        &[
            Piece::Fixed("\u{2068}"),
            Piece::Name(name.task.as_str()),
            Piece::Fixed("\u{2069}: \u{2068}"),
            Piece::Name(name.start.as_str()),
            Piece::Fixed("\u{2069} → \u{2068}"),
            Piece::Name(name.end.as_str()),
            Piece::Fixed("\u{2069}"),
        ],
    )
}

/// Appends a text as it stands in a title.
pub fn push_isolated(bytes: &mut Vec<u8>, text: &Text) -> Result<(), AllocError>
    ensures { OnOk result (bytes.new.items ≡ bytes.old.items ++ isolated_text text.now) }
{
    push_pieces(
        bytes,
        &[
            Piece::Fixed("\u{2068}"),
            Piece::Name(text.as_str()),
            Piece::Fixed("\u{2069}"),
        ],
    )
}

/// Tells whether two names are equal.
pub fn same_name(a: &NameText, b: &NameText) -> bool
    ensures { result ≡ same_name a.now b.now }
{
    a.task.as_str() == b.task.as_str()
        && a.start.as_str() == b.start.as_str()
        && a.end.as_str() == b.end.as_str()
}
