ghost use Rattle.std.specs.Prelude.{◌≡◌, ◌++◌, OnOk};
ghost use Rattle.picture_parts.specs.Bars.{bar_text, caption_start};

use crate::Span;
use markup::{Piece, push_pieces};
use std::alloc::AllocError;

/// Appends a bar of a class, at these pixels down.
#[tactic(auto, unfolding(crate::specs::Bars::bar_text))]
pub fn push_bar(
    bytes: &mut Vec<u8>,
    class: &str,
    span: Span,
    y: u32,
    height: u32,
) -> Result<(), AllocError>
    ensures { OnOk result (bytes.new.items ≡ bytes.old.items ++ bar_text class.now span y height) }
{
    push_pieces(
        bytes,
        &[
            Piece::Fixed("<rect class=\""),
            Piece::Fixed(class),
            Piece::Fixed("\" x=\""),
            Piece::Place(span.x),
            Piece::Fixed("\" width=\""),
            Piece::Place(span.width),
            Piece::Fixed("\" y=\""),
            Piece::Number(u128::from(y)),
            Piece::Fixed("\" height=\""),
            Piece::Number(u128::from(height)),
            Piece::Fixed("\"/>"),
        ],
    )
}

/// Begins a text over a bar, cut at its end; the text follows, and the ends of both elements.
#[tactic(auto, unfolding(crate::specs::Bars::caption_start))]
pub fn begin_caption(bytes: &mut Vec<u8>, span: Span, height: u32, y: u32) -> Result<(), AllocError>
    ensures { OnOk result (bytes.new.items ≡ bytes.old.items ++ caption_start span height y) }
{
    push_pieces(
        bytes,
        &[
            Piece::Fixed("<svg x=\""),
            Piece::Place(span.x),
            Piece::Fixed("\" width=\""),
            Piece::Place(span.width),
            Piece::Fixed("\" height=\""),
            Piece::Number(u128::from(height)),
            Piece::Fixed("\"><text class=\"in\" x=\"5\" y=\""),
            Piece::Number(u128::from(y)),
            Piece::Fixed("\">"),
        ],
    )
}
