ghost use Rattle.std.specs.Prelude.{◌≡◌, ◌++◌, OnOk};
ghost use Rattle.markup.specs.Parts.{part_of_piece, part_text, pieces_text};

use crate::{Share, push_fixed, push_name, push_number, push_place, push_share, push_time};
use std::alloc::AllocError;

/// A part of a page.
#[derive(Clone, Copy, Debug)]
pub enum Piece<'t> {
    /// Text of the program's own.
    Fixed(&'t str),
    /// A name, which is escaped.
    Name(&'t str),
    /// A number in plain digits.
    Number(u128),
    /// A place from 0 to 100,000 of the width of a picture.
    Place(u32),
    /// A time in nanoseconds.
    Time(u128),
    /// A part of a whole in percent.
    Share(Share),
}

/// Appends a part.
fn push_piece(bytes: &mut Vec<u8>, piece: &Piece<'_>) -> Result<(), AllocError>
    ensures { OnOk result (bytes.new.items ≡ bytes.old.items ++ part_text (part_of_piece piece.now)) }
{
    match piece {
        Piece::Fixed(text) => push_fixed(bytes, text),
        Piece::Name(name) => push_name(bytes, name),
        Piece::Number(number) => push_number(bytes, *number),
        Piece::Place(place) => push_place(bytes, *place),
        Piece::Time(nanos) => push_time(bytes, *nanos),
        Piece::Share(share) => push_share(bytes, share.part(), share.whole()),
    }
}

/// Appends parts, one behind the other. The only error is out of memory, after which the bytes may
/// end in the middle of a part.
pub fn push_pieces(bytes: &mut Vec<u8>, pieces: &[Piece<'_>]) -> Result<(), AllocError>
    ensures { OnOk result (bytes.new.items ≡ bytes.old.items ++ pieces_text pieces.now) }
{
    'pieces: for piece in pieces {
        push_piece(bytes, piece)?;
    }
    Ok(())
}
