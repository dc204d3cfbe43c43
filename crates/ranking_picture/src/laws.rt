//! What follows from the definitions alone. Each law is the contract of a function that does
//! nothing.
ghost use Rattle.ranking_picture.specs.Strips.{StripAddsUp, StripIsDrawn};

use picture_parts::laws::places;

/// States that the parts of the strip add up to its width, and that these are the parts that are
/// drawn.
pub fn strip_adds_up()
    ensures width { StripAddsUp }
    ensures drawn { StripIsDrawn }
{
    places();
}
