//! What follows from the definitions alone. Each law is the contract of a function that does
//! nothing.
ghost use Rattle.matrix_picture.specs.Matrices.{MarkIsWithin};

/// States that marks are within their cells, and these within the picture.
pub fn marks()
    ensures { MarkIsWithin }
{
    picture_parts::laws::places();
}
