//! What follows from the definitions alone. Each law is the contract of a function that does
//! nothing.
ghost use Rattle.graph_picture.specs.Arrows.{EndsAreAtEdges, LinesAreWithin};
ghost use Rattle.graph_picture.specs.Boxes.{SharesAreWithin};

/// States that lines end at the edges of their boxes, and are within the picture where these are.
pub fn lines()
    ensures edges { EndsAreAtEdges }
    ensures within { LinesAreWithin }
{}

/// States that the line for the share of a box is within the box.
pub fn shares()
    ensures { SharesAreWithin }
{
    picture_parts::laws::places();
}
