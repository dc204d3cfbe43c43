//! What follows from the definitions alone. Each law is the contract of a function that does
//! nothing.
ghost use Rattle.tail_picture.specs.Heats.{ShadeIsOnScale, ShadesKeepOrder};

/// States that cells are as dark as the scale has shades, and that one of a longer time is no
/// lighter.
pub fn shades()
    ensures on_scale { ShadeIsOnScale }
    ensures order { ShadesKeepOrder }
{
    picture_parts::laws::places();
}
