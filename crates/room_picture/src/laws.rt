//! What follows from the definitions alone. Each law is the contract of a function that does
//! nothing.
ghost use Rattle.room_picture.specs.Scales.{RoomPlaceIsWithin, RoomPlacesKeepOrder, RoomSpanIsWithin};

/// States that places and bars are within the width, and that places keep the order of the times.
pub fn scale()
    ensures within { RoomPlaceIsWithin }
    ensures order { RoomPlacesKeepOrder }
    ensures spans { RoomSpanIsWithin }
{
    picture_parts::laws::places();
}
