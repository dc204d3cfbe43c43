//! What follows from the definitions alone. Each law is the contract of a function that does
//! nothing.
ghost use Rattle.picture_parts.specs.Places.{PartIsExact, PartIsOnScale, PartsKeepOrder};
ghost use Rattle.picture_parts.specs.Places.{SpanIsWithin, SpansAreApart};

/// States that places are on their scale, keep the order of the numbers and are less than a step
/// off.
pub fn places()
    ensures on_scale { PartIsOnScale }
    ensures order { PartsKeepOrder }
    ensures exact { PartIsExact }
{}

/// States that a bar is within the width, and that bars are apart where their numbers are.
pub fn spans()
    ensures within { SpanIsWithin }
    ensures apart { SpansAreApart }
{}
