//! Laws over the definitions alone: each function does nothing, and its contract is the law.
ghost use Rattle.path_gains.specs.GainLaws.{GainsAreBounded, GainsAreOne, OthersGainNothing};

/// A vertex gains no more with half its weight than with none, and with none at most its weight.
pub fn gains_are_bounded()
    ensures { GainsAreBounded }
{}

/// A vertex that is not on some longest chain gains nothing.
pub fn others_gain_nothing()
    ensures { OthersGainNothing }
{}

/// A vertex has one gain.
pub fn gains_are_one()
    ensures { GainsAreOne }
{}
