//! Laws over the definitions alone: each function does nothing, and its contract is the law.
ghost use Rattle.span_names.specs.NameLaws.{EscapingIsOneToOne, NumberingIsOneToOne};

/// No two texts are escaped alike.
pub fn escaping_is_one_to_one()
    ensures { EscapingIsOneToOne }
{}

/// A name tells its base, its number and its piece.
pub fn numbering_is_one_to_one()
    ensures { NumberingIsOneToOne }
{}
