//! A law over the definitions alone: the function does nothing, and its contract is the law.
ghost use Rattle.implied_pairs.specs.Laws.{SameReach};

/// Without the implied pairs the same numbers reach each other.
pub fn the_same_reach()
    ensures { SameReach }
{}
