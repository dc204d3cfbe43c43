//! Laws over the definitions alone: each function does nothing, and its contract is the law.
ghost use Rattle.std.specs.Prelude.{◌≡◌, ℕ, ◌+◌, ◌<◌, ◌≤◌};
ghost use Rattle.hypothesis_index.specs.declared.relation.Relation.{Relation};
ghost use Rattle.hypothesis_index.specs.Places.{IsRelation, NamesBelow};
ghost use Rattle.hypothesis_index.specs.Places.{pairs_below, place_of, width_of};

/// Two different relations have two different places.
pub fn places_differ()
    ensures { (r s : Relation) → IsRelation r → IsRelation s
        → place_of r ≡ place_of s → r ≡ s }
{}

/// The width of some names holds the places of all relations between them, and of all tasks.
pub fn places_fit()
    ensures { (names : ℕ) (r : Relation) → names ≤ 512 → IsRelation r → NamesBelow names r
        → ((place_of r).word < width_of names) × ((place_of r).bit < 64) }
{}

/// The pairs whose greater number is this one are all numbered before those of every greater one.
pub fn pairs_follow()
    ensures { (high higher : ℕ) → high < higher
        → (pairs_below high + high) ≤ pairs_below higher }
{}
