//! What follows from the definitions alone. Each law is the contract of a function that does
//! nothing.
ghost use Rattle.markup.specs.Escapes.{EscapeHasNoMarkup, EscapeHasReferences, EscapeIsInjective};

/// States that no escaped name has a byte that begins or ends markup, that each of its `&` begins a
/// reference, and that names that are written alike are the same.
pub fn escape()
    ensures no_markup { EscapeHasNoMarkup }
    ensures references { EscapeHasReferences }
    ensures injective { EscapeIsInjective }
{}
