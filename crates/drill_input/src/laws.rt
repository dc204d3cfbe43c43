//! Laws over the definitions alone: each function does nothing, and its contract is the law.
ghost use Rattle.drill_input.specs.InputLaws.{InputIsShort};

/// States that an input of at most 20,000 traces has at most 67,108,864 bytes.
pub fn input_is_short()
    ensures { InputIsShort }
{}
