//! What holds of the crate's constants and definitions, each law a function that does nothing.
ghost use Rattle.std.specs.Prelude.{◌≡◌};
ghost use Rattle.mystery_io.specs.Honest.{HonestFilesGiveContents};
ghost use Rattle.mystery_io.specs.Input.{input_limit};
ghost use Rattle.mystery_io.specs.declared.reading.TheConstants.{MAX_INPUT};

/// States that the constant of the code is the limit of the definition.
pub fn the_input_has_one_limit()
    ensures { MAX_INPUT ≡ input_limit }
{}

/// States that where each reading gave the content of its name and came to the end, the input that
/// was read is that of these contents.
pub fn honest_files_give_contents()
    ensures { HonestFilesGiveContents }
{}
