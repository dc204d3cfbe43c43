//! Laws over the definitions alone: each function does nothing, and its contract is the law.
ghost use Rattle.std.specs.Prelude.{◌≡◌, ◌∷◌, ◌++◌, [], ℕ, List, Ok, filter, is_ok, length};
ghost use Rattle.event_lines.specs.Cut.{input_lines};
ghost use Rattle.event_lines.specs.InputLines.{lines_said};
ghost use Rattle.event_lines.specs.LineResults.{line_result};
ghost use Rattle.event_lines.specs.declared.line.Line.{Line};
ghost use Rattle.mystery_io.specs.Readings.{Reading};
ghost use Rattle.line_clean.specs.Lines.{clean_text, is_good, lines_read};

/// What is printed of readings has exactly their good lines, in order, and an empty one behind the
/// last line feed. So read as an input it has no bad line, and says as many lines as were good; and
/// cleaned again it stays as it is.
pub fn what_is_printed_is_good()
    ensures lines { (readings : List Reading) → input_lines (clean_text (lines_read readings))
        ≡ filter is_good (lines_read readings) ++ [] ∷ [] }
    ensures said { (readings : List Reading) → (lines : List Line)
        × (lines_said (clean_text (lines_read readings)) ≡ Ok lines)
        × (length lines ≡ length (filter is_good (lines_read readings))) }
    ensures again { (readings : List Reading)
        → clean_text (input_lines (clean_text (lines_read readings)))
        ≡ clean_text (lines_read readings) }
{}

/// Whether a line is bad does not depend on its number.
pub fn the_number_does_not_matter()
    ensures { (first second : ℕ) (line : List ℕ)
        → is_ok (line_result first line) ≡ is_ok (line_result second line) }
{}
