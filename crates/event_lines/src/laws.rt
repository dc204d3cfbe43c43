//! Laws over the definitions alone: each function does nothing, and its contract is the law.
ghost use Rattle.std.specs.Prelude.{◌≡◌, ◌≤◌, ◌+◌, ◌∷◌, ◌++◌, ℕ, List, length, All, Ok};
ghost use Rattle.event_lines.specs.declared.line.Line.{Line};
ghost use Rattle.event_lines.specs.Cut.{input_lines};
ghost use Rattle.event_lines.specs.GoodLines.{IsLimited, IsTimely, NumbersRise};
ghost use Rattle.event_lines.specs.InputLines.{both_said, lines_said, lines_said_from};

/// Bytes that are cut at a line feed have the lines of the first part and then those of the second,
/// and say what these say, with the lines of the second part numbered on.
pub fn pieces_say_what_the_whole_says()
    ensures lines { (front back : List ℕ)
        → input_lines (front ++ 10 ∷ back) ≡ input_lines front ++ input_lines back }
    ensures said { (n : ℕ) (front back : List ℕ)
        → lines_said_from n (input_lines (front ++ 10 ∷ back))
        ≡ both_said (lines_said_from n (input_lines front))
        (lines_said_from (n + length (input_lines front)) (input_lines back)) }
{}

/// The lines of an input without a bad one have rising numbers, timely events and limited commands,
/// and there is at most one more than the input has bytes.
pub fn lines_of_an_input_are_good()
    ensures rising { (bytes : List ℕ) (lines : List Line)
        → lines_said bytes ≡ Ok lines → NumbersRise lines }
    ensures timely { (bytes : List ℕ) (lines : List Line)
        → lines_said bytes ≡ Ok lines → All IsTimely lines }
    ensures limited { (bytes : List ℕ) (lines : List Line)
        → lines_said bytes ≡ Ok lines → All IsLimited lines }
    ensures few { (bytes : List ℕ) (lines : List Line)
        → lines_said bytes ≡ Ok lines → length lines ≤ length bytes + 1 }
{}
