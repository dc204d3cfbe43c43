//! Laws over the definitions alone: each function does nothing, and its contract is the law.
ghost use Rattle.std.specs.Prelude.{◌≡◌, ◌<◌, ℕ, List, Ok, Some, true};
ghost use Rattle.line_split.specs.CommandLines.{Call};
ghost use Rattle.line_split.specs.Lines.{FileLine, request_of};
ghost use Rattle.line_split.specs.Parts.{IsOnePart, is_in_part};

/// Each event line stands in exactly one of the parts, and lines of one request in the same one.
pub fn a_line_stands_in_one_part()
    ensures one { (call : Call) (line : FileLine) (request : List ℕ) → 0 < call.parts
        → request_of line.bytes ≡ Ok (Some request) → IsOnePart call line }
    ensures together { (call : Call) (line other : FileLine) (request : List ℕ) (a b : ℕ)
        → request_of line.bytes ≡ Ok (Some request) → request_of other.bytes ≡ Ok (Some request)
        → is_in_part call a line ≡ true → is_in_part call b other ≡ true → a ≡ b }
{}
