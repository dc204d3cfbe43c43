ghost use Rattle.std.specs.Prelude.{◌≡◌, ◌+◌, ◌≤◌, ◌<◌, ◌^◌, ◌∷◌, [], option_copied};
ghost use Rattle.std.specs.Prelude.{MatchOption, IfSome};
ghost use Rattle.step_core.specs.LinesLeft.{lines_left, room_left};

use crate::cutting::first_part;
use event_lines::is_blank_line;

/// A line that is not blank, and what follows it.
#[derive(Clone, Copy, Debug)]
pub struct NumberedLine<'b> {
    /// The number of the line.
    pub number: u32,
    /// The bytes of the line.
    pub line: &'b [u8],
    /// The bytes after it; none where it is the last.
    pub rest: Option<&'b [u8]>,
}

/// Finds the first line that is not blank, in what is left of an input; the first line that is left
/// has this number.
pub fn next_line(number: u32, rest: Option<&[u8]>) -> Option<NumberedLine<'_>>
    requires { number + room_left (option_copied rest) < 2 ^ 32 }
    ensures lines { MatchOption result (lines_left number (option_copied rest.entry) ≡ [])
        (λ n. lines_left number (option_copied rest.entry)
        ≡ (n.number, n.line.now) ∷ lines_left (n.number + 1) (option_copied n.rest)) }
    ensures later { IfSome result (λ n. number ≤ n.number) }
    ensures room { IfSome result (λ n. n.number + 1 + room_left (option_copied n.rest)
        ≤ number + room_left (option_copied rest.entry)) }
{
    let mut number = number;
    let mut left = rest;
    'lines: while let Some(bytes) = left {
        let part = first_part(bytes, b'\n');
        if !is_blank_line(part.first) {
            return Some(NumberedLine {
                number,
                line: part.first,
                rest: part.rest,
            });
        }
        number += 1;
        left = part.rest;
    }
    None
}
