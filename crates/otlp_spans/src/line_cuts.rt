ghost use Rattle.std.specs.Prelude.{◌≡◌, ◌+◌, ◌<◌, ◌≤◌, ◌^◌, ◌∷◌, [], length, MatchOption};
ghost use Rattle.std.specs.List.{position_or_len};
ghost use Rattle.event_lines.specs.Cut.{is_line_feed};

use event_lines::is_blank_line;
use memchr::memchr;

/// A line of a file.
#[derive(Clone, Copy, Debug)]
pub(crate) struct NumberedLine<'a> {
    /// Its number, from 1.
    pub(crate) number: usize,
    /// Its bytes.
    pub(crate) bytes: &'a [u8],
}

/// The lines of a file that are left.
#[derive(Clone, Copy, Debug)]
pub(crate) struct LinesLeft<'a> {
    /// The number of the next line.
    number: usize,
    /// The bytes from the next line on; none behind the last line.
    rest: Option<&'a [u8]>,
}

/// Finds where the first line ends.
fn line_end(bytes: &[u8]) -> usize
    ensures first { position_or_len is_line_feed bytes.now ≡ result }
    ensures within { result ≤ length bytes.now }
{
    match bytes.first() {
        // An empty line is found without the cost of a search.
        Some(b'\n') => 0,
        _ => memchr(b'\n', bytes).unwrap_or(bytes.len()),
    }
}

impl<'a> LinesLeft<'a> {
    ghost use Rattle.event_lines.specs.Cut.{input_lines};
    ghost use Rattle.event_lines.specs.InputLines.{numbered_lines};
    ghost use Rattle.otlp_spans.specs.inner.Lines.{all_left, lines_left, line_view, AreFew};

    /// Starts with all lines.
    pub(crate) fn new(bytes: &'a [u8]) -> LinesLeft<'a>
        ensures all { lines_left result ≡ numbered_lines 1 (input_lines bytes.now) }
        ensures few { AreFew result }
    {
        LinesLeft {
            number: 1,
            rest: Some(bytes),
        }
    }

    /// Takes the next line.
    fn cut_line(&mut self) -> Option<NumberedLine<'a>>
        requires { AreFew self.old }
        ensures taken { MatchOption result ((all_left self.old ≡ []) × (all_left self.new ≡ []))
            (λ line. all_left self.old ≡ line_view line ∷ all_left self.new) }
        ensures few { AreFew self.new }
    {
        let rest = self.rest?;
        let number = self.number;
        let end = line_end(rest);
        let bytes = &rest[..end];
        if end == rest.len() {
            self.rest = None;
            return Some(NumberedLine { number, bytes });
        }
        self.rest = Some(&rest[end + 1..]);
        self.number = number + 1;
        Some(NumberedLine { number, bytes })
    }

    /// Takes the next line that is not blank.
    pub(crate) fn next_line(&mut self) -> Option<NumberedLine<'a>>
        requires { AreFew self.old }
        ensures taken { MatchOption result ((lines_left self.old ≡ []) × (lines_left self.new ≡ []))
            (λ line. lines_left self.old ≡ line_view line ∷ lines_left self.new) }
        ensures few { AreFew self.new }
    {
        'lines: while let Some(line) = self.cut_line() {
            if !is_blank_line(line.bytes) {
                return Some(line);
            }
        }
        None
    }
}
