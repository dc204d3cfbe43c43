ghost use Rattle.line_clean.specs.inner.FirstLines.{IsFirstLine};

use crate::line_feeds::first_line_feed;
use event_lines::laws::pieces_say_what_the_whole_says;

/// Where the first line of some bytes ends, and where the next one begins: at the end of the bytes
/// where there is none.
#[derive(Clone, Copy, Debug)]
pub(crate) struct FirstLine {
    pub(crate) end: usize,
    pub(crate) next: usize,
}

impl FirstLine {
    /// Finds the first line of bytes.
    pub(crate) fn of(bytes: &[u8]) -> FirstLine
        ensures { IsFirstLine bytes.now result }
    {
        // For the proof alone.
        pieces_say_what_the_whole_says();
        match first_line_feed(bytes) {
            Some(at) => FirstLine {
                end: at,
                next: at + 1,
            },
            None => FirstLine {
                end: bytes.len(),
                next: bytes.len(),
            },
        }
    }
}
