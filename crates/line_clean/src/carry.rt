ghost use Rattle.std.specs.Prelude.{◌≡◌, ◌∷◌, ◌++◌, [], OnOk, false};
ghost use Rattle.event_lines.specs.Cut.{input_lines};
ghost use Rattle.line_clean.specs.inner.Carrying.{IsCarry, Passes};

use mystery_io::MAX_INPUT;
use std::alloc::{AllocError, Global};

/// What is carried from one piece of a file to the next: the line that has not ended.
#[derive(Drop)]
pub(crate) struct Carry {
    /// The bytes of the line so far, or none where it is too long already.
    pub(crate) rest: Vec<u8>,
    /// Whether it is too long already: it has more than 67,108,864 bytes.
    pub(crate) is_long: bool,
}

impl Carry {
    /// Makes a line without a byte.
    pub(crate) fn new(alloc: Global) -> Carry
        ensures carry { IsCarry result }
        ensures short { result.is_long ≡ false }
        ensures empty { result.rest.items ≡ [] }
    {
        Carry {
            rest: Vec::new(alloc),
            is_long: false,
        }
    }

    /// Keeps further bytes of the line, and lets it go once it is too long.
    pub(crate) fn keep(&mut self, alloc: Global, piece: &[u8]) -> Result<(), AllocError>
        requires carry { IsCarry self.old }
        requires one { input_lines piece.now ≡ piece.now ∷ [] }
        ensures carry { OnOk result (IsCarry self.new) }
        ensures passes { OnOk result (Passes [] self.old piece.now [] self.new) }
    {
        if self.is_long {
            return Ok(());
        }
        if self.rest.len().saturating_add(piece.len()) > MAX_INPUT {
            self.rest = Vec::new(alloc);
            self.is_long = true;
            return Ok(());
        }
        self.rest.extend_from_slice(piece)
    }

    /// Begins the next line.
    pub(crate) fn clear(&mut self)
        ensures carry { IsCarry self.new }
        ensures short { self.new.is_long ≡ false }
        ensures empty { self.new.rest.items ≡ [] }
    {
        self.rest.clear();
        self.is_long = false;
    }
}
