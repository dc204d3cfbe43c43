ghost use Rattle.std.specs.Prelude.{◌≡◌};
ghost use Rattle.mystery_io.specs.Histories.{readings_of};
ghost use Rattle.mystery_io.specs.Readings.{after_open, after_read};

use crate::Taken;
use std::fmt::{self, Debug, Formatter, Write};
use std::snapshot::Snapshot;

/// What the calls of files gave so far, in proofs alone: a list in which the latest call stands
/// outermost. At run time it is one byte.
#[derive(Drop)]
pub enum History {
    Nothing,
    Opened {
        before: Snapshot<History>,
        name: Snapshot<Taken>,
    },
    Gave {
        before: Snapshot<History>,
        piece: Snapshot<Taken>,
    },
}

impl History {
    /// Notes that `open` was called with this name.
    pub(crate) fn open(&mut self, name: &[u8])
        ensures { readings_of self.new ≡ after_open (readings_of self.old) name.now }
    {
        let name = Taken::of(name);
        let before = Snapshot::of(&*self);
        let name = Snapshot::of(&name);
        *self = History::Opened { before, name };
    }

    /// Notes that a read gave this piece.
    pub(crate) fn give(&mut self, piece: &[u8])
        ensures { readings_of self.new ≡ after_read (readings_of self.old) piece.now }
    {
        let piece = Taken::of(piece);
        let before = Snapshot::of(&*self);
        let piece = Snapshot::of(&piece);
        *self = History::Gave { before, piece };
    }
}

impl Debug for History {
    /// Prints the name of the type, since nothing else is there at run time.
    fn fmt<W: Write>(&self, f: &mut Formatter<W>) -> fmt::Result {
        f.write_str("History")
    }
}
