ghost use Rattle.std.specs.Prelude.{◌≡◌, ◌++◌, ◌∷◌, []};
ghost use Rattle.mystery_io.specs.Taken.{bytes_of};

use std::snapshot::Snapshot;

/// Bytes in proofs alone, as those that a sink took so far: a list in which the latest stands
/// outermost. At run time it is one byte.
#[derive(Drop)]
pub enum Taken {
    Nothing,
    Byte {
        before: Snapshot<Taken>,
        byte: Snapshot<u8>,
    },
}

impl Taken {
    /// Notes one byte more.
    fn push(&mut self, byte: u8)
        ensures { bytes_of self.new ≡ bytes_of self.old ++ byte ∷ [] }
    {
        let before = Snapshot::of(&*self);
        let byte = Snapshot::of(&byte);
        *self = Taken::Byte { before, byte };
    }

    /// Notes that this piece was taken.
    pub(crate) fn add(&mut self, piece: &[u8])
        ensures { bytes_of self.new ≡ bytes_of self.old ++ piece.now }
    {
        for byte in piece {
            self.push(*byte);
        }
    }

    /// Notes these bytes alone.
    pub(crate) fn of(piece: &[u8]) -> Taken
        ensures { bytes_of result ≡ piece.now }
    {
        let mut taken = Taken::Nothing;
        taken.add(piece);
        taken
    }
}
