ghost use Rattle.std.specs.Prelude.{◌≡◌, ◌<◌, ◌==◌, ℕ, length, if◌then◌else◌, Some, None};
ghost use Rattle.std.specs.Option.{option_or};
ghost use Rattle.std.specs.Int.{bit_at};
ghost use Rattle.counterexamples.specs.inner.Tables.{AreChosen, noted, noted_at};

use crate::Finding;

/// The first refuters of the relations of one word of 64 bits.
#[derive(Clone, Copy, Debug)]
pub(crate) struct WordRefuters {
    /// A bit is 1 where none is noted yet.
    left: u64,
    /// The refuter of each bit; one that is left has any.
    findings: [Finding; 64],
}

/// Sets the findings of these bits.
fn choose(findings: &mut [Finding], bits: u64, finding: Finding)
    requires { length findings.old ≡ 64 }
    ensures { AreChosen findings.old bits finding findings.new }
{
    'bits: for bit in 0..64 {
        if (bits >> bit) & 1 == 1 {
            findings[bit] = finding;
        }
    }
}

impl WordRefuters {
    /// Makes a word with no refuter noted.
    pub(crate) fn new() -> WordRefuters
        ensures { (bit : ℕ) → bit < 64 → noted result bit ≡ None }
    {
        WordRefuters {
            left: u64::MAX,
            findings: [Finding { place: 0, index: 0 }; 64],
        }
    }

    /// Notes the finding for the bits of the mask that have none yet.
    pub(crate) fn note(&mut self, mask: u64, finding: Finding)
        ensures { (bit : ℕ) → bit < 64 → noted self.new bit ≡ (if bit_at mask bit == 1
            then option_or (noted self.old bit) (Some finding) else noted self.old bit) }
    {
        let fresh = self.left & mask;
        if fresh != 0 {
            choose(self.findings.as_mut_slice(), fresh, finding);
            self.left &= !mask;
        }
    }

    /// Gives the finding of a bit; none where none is noted.
    pub(crate) fn at(&self, bit: u32) -> Option<Finding>
        requires { bit < 64 }
        ensures { result ≡ noted self.now bit }
    {
        if (self.left >> bit) & 1 == 1 {
            None
        } else {
            Some(self.findings[bit as usize])
        }
    }
}

/// Gives the finding that words note for a bit of a word; none where the bit is left or there is no
/// such word.
pub(crate) fn noted_at(words: &[WordRefuters], word: u32, bit: u32) -> Option<Finding>
    requires { bit < 64 }
    ensures { result ≡ noted_at words.now word bit }
{
    words.get(word as usize)?.at(bit)
}
