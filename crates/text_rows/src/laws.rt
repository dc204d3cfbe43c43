//! How texts and parts that are printed one after another make one, each law a function that does
//! nothing.
ghost use Rattle.text_rows.specs.PartsFollow.{AreTextsOfBoth, NoPartIsPrinted, PartsFollow};
ghost use Rattle.text_rows.specs.PartsFollow.{PrefixOfPartsFollows, PrefixOfPartsGoesOn};
ghost use Rattle.text_rows.specs.PartsFollow.{NoPartIsBegun, TextIsOnePart, PrefixIsOfOnePart};
ghost use Rattle.text_rows.specs.PartsFollow.{PartsAreMapped, PrefixIsMapped};
ghost use Rattle.text_rows.specs.PartsFollow.{FlushEndsParts, FlushCutsParts};
ghost use Rattle.text_rows.specs.PartsFollow.{PartCallsFollow, PartCallGoesOn};
ghost use Rattle.text_rows.specs.PartsFollow.{CallPrintsOnePart, PartCallIsMapped};
ghost use Rattle.text_rows.specs.TextsFollow.{NothingIsPrinted, PrintsFollow, PrefixFollows};
ghost use Rattle.text_rows.specs.TextsFollow.{PrefixGoesOn, FlushEndsText, FlushCutsText};
ghost use Rattle.text_rows.specs.TextsFollow.{CallsFollow, CallGoesOn};

use crate::{PartTexts, Parts};
use mystery_io::Sink;

/// States that a text after another is both, and that a prefix of a text is one of a longer text.
pub fn texts_follow()
    ensures nothing { NothingIsPrinted }
    ensures prints { PrintsFollow }
    ensures prefix { PrefixFollows }
    ensures goes_on { PrefixGoesOn }
{}

/// States the same of calls with their counts of faults.
pub fn calls_follow<S: Sink>()
    ensures follow { CallsFollow S.written S.faults Unit }
    ensures goes_on { CallGoesOn S.written S.faults Unit }
{}

/// States what a flush makes of a text that was printed into an empty buffer.
pub fn flush_ends_a_text()
    ensures whole { FlushEndsText }
    ensures prefix { FlushCutsText }
{}

/// States that parts after others are both, and that a prefix of parts is one of more parts.
pub fn parts_follow<P: PartTexts>()
    ensures texts { AreTextsOfBoth P.is_text }
    ensures none { NoPartIsPrinted P.is_text }
    ensures parts { PartsFollow P.is_text }
    ensures prefix { PrefixOfPartsFollows P.is_text }
    ensures goes_on { PrefixOfPartsGoesOn P.is_text }
    ensures unbegun { NoPartIsBegun P.is_text }
{}

/// States that a text of a part is that part, and a prefix of it a prefix of the part.
pub fn a_text_is_one_part<P: PartTexts>()
    ensures prints { TextIsOnePart P.is_text }
    ensures prefix { PrefixIsOfOnePart P.is_text }
{}

/// States that the parts of items are the parts that a function makes of them.
pub fn parts_are_mapped<K: Parts, P: PartTexts>()
    ensures parts { (parts : K) → PartsAreMapped (K.is_text parts) P.is_text }
    ensures prefix { (parts : K) → PrefixIsMapped (K.is_text parts) P.is_text }
{}

/// States what a flush makes of parts that were printed into an empty buffer.
pub fn flush_ends_parts<P: PartTexts>()
    ensures whole { FlushEndsParts P.is_text }
    ensures prefix { FlushCutsParts P.is_text }
{}

/// States how calls that print parts make one, with their counts of faults.
pub fn part_calls_follow<S: Sink, P: PartTexts>()
    ensures follow { PartCallsFollow S.written S.faults P.is_text Unit }
    ensures goes_on { PartCallGoesOn S.written S.faults P.is_text Unit }
    ensures one { CallPrintsOnePart S.written S.faults P.is_text Unit }
{}

/// States that a call that prints the parts of items prints the parts that a function makes of them.
pub fn part_calls_are_mapped<S: Sink, K: Parts, P: PartTexts>()
    ensures { (parts : K) →
        PartCallIsMapped S.written S.faults (K.is_text parts) P.is_text Unit }
{}
