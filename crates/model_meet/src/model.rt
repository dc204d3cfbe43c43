ghost use Rattle.std.specs.Prelude.{◌≡◌, min, max};

use crate::counts::{Counts, count_names, count_pipes};
use crate::laws::words_tell;
use crate::pair_lines::lines_between;
use hypothesis_index::laws::places_fit;
use hypothesis_index::{Relation, exclusion_place, place};
use trace_types::laws::relations_are_symmetric;
use trace_types::{NamedSegment, NamedTrace};

/// The words of the relations between some number of names and between 64 tasks, borrowed. A bit is
/// 1 where its relation survives. It is seen as the words and the number of names.
#[derive(Debug, Drop)]
pub struct Model<'a> {
    words: &'a [u64],
    names: u32,
}

impl<'a> std::marker::Model for Model<'a> {
    ghost use Rattle.std.specs.Prelude.{◌≡◌, ◌≤◌, length};
    ghost use Rattle.hypothesis_index.specs.Places.{width_of};
    ghost use Rattle.model_meet.specs.ModelStates.{ModelState};

    ghost Value = { ModelState };

    ghost view = { λ m. record { words = m.words.now; names = m.names } };

    ghost invariant = { λ m. (m.names ≤ 512) × (length m.words.now ≡ width_of m.names) };
}

/// Gives the two numbers, the lesser first.
fn rising(a: u32, b: u32) -> (u32, u32)
    ensures low { result.0 ≡ min a b }
    ensures high { result.1 ≡ max a b }
{
    if a < b { (a, b) } else { (b, a) }
}

impl<'a> Model<'a> {
    ghost use Rattle.std.specs.Prelude.{◌≡◌, ◌≢◌, ◌≤◌, ◌<◌, ◌↔◌, ℕ, List, length, IsTrue};
    ghost use Rattle.std.specs.declared.cmp.Ordering.{Ordering};
    ghost use Rattle.std.specs.declared.cmp.Ordering.TheVariants.{Less};
    ghost use Rattle.hypothesis_index.specs.Places.{IsRelation, NamesBelow, width_of};
    ghost use Rattle.hypothesis_index.specs.declared.relation.Relation.TheVariants.{Apart, Before};
    ghost use Rattle.hypothesis_index.specs.declared.relation.Relation.TheVariants.{Exclusive};
    ghost use Rattle.hypothesis_index.specs.declared.relation.Relation.TheVariants.{Pipe, Unshared};
    ghost use Rattle.refute_tests.specs.Survivors.{AreSurvivors};
    ghost use Rattle.trace_rules.specs.Pipes.{IsPipeline};
    ghost use Rattle.trace_types.specs.Parts.{by_number};
    ghost use Rattle.trace_types.specs.Pipelines.{RefutesPipe, RefutesUnshared};
    ghost use Rattle.trace_types.specs.Refuting.{RefutesBefore, RefutesExclusive, RefutesApart};
    ghost use Rattle.trace_types.specs.Relations.{ExcludesUnordered, HappensBefore};
    ghost use Rattle.trace_types.specs.Surviving.{IsRefuted, Survives};
    ghost use Rattle.trace_types.specs.declared.named_trace.NamedTrace.{NamedTrace};
    ghost use Rattle.model_meet.specs.LineCounts.{AreCounts, AreCountsOfBits};
    ghost use Rattle.model_meet.specs.ExclusionTables.{TellsExclusions};
    ghost use Rattle.model_meet.specs.RelationBits.{KeepsExclusion, bit_between, relation_bit};
    ghost use Rattle.model_meet.specs.RelationBits.{HasExclusion, HasOrder, HasPipe};
    ghost use Rattle.model_meet.specs.Telling.{TellsOf};

    /// Makes the model of these words, of which there are `width(names)`; names are at most 512. It
    /// takes no memory.
    pub fn new(words: &'a [u64], names: u32) -> Model<'a>
        requires few { names ≤ 512 }
        requires width { length words.now ≡ width_of names }
        ensures { result ≡ record { words = words.now; names = names } }
    {
        Model { words, names }
    }

    /// Makes another model of the same words. It takes no memory.
    pub(crate) fn copy(&self) -> Model<'a>
        ensures { result ≡ self.now }
    {
        Model {
            words: self.words,
            names: self.names,
        }
    }

    /// Lends the words.
    pub(crate) fn words(&self) -> &'a [u64]
        ensures { result.now ≡ self.now.words }
    {
        self.words
    }

    /// Gives the number of names.
    pub(crate) fn names(&self) -> u32
        ensures value { result ≡ self.now.names }
        ensures few { result ≤ 512 }
    {
        self.names
    }

    /// Reads the bit of a relation between names below the model's, or between tasks.
    fn bit(&self, relation: Relation) -> u64
        requires relation { self.now.names ≤ 512 → IsRelation relation }
        requires names { NamesBelow self.now.names relation }
        ensures value { result ≡ relation_bit self.now.words relation }
        ensures told { (traces : List NamedTrace) → AreSurvivors traces self.now.words
            → TellsOf self.now.words traces relation }
    {
        // For the proof alone.
        words_tell();
        places_fit();
        let words = self.words;
        let place = place(relation);
        (words[place.word as usize] >> place.bit) & 1
    }

    /// Reads the bit of the mutual exclusion of two names below the model's, the lesser first.
    fn exclusion_bit(&self, low: u32, high: u32) -> u64
        requires rises { low < high }
        requires names { high < self.now.names }
        ensures value { result ≡ relation_bit self.now.words (Exclusive low high) }
        ensures told { (traces : List NamedTrace) → AreSurvivors traces self.now.words
            → TellsOf self.now.words traces (Exclusive low high) }
    {
        // For the proof alone.
        words_tell();
        places_fit();
        let words = self.words;
        let place = exclusion_place(low, high);
        let word = words[place.word as usize];
        (word >> place.bit) & 1
    }

    /// Tells whether no trace refutes that the first of two names happens before the second. Also
    /// true where no trace has both; see `lists_order`. It takes no memory.
    pub fn happens_before(&self, first: u32, second: u32) -> bool
        requires differ { first ≢ second }
        requires first { first < self.now.names }
        requires second { second < self.now.names }
        ensures bit { IsTrue result ↔ (relation_bit self.now.words (Before first second) ≡ 1) }
        ensures told { (traces : List NamedTrace) → AreSurvivors traces self.now.words
            → IsTrue result ↔ Survives (RefutesBefore by_number first second) traces }
    {
        self.bit(Relation::Before { first, second }) == 1
    }

    /// Tells whether some trace refutes that the first of two names happens before the second.
    pub(crate) fn is_order_refuted(&self, first: u32, second: u32) -> bool
        requires differ { first ≢ second }
        requires first { first < self.now.names }
        requires second { second < self.now.names }
        ensures bit { IsTrue result ↔ (relation_bit self.now.words (Before first second) ≡ 0) }
        ensures told { (traces : List NamedTrace) → AreSurvivors traces self.now.words
            → IsTrue result ↔ IsRefuted (RefutesBefore by_number first second) traces }
    {
        self.bit(Relation::Before { first, second }) == 0
    }

    /// Tells whether no trace refutes that two names are mutually exclusive. Also true where no
    /// trace has both; see `lists_exclusion`. It takes no memory.
    pub fn exclusive(&self, a: u32, b: u32) -> bool
        requires differ { a ≢ b }
        requires first { a < self.now.names }
        requires second { b < self.now.names }
        ensures bit { IsTrue result ↔ KeepsExclusion self.now.words a b }
        ensures told { (traces : List NamedTrace) → AreSurvivors traces self.now.words
            → IsTrue result ↔ Survives (RefutesExclusive by_number a b) traces }
    {
        // For the proof alone.
        relations_are_symmetric::<NamedTrace, NamedSegment, u32, u32, u32>();
        let (low, high) = rising(a, b);
        self.exclusion_bit(low, high) == 1
    }

    /// Does nothing: whichever traces the words tell of, the bits tell which mutual exclusions of
    /// the model's names no trace refutes. It takes no memory.
    pub fn tells_exclusions(&self)
        ensures { TellsExclusions self.now }
    {
        // For the proof alone.
        let _names = self.names;
        words_tell();
        relations_are_symmetric::<NamedTrace, NamedSegment, u32, u32, u32>();
    }

    /// Tells whether some trace has both names. It takes no memory.
    pub fn together(&self, a: u32, b: u32) -> bool
        requires differ { a ≢ b }
        requires first { a < self.now.names }
        requires second { b < self.now.names }
        ensures bit { IsTrue result ↔ (bit_between self.now.words Apart a b ≡ 0) }
        ensures told { (traces : List NamedTrace) → AreSurvivors traces self.now.words
            → IsTrue result ↔ IsRefuted (RefutesApart by_number a b) traces }
    {
        // For the proof alone.
        relations_are_symmetric::<NamedTrace, NamedSegment, u32, u32, u32>();
        let (low, high) = rising(a, b);
        self.bit(Relation::Apart { low, high }) == 0
    }

    /// Tells whether no trace refutes that elements pass from the one task to the other, first in,
    /// first out. Also true where no trace has an element in both; see `lists_pipe`. It takes no
    /// memory.
    pub fn pipe(&self, from: u32, to: u32) -> bool
        requires differ { from ≢ to }
        requires first { from < 64 }
        requires second { to < 64 }
        ensures bit { IsTrue result ↔ (relation_bit self.now.words (Pipe from to) ≡ 1) }
        ensures told { (traces : List NamedTrace) → AreSurvivors traces self.now.words
            → IsTrue result ↔ Survives (RefutesPipe by_number from to) traces }
    {
        self.bit(Relation::Pipe { from, to }) == 1
    }

    /// Tells whether some trace has an element in both tasks. It takes no memory.
    pub fn shared(&self, a: u32, b: u32) -> bool
        requires differ { a ≢ b }
        requires first { a < 64 }
        requires second { b < 64 }
        ensures bit { IsTrue result ↔ (bit_between self.now.words Unshared a b ≡ 0) }
        ensures told { (traces : List NamedTrace) → AreSurvivors traces self.now.words
            → IsTrue result ↔ IsRefuted (RefutesUnshared by_number a b) traces }
    {
        // For the proof alone.
        relations_are_symmetric::<NamedTrace, NamedSegment, u32, u32, u32>();
        let (low, high) = rising(a, b);
        self.bit(Relation::Unshared { low, high }) == 0
    }

    /// Tells whether the model lists that the first of two names happens before the second: some
    /// trace has both, and none refutes it. It takes no memory.
    pub fn lists_order(&self, first: u32, second: u32) -> bool
        requires differ { first ≢ second }
        requires first { first < self.now.names }
        requires second { second < self.now.names }
        ensures bits { IsTrue result ↔ HasOrder self.now.words first second }
        ensures told { (traces : List NamedTrace) → AreSurvivors traces self.now.words
            → IsTrue result ↔ HappensBefore by_number traces first second }
    {
        self.together(first, second) && self.happens_before(first, second)
    }

    /// Tells whether the model lists that two names are mutually exclusive with no fixed order:
    /// some trace has both, none refutes that they are mutually exclusive, and each order is
    /// refuted. It takes no memory.
    pub fn lists_exclusion(&self, a: u32, b: u32) -> bool
        requires differ { a ≢ b }
        requires first { a < self.now.names }
        requires second { b < self.now.names }
        ensures bits { IsTrue result ↔ HasExclusion self.now.words a b }
        ensures told { (traces : List NamedTrace) (cmp : ℕ → ℕ → Ordering)
            → AreSurvivors traces self.now.words → cmp a b ≡ Less
            → IsTrue result ↔ ExcludesUnordered by_number cmp traces a b }
    {
        lines_between(self, a, b).exclusive
    }

    /// Tells whether the model lists a pipe from the one task to the other: some trace has an
    /// element in both, and none refutes it. It takes no memory.
    pub fn lists_pipe(&self, from: u32, to: u32) -> bool
        requires differ { from ≢ to }
        requires first { from < 64 }
        requires second { to < 64 }
        ensures bits { IsTrue result ↔ HasPipe self.now.words from to }
        ensures told { (traces : List NamedTrace) → AreSurvivors traces self.now.words
            → IsTrue result ↔ IsPipeline by_number traces from to }
    {
        self.shared(from, to) && self.pipe(from, to)
    }

    /// Counts the lines of the model's names, and of this many tasks. It visits each pair once, and
    /// takes no memory.
    pub fn counts(&self, tasks: u32) -> Counts
        requires { tasks ≤ 64 }
        ensures bits { AreCountsOfBits self.now tasks result }
        ensures told { (traces : List NamedTrace) → AreSurvivors traces self.now.words
            → AreCounts traces self.now.names tasks result }
    {
        let lines = count_names(self);
        Counts {
            hb: lines.hb,
            mx: lines.mx,
            pipe: count_pipes(self, tasks),
        }
    }
}
