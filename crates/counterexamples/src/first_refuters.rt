ghost use Rattle.std.specs.Prelude.{◌≡◌};
ghost use Rattle.counterexamples.specs.FirstRefuters.{refuter_of};
ghost use Rattle.hypothesis_index.specs.Places.{IsRelation};

use crate::Finding;
use crate::word_refuters::{WordRefuters, noted_at};
use hypothesis_index::laws::places_fit;
use hypothesis_index::{Relation, place};
use std::marker::Model;

/// The first refuter of each relation of a book, seen as the table of what each word has for each
/// of its bits. It has 520 bytes a word.
#[derive(Drop)]
pub struct FirstRefuters {
    pub(crate) words: Vec<WordRefuters>,
}

impl Model for FirstRefuters {
    ghost use Rattle.counterexamples.specs.FirstRefuters.{FindingTable};
    ghost use Rattle.counterexamples.specs.inner.Tables.{table_of};

    ghost Value = { FindingTable };

    ghost view = { λ a. table_of a.words.items };
}

impl FirstRefuters {
    /// Finds the first refuter of a relation of tasks or of the book's names; none where no kept
    /// trace refutes it. Of other names nothing is promised. It takes no memory.
    pub fn find(&self, relation: Relation) -> Option<Finding>
        requires { IsRelation relation }
        ensures { result ≡ refuter_of self.now relation }
    {
        // For the proof alone.
        places_fit();
        let at = place(relation);
        noted_at(&self.words, at.word, at.bit)
    }
}
