ghost use Rattle.model_meet.specs.ExclusionTables.{IsExclusionTable};

/// The table of a model's mutual exclusions, borrowed.
#[derive(Clone, Copy)]
pub struct ExclusionRows<'a> {
    /// The words of the model.
    pub words: &'a [u64],
    /// The number of its names.
    pub names: u32,
    /// A row for each name, and in a row an entry for each name: whether the two names are mutually
    /// exclusive. Where they are one name the entry tells nothing.
    pub table: &'a [bool],
    ghost entries: { IsExclusionTable (record { words = words.now; names = names }) table.now },
}

impl<'a> ExclusionRows<'a> {
    ghost use Rattle.std.specs.Prelude.{◌≡◌, ◌≢◌, ◌<◌, ◌↔◌, List, IsTrue};
    ghost use Rattle.model_meet.specs.ExclusionTables.{TellsExclusions};
    ghost use Rattle.model_meet.specs.RelationBits.{KeepsExclusion};
    ghost use Rattle.refute_tests.specs.Survivors.{AreSurvivors};
    ghost use Rattle.trace_types.specs.Parts.{by_number};
    ghost use Rattle.trace_types.specs.Refuting.{RefutesExclusive};
    ghost use Rattle.trace_types.specs.Surviving.{Survives};
    ghost use Rattle.trace_types.specs.declared.named_trace.NamedTrace.{NamedTrace};

    /// Tells whether no trace refutes that two names are mutually exclusive.
    pub fn exclusive(self, a: u32, b: u32) -> bool
        requires differ { a ≢ b }
        requires first { a < self.names }
        requires second { b < self.names }
        ensures bit { IsTrue result ↔ KeepsExclusion self.entry.words.now a b }
        ensures told { (traces : List NamedTrace) → AreSurvivors traces self.entry.words.now
            → IsTrue result ↔ Survives (RefutesExclusive by_number a b) traces }
    {
        let row = a as usize * self.names as usize;
        self.table[row + b as usize]
    }

    /// Does nothing: whichever traces the words tell of, the bits tell which mutual exclusions of
    /// the model's names no trace refutes.
    pub fn tells_exclusions(self)
        ensures { TellsExclusions (record { words = self.entry.words.now; names = self.entry.names }) }
    {}
}
