use model_meet::{ExclusionRows, Model};

/// What tells whether two names are mutually exclusive.
pub(crate) trait PairTest: Copy {
    ghost use Rattle.std.specs.Prelude.{◌≢◌, ◌<◌, ◌↔◌, IsTrue};
    ghost use Rattle.model_meet.specs.ModelStates.{ModelState};
    ghost use Rattle.model_meet.specs.RelationBits.{KeepsExclusion};

    /// The model by which it tells.
    ghost model: { Self → ModelState };

    /// Tells whether the bit of the mutual exclusion of two names is 1.
    fn exclusive(self, a: u32, b: u32) -> bool
        requires differ { a ≢ b }
        requires first { a < (model self).names }
        requires second { b < (model self).names }
        ensures { IsTrue result ↔ KeepsExclusion (model self).words a b };
}

impl PairTest for &Model<'_> {
    ghost model = { λ m. m.now };

    fn exclusive(self, a: u32, b: u32) -> bool {
        Model::exclusive(self, a, b)
    }
}

impl PairTest for ExclusionRows<'_> {
    ghost use Rattle.model_meet.specs.ModelStates.{ModelState};

    ghost model = { λ r. record { words = r.words.now; names = r.names } };

    fn exclusive(self, a: u32, b: u32) -> bool {
        ExclusionRows::exclusive(self, a, b)
    }
}
