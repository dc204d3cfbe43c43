//! Laws over the definitions alone: each function does nothing, and its contract is the law.
ghost use Rattle.evidence_printing.specs.WitnessLaws.{ExclusionsHaveWitnesses};
ghost use Rattle.evidence_printing.specs.WitnessLaws.{OrdersHaveWitnesses, PipesHaveWitnesses};
ghost use Rattle.evidence_printing.specs.inner.Numbered.{EvidenceIsShown};

/// The evidence of a book's traces by number is that of the kept traces.
pub(crate) fn evidence_is_shown()
    ensures { EvidenceIsShown }
{}

/// The trace that a row of a relation which few traces refute names is the first that refutes it,
/// as a certificate names it.
pub fn a_witness_is_the_first_to_refute()
    ensures orders { OrdersHaveWitnesses }
    ensures exclusions { ExclusionsHaveWitnesses }
    ensures pipes { PipesHaveWitnesses }
{}
