//! Laws over the definitions alone: each function does nothing, and its contract is the law.
ghost use Rattle.std.specs.Prelude.{Bool};
ghost use Rattle.row_laws.specs.ModelRows.{CountsAreModel, ExclusionRowsAreModel};
ghost use Rattle.row_laws.specs.ModelRows.{ExclusionRowsAreSupported, OrderRowsAreModel};
ghost use Rattle.row_laws.specs.ModelRows.{OrderRowsAreSupported, PipeRowsAreModel};
ghost use Rattle.row_laws.specs.ModelRows.{PipeRowsAreSupported};
ghost use Rattle.row_laws.specs.NearlyRows.{NearlyExclusionRowsAreFew, NearlyOrderRowsAreFew};
ghost use Rattle.row_laws.specs.NearlyRows.{NearlyPipeRowsAreFew};
ghost use Rattle.row_laws.specs.ReducedRows.{NamesReachTheSame, NotImpliedAreLeft};
ghost use Rattle.row_laws.specs.ReducedRows.{PlacesReachTheSame};
ghost use Rattle.row_laws.specs.RowFigures.{NameRowsAreMet, NameRowsCountTraces};
ghost use Rattle.row_laws.specs.RowFigures.{TaskRowsAreShared};
ghost use Rattle.row_laws.specs.TraceCounts.{FiguresCountTraces};
ghost use Rattle.row_laws.specs.WitnessRows.{NearlyExclusionsNameWitness, NearlyOrdersNameWitness};
ghost use Rattle.row_laws.specs.WitnessRows.{NearlyPipesNameWitness};
ghost use Rattle.trace_types.specs.Parts.{Parts};

use digest_facts::laws::{a_digest_tells_of_all, a_merge_is_of_both, names_tell_apart};
use evidence_laws::laws::{relations_are_those_of_the_model, the_first_trace_refutes};
use implied_pairs::laws::the_same_reach;
use session_rules::KeptTrace;
use trace_types::{NameText, Segment, Text};

/// Where no trace has a name twice, the figures of two names are numbers of traces.
pub fn figures_count_traces<A, S, N, T, E>()
    ensures { (p : Parts A S N T E) (same : N → N → Bool) → FiguresCountTraces p same }
{}

/// So they are in each row of two names: the figures of a row are those of the meetings of the two
/// that it names, and numbers of kept traces; those of two tasks are of the elements that they
/// share.
pub fn row_figures_count_traces()
    ensures met { NameRowsAreMet }
    ensures counts { NameRowsCountTraces }
    ensures shared { TaskRowsAreShared }
{
    figures_count_traces::<KeptTrace, Segment, NameText, Text, Text>();
}

/// The rows of the evidence name exactly the relations of the model, each once, where one trace is
/// enough and no order is left out; so each kind has as many rows as the model where nothing is
/// given.
pub fn rows_tell_the_model()
    ensures orders { OrderRowsAreModel }
    ensures exclusions { ExclusionRowsAreModel }
    ensures pipes { PipeRowsAreModel }
    ensures counts { CountsAreModel }
{
    a_digest_tells_of_all::<KeptTrace, Segment, NameText, Text, Text>();
    a_merge_is_of_both::<KeptTrace, Segment, NameText, Text, Text>();
    names_tell_apart();
    relations_are_those_of_the_model::<KeptTrace, Segment, NameText, Text, Text>();
    figures_count_traces::<KeptTrace, Segment, NameText, Text, Text>();
}

/// Where more traces are asked for, they name exactly the relations of the model with as many kept
/// traces that have both sides.
pub fn rows_tell_what_is_supported()
    ensures orders { OrderRowsAreSupported }
    ensures exclusions { ExclusionRowsAreSupported }
    ensures pipes { PipeRowsAreSupported }
{
    relations_are_those_of_the_model::<KeptTrace, Segment, NameText, Text, Text>();
    figures_count_traces::<KeptTrace, Segment, NameText, Text, Text>();
}

/// The rows `nearly` name exactly the relations that some kept traces refute, at most one in a
/// hundred of those that have both sides.
pub fn nearly_rows_tell_what_few_refute()
    ensures orders { NearlyOrderRowsAreFew }
    ensures exclusions { NearlyExclusionRowsAreFew }
    ensures pipes { NearlyPipeRowsAreFew }
{
    relations_are_those_of_the_model::<KeptTrace, Segment, NameText, Text, Text>();
    figures_count_traces::<KeptTrace, Segment, NameText, Text, Text>();
}

/// A row `nearly` ends in the day, the index and the request that the row of a certificate on the
/// same relation ends in: the first kept trace that refutes it.
pub fn nearly_rows_name_the_witness_of_why()
    ensures orders { NearlyOrdersNameWitness }
    ensures exclusions { NearlyExclusionsNameWitness }
    ensures pipes { NearlyPipesNameWitness }
{
    nearly_rows_tell_what_few_refute();
    row_figures_count_traces();
    the_first_trace_refutes::<KeptTrace, Segment, NameText, Text, Text>();
}

/// Over rows without the implied ones the same places reach each other.
pub fn reduced_rows_reach_the_same<F>()
    ensures { PlacesReachTheSame F }
{
    the_same_reach();
}

/// Of two texts of the evidence, one with all orders and one without those that are implied, the
/// second names exactly the orders that no others imply, and the same names reach each other.
pub fn reduced_orders_reach_the_same()
    ensures left { NotImpliedAreLeft }
    ensures names { NamesReachTheSame }
{
    relations_are_those_of_the_model::<KeptTrace, Segment, NameText, Text, Text>();
    figures_count_traces::<KeptTrace, Segment, NameText, Text, Text>();
    the_same_reach();
}
