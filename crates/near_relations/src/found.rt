use grace_quality::NearRelation;
use segment_names::Catalogue;
use trace_types::NamedTrace;

/// The relations that were found in the valid traces of a batch.
#[derive(Drop)]
pub struct NearFound {
    /// The names of their segments, by which the relations name them.
    pub catalogue: Catalogue,
    /// The valid traces, in order.
    pub traces: Vec<NamedTrace>,
    /// How many relations there are of two names that some trace has both of.
    pub met: u64,
    /// Those of them that few traces refute, by little.
    pub near: Vec<NearRelation>,
}
