/// Which names and which tasks occur in traces: a mark for each of 512 numbers of names, and for
/// each of 64 numbers of tasks.
#[derive(Debug, Drop)]
pub struct Marks {
    /// By the number of a name, whether it occurs.
    pub names: Vec<bool>,
    /// By the number of a task, whether it occurs.
    pub tasks: Vec<bool>,
}
