//! Laws over the definitions alone: each function does nothing, and its contract is the law.
ghost use Rattle.context_names.specs.NameLaws.{ContextsStandOnce, GroupsDiffer, LabelsDiffer};
ghost use Rattle.context_names.specs.NameLaws.{MachinesDiffer, NumbersAreFew, TasksDiffer};

/// Contexts stand once in their order.
pub fn contexts_stand_once()
    ensures { ContextsStandOnce }
{}

/// Two contexts of one thread have two names.
pub fn labels_differ()
    ensures { LabelsDiffer }
{}

/// Two threads have no piece of one name, and no thread has two.
pub fn tasks_differ()
    ensures { TasksDiffer }
{}

/// Two machines have two names.
pub fn machines_differ()
    ensures { MachinesDiffer }
{}

/// Of contexts that one thread forks, those of two groups have two numbers.
pub fn groups_differ()
    ensures { GroupsDiffer }
{}

/// No group has a number above that of contexts.
pub fn numbers_are_few()
    ensures { NumbersAreFew }
{}
