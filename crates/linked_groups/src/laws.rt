//! Laws over the definitions alone: each function does nothing, and its contract is the law.
ghost use Rattle.linked_groups.specs.GroupLaws.{GroupsAreOne, LinksAloneJoin};

/// A link joins groups, and nothing else does.
pub fn links_alone_join()
    ensures { LinksAloneJoin }
{}

/// Links group numbers in one way.
pub fn groups_are_one()
    ensures { GroupsAreOne }
{}
