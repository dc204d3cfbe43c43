ghost use Rattle.std.specs.Prelude.{◌<◌, All, length};
ghost use Rattle.alike_groups.specs.declared.group.Group.{Group};
ghost use Rattle.name_quality.specs.Names.{HasTexts};

use crate::subject::Subject;
use alike_groups::Group;
use event_table::Texts;
use name_quality::NameNumbers;

/// The names of segments, by the numbers of their texts, and groups of them that are equal as names
/// or as tasks.
#[derive(Drop)]
pub(crate) struct Listed<'n> {
    pub(crate) subject: Subject,
    pub(crate) texts: &'n Texts,
    pub(crate) names: &'n [NameNumbers],
    pub(crate) groups: &'n [Group],
    ghost known: { All (HasTexts texts.now) names.now },
    ghost within: { All (λ (g : Group). g.first < length names.now) groups.now },
}
