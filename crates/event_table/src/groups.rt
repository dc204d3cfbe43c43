ghost use Rattle.std.specs.Prelude.{◌≡◌, ◌<◌, ◌≤◌, ◌∷◌, length, Some, slice_get};
ghost use Rattle.std.specs.Prelude.{slice_index, slice_range};
ghost use Rattle.event_table.specs.inner.Groups.{block_groups, groups_of_blocks};

use crate::block::Block;
use crate::event_numbers::EventNumbers;

/// Gives where the group with this index starts: where the one before it ends.
fn start_of(ends: &[u32], index: usize) -> u32
    requires { index < length ends.now }
    ensures { result ≡ slice_index (0 ∷ ends.now) index }
{
    if index == 0 { 0 } else { ends[index - 1] }
}

/// Lends the events from one index up to another.
fn range_of(events: &[EventNumbers], start: usize, end: usize) -> &[EventNumbers]
    requires rising { start ≤ end }
    requires within { end ≤ length events.now }
    ensures { result.now ≡ slice_range events.now start end }
{
    &events[start..end]
}

impl Block {
    /// Counts the groups.
    pub(crate) fn len(&self) -> usize
        ensures { result ≡ length (block_groups self.now) }
    {
        self.ends.len()
    }

    /// Lends the group with this index.
    pub(crate) fn group(&self, index: usize) -> &[EventNumbers]
        requires { index < length (block_groups self.now) }
        ensures { slice_get (block_groups self.now) index ≡ Some result.now }
    {
        let start = start_of(&self.ends, index) as usize;
        let end = self.ends[index] as usize;
        range_of(&self.events, start, end)
    }
}

/// Lends the group with this index over all blocks.
pub(crate) fn group_at(blocks: &[Block], index: usize) -> &[EventNumbers]
    requires { index < length (groups_of_blocks blocks.now) }
    ensures { slice_get (groups_of_blocks blocks.now) index ≡ Some result.now }
{
    let mut at = 0;
    let mut left = index;
    while left >= blocks[at].len() {
        left -= blocks[at].len();
        at += 1;
    }
    blocks[at].group(left)
}
