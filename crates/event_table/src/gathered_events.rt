ghost use Rattle.std.specs.Prelude.{◌≡◌, ◌↔◌, ◌<◌, length, IsTrue, Some, slice_get};

use crate::block::Block;
use crate::groups::group_at;
use crate::messages::Messages;
use crate::{RawEvents, Texts};
use std::marker::Model;

/// The events of a batch, trace after trace, as numbers beside tables of their texts and lists
/// of their messages; seen as the texts and the traces.
#[derive(Drop)]
pub struct GatheredEvents {
    pub(crate) texts: Texts,
    pub(crate) messages: Messages,
    /// The traces: each is a group of a block.
    pub(crate) blocks: Vec<Block>,
    /// The number of traces.
    pub(crate) count: usize,
}

impl Model for GatheredEvents {
    ghost use Rattle.event_table.specs.Gathered.{Gathered, traces_under};
    ghost use Rattle.event_table.specs.inner.Tables.{AreGathered};
    ghost use Rattle.event_table.specs.inner.Groups.{groups_of_blocks};

    ghost Value = { Gathered };

    ghost view = { λ g. record {
      texts = g.texts;
      traces = traces_under g.texts g.messages (groups_of_blocks g.blocks.items);
    } };

    ghost invariant = { λ g. AreGathered g.texts g.messages (groups_of_blocks g.blocks.items)
        g.count };
}

impl GatheredEvents {
    /// Lends the texts.
    pub fn texts(&self) -> &Texts
        ensures { result.now ≡ self.now.texts }
    {
        &self.texts
    }

    /// Counts the traces.
    pub fn len(&self) -> usize
        ensures { result ≡ length self.now.traces }
    {
        self.count
    }

    /// Tells whether there are no traces.
    pub fn is_empty(&self) -> bool
        ensures { IsTrue result ↔ (length self.now.traces ≡ 0) }
    {
        self.count == 0
    }

    /// Lends the trace with this index. Takes no memory.
    pub fn trace(&self, index: usize) -> RawEvents<'_>
        requires { index < length self.now.traces }
        ensures trace { slice_get self.now.traces index ≡ Some result.trace }
        ensures texts { result.texts ≡ self.now.texts }
    {
        RawEvents {
            texts: &self.texts,
            messages: &self.messages,
            events: group_at(&self.blocks, index),
        }
    }
}
