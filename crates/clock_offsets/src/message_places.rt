ghost use Rattle.std.specs.Prelude.{◌≡◌, ◌<◌, length};
ghost use Rattle.clock_offsets.specs.inner.MessagePlaces.{is_of_message, message_place_in};
ghost use Rattle.event_table.specs.Digests.{digest_of};
ghost use Rattle.clock_offsets.specs.inner.Chains.{message_place, newest_first, AreDigested};
ghost use Rattle.clock_offsets.specs.inner.Chains.{IsChained, IsTable};

use crate::digests::pick_chain;
use crate::message_entry::MessageEntry;
use event_table::digest;
use std::alloc::{AllocError, Global};
use std::marker::Model;

/// The most messages that are looked through one by one.
const FEW: usize = 32;

/// The places of messages, the newest first. A message has one place, the first that it was given.
#[derive(Drop)]
pub(crate) struct MessagePlaces<'a> {
    entries: Vec<MessageEntry<'a>>,
    chains: Vec<usize>,
}

impl<'a> Model for MessagePlaces<'a> {
    ghost use Rattle.std.specs.Prelude.{List};
    ghost use Rattle.clock_offsets.specs.inner.MessagePlaces.{MessagePlace};
    ghost use Rattle.clock_offsets.specs.inner.Chains.{newest_first, IsTable};

    ghost Value = { List MessagePlace };

    ghost view = { λ a. newest_first a.entries.items };

    ghost invariant = { λ a. IsTable a.chains.items a.entries.items };
}

/// Tests whether an entry is of the message that has this digest.
#[inline(always)]
fn is_entry_of(entry: &MessageEntry, digest: u64, message: &[u8]) -> bool
    requires own { entry.now.digest ≡ digest_of entry.now.message.now }
    requires digest { digest ≡ digest_of message.now }
    ensures { result ≡ is_of_message message.now (message_place entry.now) }
{
    entry.digest == digest && entry.message == message
}

/// Finds the place of the message that has this digest among few.
#[inline(always)]
fn find_in_few(entries: &[MessageEntry], digest: u64, message: &[u8]) -> Option<usize>
    requires digests { AreDigested entries.now }
    requires digest { digest ≡ digest_of message.now }
    ensures { result ≡ message_place_in (newest_first entries.now) message.now }
{
    let mut next = entries.len();
    'older: while next > 0 {
        next -= 1;
        let entry = &entries[next];
        if is_entry_of(entry, digest, message) {
            return Some(entry.place);
        }
    }
    None
}

/// Finds the place of the message that has this digest along its chain.
#[inline(always)]
fn find_in_chain(
    chains: &[usize],
    entries: &[MessageEntry],
    digest: u64,
    message: &[u8],
) -> Option<usize>
    requires digests { AreDigested entries.now }
    requires chained { IsChained chains.now entries.now }
    requires digest { digest ≡ digest_of message.now }
    ensures { result ≡ message_place_in (newest_first entries.now) message.now }
{
    let mut next = chains[pick_chain(chains.len(), digest)];
    'older: while next > 0 {
        let entry = &entries[next - 1];
        if is_entry_of(entry, digest, message) {
            return Some(entry.place);
        }
        next = entry.older;
    }
    None
}

/// Finds the place of the message that has this digest.
#[inline(always)]
fn find_place(
    chains: &[usize],
    entries: &[MessageEntry],
    digest: u64,
    message: &[u8],
) -> Option<usize>
    requires table { IsTable chains.now entries.now }
    requires digest { digest ≡ digest_of message.now }
    ensures { result ≡ message_place_in (newest_first entries.now) message.now }
{
    if chains.is_empty() {
        find_in_few(entries, digest, message)
    } else {
        find_in_chain(chains, entries, digest, message)
    }
}

impl<'a> MessagePlaces<'a> {
    ghost use Rattle.std.specs.Prelude.{◌≡◌, IfOk, OnOk, Some, []};
    ghost use Rattle.clock_offsets.specs.inner.MessagePlaces.{message_place_in, message_places_with};

    /// Makes a table with no places. It has memory for this many. The only error is out of memory.
    pub(crate) fn new(alloc: Global, count: usize) -> Result<MessagePlaces<'a>, AllocError>
        ensures { IfOk result (λ places. places ≡ []) }
    {
        let entries = Vec::with_capacity(alloc, count)?;
        let chains = if count > FEW {
            vec![in alloc; 0usize; count]?
        } else {
            Vec::new(alloc)
        };
        Ok(MessagePlaces { entries, chains })
    }

    /// Finds the place of a message.
    pub(crate) fn find(&self, message: &[u8]) -> Option<usize>
        ensures { result ≡ message_place_in self.now message.now }
    {
        find_place(&self.chains, &self.entries, digest(message), message)
    }

    /// Gives a message this place, unless it has one, and answers the one that it has now. The only
    /// error is out of memory.
    pub(crate) fn find_or_add(
        &mut self,
        message: &'a [u8],
        place: usize,
    ) -> Result<usize, AllocError>
        ensures place { IfOk result (λ p. message_place_in self.new message.now ≡ Some p) }
        ensures added { OnOk result (self.new ≡ message_places_with self.old message.now place) }
    {
        let own = digest(message);
        if let Some(found) = find_place(&self.chains, &self.entries, own, message) {
            return Ok(found);
        }
        if self.chains.is_empty() {
            self.entries.push(MessageEntry {
                message,
                place,
                digest: own,
                older: 0,
            })?;
            return Ok(place);
        }
        let chain = pick_chain(self.chains.len(), own);
        let older = self.chains[chain];
        self.entries.push(MessageEntry {
            message,
            place,
            digest: own,
            older,
        })?;
        self.chains[chain] = self.entries.len();
        Ok(place)
    }
}
