ghost use Rattle.std.specs.Prelude.{◌≡◌, IfOk, OnErr, OnOk, Some};
ghost use Rattle.clock_offsets.specs.NumberPlaces.{is_of, place_in, places_with};
ghost use Rattle.clock_offsets.specs.inner.NumberChains.{IsChained, mix_of, newest_first};
ghost use Rattle.clock_offsets.specs.inner.NumberChains.{number_place};

use crate::digests::pick_chain;
use crate::number_entry::NumberEntry;
use std::alloc::{AllocError, Global};
use std::marker::Model;

/// 2^64 divided by the golden ratio, a multiplier that spreads bits.
const SPREAD: u64 = 0x9e37_79b9_7f4a_7c15;

/// The most numbers that are looked through one by one.
const FEW: usize = 32;

/// The places of numbers, by their groups, the newest first. A number of a group has one place, the
/// first that it was given. Groups, numbers and places are the caller's.
#[derive(Drop)]
pub struct NumberPlaces {
    entries: Vec<NumberEntry>,
    chains: Vec<usize>,
}

impl Model for NumberPlaces {
    ghost use Rattle.std.specs.Prelude.{List};
    ghost use Rattle.clock_offsets.specs.NumberPlaces.{NumberPlace};
    ghost use Rattle.clock_offsets.specs.inner.NumberChains.{newest_first, IsTable};

    ghost Value = { List NumberPlace };

    ghost view = { λ a. newest_first a.entries.items };

    ghost invariant = { λ a. IsTable a.chains.items a.entries.items };
}

/// Mixes a group and a number to 64 bits.
#[inline(always)]
fn mix(group: usize, number: u32) -> u64
    ensures { result ≡ mix_of group number }
{
    (group as u64)
        .wrapping_mul(SPREAD)
        .wrapping_add(u64::from(number))
        .wrapping_mul(SPREAD)
}

/// Tests whether an entry is of this number of a group.
#[inline(always)]
fn is_entry_of(entry: &NumberEntry, group: usize, number: u32) -> bool
    ensures { result ≡ is_of group number (number_place entry.now) }
{
    entry.group == group && entry.number == number
}

/// Finds the place of a number of a group among few.
#[inline(always)]
fn find_in_few(entries: &[NumberEntry], group: usize, number: u32) -> Option<usize>
    ensures { result ≡ place_in (newest_first entries.now) group number }
{
    let mut next = entries.len();
    'older: while next > 0 {
        next -= 1;
        let entry = &entries[next];
        if is_entry_of(entry, group, number) {
            return Some(entry.place);
        }
    }
    None
}

/// Gives a number of a group this place among few, unless it has one, and answers the one that it
/// has now.
fn find_or_add_in_few(
    entries: &mut Vec<NumberEntry>,
    group: usize,
    number: u32,
    place: usize,
) -> Result<usize, AllocError>
    ensures place { IfOk result (λ p.
        place_in (newest_first entries.new.items) group number ≡ Some p) }
    ensures added { OnOk result (newest_first entries.new.items
        ≡ places_with (newest_first entries.old.items) group number place) }
    ensures error { OnErr result (entries.new.items ≡ entries.old.items) }
{
    if let Some(found) = find_in_few(entries, group, number) {
        return Ok(found);
    }
    entries.push(NumberEntry {
        group,
        number,
        place,
        older: 0,
    })?;
    Ok(place)
}

/// Finds the place of the number of a group that has this mix along its chain.
#[inline(always)]
fn find_in_chain(
    chains: &[usize],
    entries: &[NumberEntry],
    mixed: u64,
    group: usize,
    number: u32,
) -> Option<usize>
    requires chained { IsChained chains.now entries.now }
    requires mixed { mixed ≡ mix_of group number }
    ensures { result ≡ place_in (newest_first entries.now) group number }
{
    let mut next = chains[pick_chain(chains.len(), mixed)];
    'older: while next > 0 {
        let entry = &entries[next - 1];
        if is_entry_of(entry, group, number) {
            return Some(entry.place);
        }
        next = entry.older;
    }
    None
}

impl NumberPlaces {
    ghost use Rattle.std.specs.Prelude.{◌≡◌, IfOk, OnErr, OnOk, Some, []};
    ghost use Rattle.clock_offsets.specs.NumberPlaces.{place_in, places_with};

    /// Makes a table with no places. It has memory for this many. The only error is out of memory.
    pub fn new(alloc: Global, count: usize) -> Result<NumberPlaces, AllocError>
        ensures { IfOk result (λ places. places ≡ []) }
    {
        let entries = Vec::with_capacity(alloc, count)?;
        let chains = if count > FEW {
            vec![in alloc; 0usize; count]?
        } else {
            Vec::new(alloc)
        };
        Ok(NumberPlaces { entries, chains })
    }

    /// Gives a number of a group this place, unless it has one, and answers the one that it has
    /// now. The only error is out of memory, and then the places are unchanged.
    pub fn find_or_add(
        &mut self,
        group: usize,
        number: u32,
        place: usize,
    ) -> Result<usize, AllocError>
        ensures place { IfOk result (λ p. place_in self.new group number ≡ Some p) }
        ensures added { OnOk result (self.new ≡ places_with self.old group number place) }
        ensures error { OnErr result (self.new ≡ self.old) }
    {
        if self.chains.is_empty() {
            return find_or_add_in_few(&mut self.entries, group, number, place);
        }
        let mixed = mix(group, number);
        if let Some(found) = find_in_chain(&self.chains, &self.entries, mixed, group, number) {
            return Ok(found);
        }
        let chain = pick_chain(self.chains.len(), mixed);
        let older = self.chains[chain];
        self.entries.push(NumberEntry {
            group,
            number,
            place,
            older,
        })?;
        self.chains[chain] = self.entries.len();
        Ok(place)
    }
}
