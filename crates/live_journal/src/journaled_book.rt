ghost use Rattle.std.specs.Prelude.{◌≡◌, ◌<◌, ◌≤◌, length, vec_capacity, vec_len, IfErr, OnOk};
ghost use Rattle.live_journal.specs.Faults.{IsDeedFault};

use crate::copying::{copy_entries, copy_traces};
use crate::finding::is_full;
use crate::{DeedFault, Entry, RollFault};
use day_partitions::{BookFault, DayBook};
use pipeline_tests::DaySheet;
use std::alloc::{AllocError, Global};
use std::marker::Model;

/// A book of days with its journal, of at most 10,000 entries. Contracts see the number of names
/// and the entries; the kept days are the replay of the entries.
#[derive(Drop)]
pub struct JournaledBook {
    alloc: Global,
    book: DayBook,
    entries: Vec<Entry>,
}

impl Model for JournaledBook {
    ghost use Rattle.live_journal.specs.Journals.{JournalState};
    ghost use Rattle.live_journal.specs.inner.Fields.{IsReplay};

    ghost Value = { JournalState };

    ghost view = { λ j. record { names = j.book.names; entries = j.entries.items } };

    ghost invariant = { λ j. IsReplay j.book j.entries.items };
}

/// Makes room for one entry more.
fn make_room(entries: &mut Vec<Entry>) -> Result<(), DeedFault>
    requires { length entries.old.items ≤ 10000 }
    ensures same { entries.new.items ≡ entries.old.items }
    ensures few { OnOk result (length entries.old.items < 10000) }
    ensures room { OnOk result (vec_len entries.new < vec_capacity entries.new) }
    ensures fault { IfErr result (IsDeedFault entries.old.items) }
{
    if entries.len() == 10_000 {
        return Err(DeedFault::JournalFull { entries: 10_000 });
    }
    let Ok(()) = entries.reserve(1) else {
        return Err(DeedFault::Memory);
    };
    Ok(())
}

impl JournaledBook {
    ghost use Rattle.std.specs.Prelude.{◌≡◌, ◌+◌, ◌<◌, ◌≤◌, [], drop, length};
    ghost use Rattle.std.specs.Prelude.{IfErr, IfOk, OnErr, OnOk};
    ghost use Rattle.hypothesis_index.specs.Places.{width_of};
    ghost use Rattle.refute_tests.specs.Survivors.{AreSurvivors};
    ghost use Rattle.day_partitions.specs.Books.{all_traces, IsSheetOf};
    ghost use Rattle.live_journal.specs.declared.entry.Entry.TheVariants.{Rolled, Dropped, Kept};
    ghost use Rattle.live_journal.specs.Faults.{IsDeedFault, IsOneTooMany, IsRollFault};
    ghost use Rattle.live_journal.specs.Journals.{journal, with_entry};
    ghost use Rattle.live_journal.specs.Replays.{dropped_by, replay, IsJournal};

    /// Makes a book without days and entries, for so many names. The only error is that memory ran
    /// out.
    pub fn new(alloc: Global, names: u32) -> Result<JournaledBook, AllocError>
        requires { names ≤ 512 }
        ensures { IfOk result (λ j. j ≡ journal names []) }
    {
        Ok(JournaledBook {
            alloc,
            book: DayBook::new(alloc, names)?,
            entries: Vec::new(alloc),
        })
    }

    /// How many entries the journal has.
    pub fn count(&self) -> u32
        ensures count { result ≡ length self.now.entries }
        ensures journal { IsJournal self.now.entries }
    {
        self.entries.len() as u32
    }

    /// Lends the words: a bit is 1 exactly where it is not the place of a relation that some kept
    /// trace refutes. It takes no memory.
    pub fn words(&self) -> &[u64]
        ensures survivors { AreSurvivors (all_traces (replay self.now.entries)) result.now }
        ensures width { length result.now ≡ width_of self.now.names }
    {
        self.book.words()
    }

    /// Copies the entries from a position on, none where there are not so many. The only error is
    /// that memory ran out.
    pub fn copy_from(&self, position: u32) -> Result<Vec<Entry>, AllocError>
        ensures { IfOk result (λ copy. copy.items ≡ drop position self.now.entries) }
    {
        match self.entries.get(position as usize..) {
            Some(entries) => copy_entries(self.alloc, entries),
            None => Ok(Vec::new(self.alloc)),
        }
    }

    /// Adds the sheet of a day, and an entry with copies of its traces, of which it tells the
    /// position. After an error the book is unchanged.
    pub fn roll(&mut self, day: u32, sheet: DaySheet) -> Result<u32, RollFault>
        requires sheet { IsSheetOf self.old.names day sheet }
        requires most { length sheet.traces ≤ 429496 }
        ensures added { OnOk result (self.new ≡ with_entry self.old (Rolled day sheet.traces)) }
        ensures journal { IsJournal self.new.entries }
        ensures position { IfOk result (λ position. position ≡ length self.old.entries) }
        ensures room { OnOk result (length self.old.entries < 10000) }
        ensures fits { OnOk result (IsOneTooMany (replay self.old.entries) day → ⊥) }
        ensures fault { IfErr result (IsRollFault self.old.entries day sheet) }
        ensures unchanged { OnErr result (self.new ≡ self.old) }
    {
        let entries = self.entries.len() as u32;
        if entries == 10_000 {
            return Err(RollFault::JournalFull { sheet, entries });
        }
        if is_full(&self.book, day) {
            return Err(RollFault::TooManyDays { sheet, days: 65 });
        }
        let Ok(traces) = copy_traces(self.alloc, sheet.traces()) else {
            return Err(RollFault::Memory { sheet });
        };
        let Ok(()) = self.entries.reserve(1) else {
            return Err(RollFault::Memory { sheet });
        };
        match self.book.add(day, sheet) {
            Ok(()) => {
                self.entries.push_reserved(Entry::Rolled { day, traces });
                Ok(entries)
            }
            Err(BookFault::Memory { sheet }) => Err(RollFault::Memory { sheet }),
            // The book is not full for this day, as was tested above.
            Err(BookFault::TooManyDays { .. }) => unreachable!(),
        }
    }

    /// Drops a day with all its traces, adds an entry, and tells how many traces there were. After
    /// an error the book is unchanged.
    pub fn drop_day(&mut self, day: u32) -> Result<u32, DeedFault>
        ensures added { OnOk result (self.new ≡ with_entry self.old (Dropped day)) }
        ensures journal { IsJournal self.new.entries }
        ensures count { IfOk result (λ n. n ≡ dropped_by self.old.entries (Dropped day)) }
        ensures room { OnOk result (length self.old.entries < 10000) }
        ensures fault { IfErr result (IsDeedFault self.old.entries) }
        ensures unchanged { OnErr result (self.new ≡ self.old) }
    {
        make_room(&mut self.entries)?;
        let dropped = self.book.drop_day(day);
        self.entries.push_reserved(Entry::Dropped { day });
        Ok(dropped)
    }

    /// Drops all days but the last so many, adds an entry, and tells how many traces they had.
    /// After an error the book is unchanged.
    pub fn keep_newest(&mut self, days: u32) -> Result<u32, DeedFault>
        ensures added { OnOk result (self.new ≡ with_entry self.old (Kept days)) }
        ensures journal { IsJournal self.new.entries }
        ensures count { IfOk result (λ n. n ≡ dropped_by self.old.entries (Kept days)) }
        ensures room { OnOk result (length self.old.entries < 10000) }
        ensures fault { IfErr result (IsDeedFault self.old.entries) }
        ensures unchanged { OnErr result (self.new ≡ self.old) }
    {
        make_room(&mut self.entries)?;
        let dropped = self.book.keep_newest(days);
        self.entries.push_reserved(Entry::Kept { days });
        Ok(dropped)
    }
}
