ghost use Rattle.std.specs.Prelude.{◌≡◌, ◌<◌, ◌≤◌, [], length, IfOk, Some, slice_get};
ghost use Rattle.std.specs.Option.{option_map};
ghost use Rattle.word_rows.specs.Words.{AreWords};

use crate::batches::{count_new, make_rooms};
use crate::counting::count_traces;
use crate::day::Day;
use crate::dropping::{drop_at, drop_oldest};
use crate::finding::{find_place, is_day_at, is_full};
use crate::placing::take_in;
use crate::room::make_room;
use crate::tree::Tree;
use crate::{AddAllFault, BookFault, DatedSheet};
use hypothesis_index::laws::pairs_follow;
use hypothesis_index::width;
use pipeline_tests::DaySheet;
use pipeline_tests::laws::widened_lacks;
use row_pool::Steps;
use std::alloc::{AllocError, Global};
use std::marker::{Brand, Model};
use std::sync::ledger::{Blank, Ledger};
use trace_types::NamedTrace;

/// Kept days with their traces, and the words of the relations that no kept trace refutes: at most
/// 64 days, and fewer than 4,294,967,296 traces.
#[derive(Drop)]
pub struct DayBook {
    names: u32,
    tree: Tree,
    days: Vec<Day>,
}

impl Model for DayBook {
    ghost use Rattle.day_partitions.specs.Books.{BookState};

    ghost Value = { BookState };

    ghost use Rattle.day_partitions.specs.inner.Insides.{book_of, AreFields};

    ghost view = { book_of };

    ghost invariant = { AreFields };
}

/// Lends the words, each of which has 64 bits.
fn lend(words: &[u64]) -> &[u64]
    ensures same { result.now ≡ words.now }
    ensures bound { AreWords words.now }
{
    words
}

impl DayBook {
    ghost use Rattle.std.specs.Prelude.{◌≡◌, ◌≢◌, ◌+◌, ◌^◌, ◌<◌, ◌≤◌, [], length, false, Some};
    ghost use Rattle.std.specs.Prelude.{slice_get, IfErr, IfOk, IsOk, OnErr, OnOk};
    ghost use Rattle.std.specs.Option.{option_map};
    ghost use Rattle.hypothesis_index.specs.Places.{width_of};
    ghost use Rattle.refute_tests.specs.Survivors.{AreSurvivors};
    ghost use Rattle.day_partitions.specs.Batches.{with_all, AreAllNew, AreSheetsFor, HasRoomFor};
    ghost use Rattle.day_partitions.specs.Batches.{IsBatchFault};
    ghost use Rattle.day_partitions.specs.Books.{all_traces, book, has_day, with_added, IsBook};
    ghost use Rattle.day_partitions.specs.Books.{days_without, newest_days, traces_kept_on};
    ghost use Rattle.day_partitions.specs.Books.{with_fewer};
    ghost use Rattle.day_partitions.specs.Books.{with_names, with_spare_days, IsFull, IsSheetOf};
    ghost use Rattle.day_partitions.specs.Faults.{IsBookFault};
    ghost use Rattle.day_partitions.specs.Meets.{meets_of_add, meets_of_drop};

    /// Makes a book without days, for so many names. It takes the memory for the rows of the tree
    /// besides its leaves, and room for 64 days.
    pub fn new(alloc: Global, names: u32) -> Result<DayBook, AllocError>
        requires { names ≤ 512 }
        ensures { IfOk result (λ b. b ≡ book [] names 0) }
    {
        let tree = Tree::new(alloc, width(names))?;
        let days = Vec::with_capacity(alloc, 64)?;
        Ok(DayBook { names, tree, days })
    }

    /// Lends the words: a bit is 1 exactly where it is not the place of a relation that some kept
    /// trace refutes. It takes no memory.
    pub fn words(&self) -> &[u64]
        ensures survivors { AreSurvivors (all_traces self.now.days) result.now }
        ensures width { length result.now ≡ width_of self.now.names }
    {
        lend(self.tree.root())
    }

    /// How many days are kept.
    pub fn days(&self) -> u32
        ensures count { result ≡ length self.now.days }
        ensures kept { IsBook self.now }
    {
        self.days.len() as u32
    }

    /// How many names the words have room for.
    pub fn names(&self) -> u32
        ensures names { result ≡ self.now.names }
        ensures kept { IsBook self.now }
    {
        self.names
    }

    /// How many traces are kept.
    pub fn trace_count(&self) -> u32
        ensures count { result ≡ length (all_traces self.now.days) }
        ensures kept { IsBook self.now }
    {
        count_traces(&self.days) as u32
    }

    /// The day at a place, in days of 86,400 seconds since 1970. The days rise.
    pub fn day(&self, place: u32) -> u32
        requires { place < length self.now.days }
        ensures { option_map (λ k. k.day) (slice_get self.now.days place) ≡ Some result }
    {
        self.days[place as usize].day
    }

    /// Lends the traces of the day at a place, in the order in which they were taken.
    pub fn traces(&self, place: u32) -> &[NamedTrace]
        requires { place < length self.now.days }
        ensures { option_map (λ k. k.traces) (slice_get self.now.days place) ≡ Some result.now }
    {
        &self.days[place as usize].traces
    }

    /// How many new days can be added without memory.
    pub fn spare(&self) -> u32
        ensures { result ≡ self.now.spare }
    {
        self.tree.spare()
    }

    /// Adds the sheet of a day: its traces follow those of the day, and a new day stands in its
    /// place. After an error the book is unchanged, and nothing was counted. It meets seven rows
    /// where the day is kept, and else six.
    pub fn add_counted<L: Ledger>(
        &mut self,
        day: u32,
        sheet: DaySheet,
        steps: &mut Steps<L>,
    ) -> Result<(), BookFault>
        requires sheet { IsSheetOf self.old.names day sheet }
        requires counted { length (all_traces self.old.days) + length sheet.traces < 2 ^ 32 }
        ensures added { OnOk result (self.new ≡ with_added self.old day sheet.traces) }
        ensures fits { OnOk result (IsFull self.old day → ⊥) }
        ensures fault { IfErr result (IsBookFault self.old day sheet) }
        ensures unchanged { OnErr result (self.new ≡ self.old) }

        // A spare row is all that a new day needs.
        ensures sure { self.old.spare ≢ 0 → has_day self.old.days day ≡ false → IsOk result }
        ensures steps { OnOk result (steps.new ≡ steps.old + meets_of_add self.old.days day) }
        ensures uncounted { OnErr result (steps.new ≡ steps.old) }
    {
        if is_full(&self.days, day) {
            return Err(BookFault::TooManyDays { sheet, days: 65 });
        }
        let more = sheet.traces().len();
        let Ok(()) = make_room(&mut self.tree, &mut self.days, day, more) else {
            return Err(BookFault::Memory { sheet });
        };
        take_in(&mut self.tree, &mut self.days, day, sheet, steps);
        Ok(())
    }

    /// Adds the sheet of a day, as `add_counted` does.
    pub fn add(&mut self, day: u32, sheet: DaySheet) -> Result<(), BookFault>
        requires sheet { IsSheetOf self.old.names day sheet }
        requires counted { length (all_traces self.old.days) + length sheet.traces < 2 ^ 32 }
        ensures added { OnOk result (self.new ≡ with_added self.old day sheet.traces) }
        ensures fits { OnOk result (IsFull self.old day → ⊥) }
        ensures fault { IfErr result (IsBookFault self.old day sheet) }
        ensures unchanged { OnErr result (self.new ≡ self.old) }
        ensures sure { self.old.spare ≢ 0 → has_day self.old.days day ≡ false → IsOk result }
    {
        self.add_from::<Brand>(day, sheet, Blank::new(1))
    }

    /// Adds the sheet of a day with a counter that nobody reads.
    fn add_from<L: Ledger>(
        &mut self,
        day: u32,
        sheet: DaySheet,
        blank: Blank,
    ) -> Result<(), BookFault>
        requires name { blank.name ≡ L.name }
        requires parts { (blank.parts ≡ L.parts) × (0 < L.parts) }
        requires sheet { IsSheetOf self.old.names day sheet }
        requires counted { length (all_traces self.old.days) + length sheet.traces < 2 ^ 32 }
        ensures added { OnOk result (self.new ≡ with_added self.old day sheet.traces) }
        ensures fits { OnOk result (IsFull self.old day → ⊥) }
        ensures fault { IfErr result (IsBookFault self.old day sheet) }
        ensures unchanged { OnErr result (self.new ≡ self.old) }
        ensures sure { self.old.spare ≢ 0 → has_day self.old.days day ≡ false → IsOk result }
    {
        let mut steps = Steps::<L>::new(blank);
        self.add_counted(day, sheet, &mut steps)
    }

    /// Drops a day with all its traces, and tells how many there were: 0 where the day is not
    /// kept. A dropped day leaves a spare row. It takes no memory, and meets six rows, or none
    /// where the day is not kept.
    pub fn drop_counted<L: Ledger>(&mut self, day: u32, steps: &mut Steps<L>) -> u32
        ensures dropped { self.new ≡ with_fewer self.old (days_without day self.old.days) }
        ensures count { result ≡ length (traces_kept_on self.old.days day) }
        ensures steps { steps.new ≡ steps.old + meets_of_drop self.old.days day }
    {
        let place = find_place(&self.days, day);
        if !is_day_at(&self.days, place, day) {
            return 0;
        }
        drop_at(&mut self.tree, &mut self.days, place, steps) as u32
    }

    /// Drops a day with all its traces, as `drop_counted` does.
    pub fn drop_day(&mut self, day: u32) -> u32
        ensures dropped { self.new ≡ with_fewer self.old (days_without day self.old.days) }
        ensures count { result ≡ length (traces_kept_on self.old.days day) }
    {
        self.drop_from::<Brand>(day, Blank::new(1))
    }

    /// Drops a day with a counter that nobody reads.
    fn drop_from<L: Ledger>(&mut self, day: u32, blank: Blank) -> u32
        requires name { blank.name ≡ L.name }
        requires parts { (blank.parts ≡ L.parts) × (0 < L.parts) }
        ensures dropped { self.new ≡ with_fewer self.old (days_without day self.old.days) }
        ensures count { result ≡ length (traces_kept_on self.old.days day) }
    {
        let mut steps = Steps::<L>::new(blank);
        self.drop_counted(day, &mut steps)
    }

    /// Drops all days but the last so many, and tells how many traces they had. Each dropped day
    /// leaves a spare row. It takes no memory.
    pub fn keep_newest(&mut self, days: u32) -> u32
        ensures kept { self.new ≡ with_fewer self.old (newest_days days self.old.days) }
        ensures count { result + length (all_traces self.new.days)
            ≡ length (all_traces self.old.days) }
    {
        self.keep_from::<Brand>(days, Blank::new(1))
    }

    /// Drops all days but the last so many, with a counter that nobody reads.
    fn keep_from<L: Ledger>(&mut self, days: u32, blank: Blank) -> u32
        requires name { blank.name ≡ L.name }
        requires parts { (blank.parts ≡ L.parts) × (0 < L.parts) }
        ensures kept { self.new ≡ with_fewer self.old (newest_days days self.old.days) }
        ensures count { result + length (all_traces self.new.days)
            ≡ length (all_traces self.old.days) }
    {
        let mut steps = Steps::<L>::new(blank);
        drop_oldest(&mut self.tree, &mut self.days, days as usize, &mut steps) as u32
    }

    /// Makes so many rows spare for new days, if fewer are. The days that are kept and these are at
    /// most 64 together. The only error is that memory ran out.
    pub fn reserve(&mut self, days: u32) -> Result<(), AllocError>
        requires { length self.old.days + days ≤ 64 }
        ensures ok { OnOk result (self.new ≡ with_spare_days self.old days) }
        ensures err { OnErr result (self.new ≡ self.old) }
        ensures sure { days ≤ self.old.spare → IsOk result }
    {
        self.tree.reserve(days)
    }

    /// Makes the book one of so many names, at least as many as before: the words grow, with all
    /// new bits 1. The only error is that memory ran out, and there is none where the words stay as
    /// many.
    pub fn widen(&mut self, names: u32) -> Result<(), AllocError>
        requires more { self.old.names ≤ names }
        requires most { names ≤ 512 }
        ensures ok { OnOk result (self.new ≡ with_names self.old names) }
        ensures err { OnErr result (self.new ≡ self.old) }
        ensures sure { width_of names ≡ width_of self.old.names → IsOk result }
    {
        // For the proof alone.
        pairs_follow();
        widened_lacks();
        self.tree.widen(width(names))?;
        self.names = names;
        Ok(())
    }

    /// Adds the sheets of several days, whose days rise: all of them or, after an error, none. All
    /// memory is taken before the first change.
    pub fn add_all(&mut self, sheets: Vec<DatedSheet>) -> Result<(), AddAllFault>
        requires { AreSheetsFor self.old sheets.items }
        ensures added { OnOk result (self.new ≡ with_all self.old sheets.items) }
        ensures fits { OnOk result (HasRoomFor self.old sheets.items) }
        ensures fault { IfErr result (IsBatchFault self.old sheets.items) }
        ensures unchanged { OnErr result (self.new ≡ self.old) }

        // A spare row for each sheet is all that new days need.
        ensures sure { AreAllNew self.old sheets.items → IsOk result }
    {
        self.add_all_from::<Brand>(sheets, Blank::new(1))
    }

    /// Adds the sheets of several days with a counter that nobody reads.
    fn add_all_from<L: Ledger>(
        &mut self,
        sheets: Vec<DatedSheet>,
        blank: Blank,
    ) -> Result<(), AddAllFault>
        requires name { blank.name ≡ L.name }
        requires parts { (blank.parts ≡ L.parts) × (0 < L.parts) }
        requires sheets { AreSheetsFor self.old sheets.items }
        ensures added { OnOk result (self.new ≡ with_all self.old sheets.items) }
        ensures fits { OnOk result (HasRoomFor self.old sheets.items) }
        ensures fault { IfErr result (IsBatchFault self.old sheets.items) }
        ensures unchanged { OnErr result (self.new ≡ self.old) }
        ensures sure { AreAllNew self.old sheets.items → IsOk result }
    {
        let new = count_new(&self.days, &sheets);
        let days = self.days.len() + new;
        if days > 64 {
            return Err(AddAllFault::TooManyDays {
                sheets,
                days: days as u32,
            });
        }
        let Ok(()) = make_rooms(&mut self.tree, &mut self.days, &sheets, new as u32) else {
            return Err(AddAllFault::Memory { sheets });
        };
        let mut steps = Steps::<L>::new(blank);
        'sheets: for dated in sheets {
            take_in(
                &mut self.tree,
                &mut self.days,
                dated.day,
                dated.sheet,
                &mut steps,
            );
        }
        Ok(())
    }
}
