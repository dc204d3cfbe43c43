use day_partitions::{AddAllFault, DatedSheet, DayBook};
use segment_names::Catalogue;
use std::alloc::{AllocError, Global};
use std::marker::Model;
use trace_types::NamedTrace;

/// The kept traces by day, with the catalogue of their names: the book of days has room for exactly
/// the names of the catalogue, at most 512. The reads of its parts and counts tell what every such
/// book keeps.
#[derive(Drop)]
pub struct KeptBook {
    catalogue: Catalogue,
    book: DayBook,
}

impl Model for KeptBook {
    ghost use Rattle.kept_books.specs.KeptBooks.{IsKeptBook, KeptState};

    ghost Value = { KeptState };

    ghost view = { λ k. record { known = k.catalogue; book = k.book } };

    ghost invariant = { λ k. IsKeptBook (record { known = k.catalogue; book = k.book }) };
}

impl KeptBook {
    ghost use Rattle.std.specs.Prelude.{◌≡◌, ◌+◌, ◌<◌, ◌≤◌, All, IfErr, IfOk, IsOk, OnErr, OnOk};
    ghost use Rattle.std.specs.Prelude.{Some, length, slice_get};
    ghost use Rattle.std.specs.Option.{option_map};
    ghost use Rattle.day_partitions.specs.Batches.{AreAllNew, AreSheetsFor, HasRoomFor};
    ghost use Rattle.day_partitions.specs.Batches.{IsBatchFault, with_all};
    ghost use Rattle.day_partitions.specs.Books.{days_without, newest_days};
    ghost use Rattle.day_partitions.specs.Books.{traces_kept_on, with_fewer};
    ghost use Rattle.hypothesis_index.specs.Places.{width_of};
    ghost use Rattle.kept_books.specs.KeptBooks.{IsKeptBook, empty_book, traces_in};
    ghost use Rattle.kept_books.specs.KeptBooks.{under_catalogue, with_book};
    ghost use Rattle.refute_tests.specs.Clearing.{HaveNamesBelow};
    ghost use Rattle.refute_tests.specs.Survivors.{AreSurvivors};

    /// Makes a book without names and days. The only error is that memory ran out.
    pub fn new(alloc: Global) -> Result<KeptBook, AllocError>
        ensures { IfOk result (λ k. k ≡ empty_book) }
    {
        let days = DayBook::new(alloc, 0)?;
        KeptBook::of(Catalogue::new(alloc), days)
    }

    /// Puts a book of days under a catalogue that has its names and perhaps more, to which the book
    /// is widened. The only error is that memory ran out, and there is none where the words stay as
    /// many.
    pub fn of(catalogue: Catalogue, mut book: DayBook) -> Result<KeptBook, AllocError>
        requires { book.names ≤ length catalogue.names }
        ensures whole { IfOk result (λ k. k ≡ under_catalogue catalogue book) }
        ensures sure { width_of (length catalogue.names) ≡ width_of book.names → IsOk result }
    {
        book.widen(catalogue.names())?;
        // Its contract tells what every book of days keeps.
        let _days = book.days();
        Ok(KeptBook { catalogue, book })
    }

    /// Takes the catalogue and the book of days apart, so that the catalogue can grow.
    pub fn into_parts(self) -> (Catalogue, DayBook)
        ensures catalogue { result.0 ≡ self.known }
        ensures book { result.1 ≡ self.book }
        ensures kept { IsKeptBook self }
    {
        (self.catalogue, self.book)
    }

    /// Lends the catalogue.
    pub fn catalogue(&self) -> &Catalogue
        ensures catalogue { result.now ≡ self.now.known }
        ensures kept { IsKeptBook self.now }
    {
        &self.catalogue
    }

    /// Lends the book of days.
    pub fn day_book(&self) -> &DayBook
        ensures book { result.now ≡ self.now.book }
        ensures kept { IsKeptBook self.now }
    {
        &self.book
    }

    /// How many names there are.
    pub fn names(&self) -> u32
        ensures count { result ≡ length self.now.known.names }
        ensures kept { IsKeptBook self.now }
    {
        self.catalogue.names()
    }

    /// How many days are kept.
    pub fn days(&self) -> u32
        ensures count { result ≡ length self.now.book.days }
        ensures kept { IsKeptBook self.now }
    {
        self.book.days()
    }

    /// How many traces are kept.
    pub fn trace_count(&self) -> u32
        ensures count { result ≡ length (traces_in self.now) }
        ensures kept { IsKeptBook self.now }
    {
        self.book.trace_count()
    }

    /// Lends the traces of the day at a place, in the order in which they were taken.
    pub fn traces(&self, place: u32) -> &[NamedTrace]
        requires { place < length self.now.book.days }
        ensures traces { option_map (λ k. k.traces) (slice_get self.now.book.days place)
            ≡ Some result.now }
        ensures named { All (HaveNamesBelow (length self.now.known.names)) result.now }
    {
        self.book.traces(place)
    }

    /// Lends the words: a bit is 1 exactly where it is not the place of a relation that some kept
    /// trace refutes. It takes no memory.
    pub fn words(&self) -> &[u64]
        ensures survivors { AreSurvivors (traces_in self.now) result.now }
        ensures width { length result.now ≡ width_of (length self.now.known.names) }
    {
        self.book.words()
    }

    /// Adds the sheets of several days, whose days rise: all of them or, after an error, none. All
    /// memory is taken before the first change.
    pub fn add_all(&mut self, sheets: Vec<DatedSheet>) -> Result<(), AddAllFault>
        requires { AreSheetsFor self.old.book sheets.items }
        ensures added { OnOk result
            (self.new ≡ with_book self.old (with_all self.old.book sheets.items)) }
        ensures fits { OnOk result (HasRoomFor self.old.book sheets.items) }
        ensures fault { IfErr result (IsBatchFault self.old.book sheets.items) }
        ensures unchanged { OnErr result (self.new ≡ self.old) }

        // A spare row for each sheet is all that new days need.
        ensures sure { AreAllNew self.old.book sheets.items → IsOk result }
    {
        let added = self.book.add_all(sheets);
        // Its contract tells what every book of days keeps.
        let _days = self.book.days();
        added
    }

    /// Drops a day with all its traces, and tells how many there were: 0 where the day is not
    /// kept. It takes no memory.
    pub fn drop_day(&mut self, day: u32) -> u32
        ensures dropped { self.new ≡ with_book self.old
            (with_fewer self.old.book (days_without day self.old.book.days)) }
        ensures count { result ≡ length (traces_kept_on self.old.book.days day) }
        ensures kept { IsKeptBook self.old }
    {
        let count = self.book.drop_day(day);
        // Its contract tells what every book of days keeps.
        let _days = self.book.days();
        count
    }

    /// Drops all days but the last so many, and tells how many traces they had. It takes no memory.
    pub fn keep_newest(&mut self, days: u32) -> u32
        ensures kept { self.new ≡ with_book self.old
            (with_fewer self.old.book (newest_days days self.old.book.days)) }
        ensures count { result + length (traces_in self.new) ≡ length (traces_in self.old) }
        ensures book { IsKeptBook self.old }
    {
        let count = self.book.keep_newest(days);
        // Its contract tells what every book of days keeps.
        let _days = self.book.days();
        count
    }
}
