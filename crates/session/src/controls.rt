ghost use Rattle.std.specs.Prelude.{◌≡◌, ◌+◌, ◌≤◌, length};
ghost use Rattle.day_partitions.specs.Books as books;
ghost use Rattle.day_partitions.specs.Books.{IsBook, traces_kept_on, with_fewer};
ghost use Rattle.event_lines.specs.declared.command.Command.TheVariants as commands;
ghost use Rattle.session_rules.specs.Parts.{count_row};
ghost use Rattle.session_rules.specs.declared.job.Job.TheVariants as jobs;
ghost use Rattle.session.specs.Carrying.{kept_count};
ghost use Rattle.session_rules.specs.ReadyJobs.{most_micros};
ghost use Rattle.session.specs.inner.Changes.{session_with_book, session_with_grace};
ghost use Rattle.session.specs.inner.Changes.{session_with_watch};
ghost use Rattle.session.specs.inner.Steps.{PrintsSteps};
ghost use Rattle.text_rows.specs.Printing.{PrintsText, print_faults};

use crate::Session;
use book_laws::laws::{drop_shows, newest_show};
use mystery_io::Sink;
use session_rules::SessionPart;
use text_rows::laws::part_calls_follow;
use text_rows::{Field, PrintFault, RowBuffer, print_row};

/// Prints a row of a word and two numbers.
fn print_count<S: Sink>(
    sink: &mut S,
    buffer: &mut RowBuffer,
    word: &str,
    number: u32,
    count: u32,
) -> Result<(), PrintFault>
    ensures { PrintsText S.written S.faults result sink.old sink.new buffer.old buffer.new
        (count_row word.now number count) }
{
    print_row(
        sink,
        buffer,
        &[
            Field::Word(word),
            Field::Number(u128::from(number)),
            Field::Number(u128::from(count)),
        ],
    )
}

impl Session {
    /// Drops a day from the book, and returns how many traces it had.
    fn drop_from_book(&mut self, day: u32) -> u32
        ensures dropped { self.new ≡ session_with_book self.old
            (with_fewer self.old.book (books.days_without day self.old.book.days)) }
        ensures count { result ≡ length (traces_kept_on self.old.book.days day) }
        ensures book { IsBook self.old.book }
    {
        self.book.drop_day(day)
    }

    /// Drops all days but the last so many from the book, and returns how many traces they had.
    fn keep_in_book(&mut self, days: u32) -> u32
        ensures kept { self.new ≡ session_with_book self.old
            (with_fewer self.old.book (books.newest_days days self.old.book.days)) }
        ensures count { result + kept_count self.new ≡ kept_count self.old }
        ensures book { IsBook self.old.book }
    {
        self.book.keep_newest(days)
    }

    /// Sets after how many of a worker's traces a watch line of later adds is printed.
    pub(crate) fn set_watch(&mut self, every: u32)
        ensures { self.new ≡ session_with_watch self.old every }
    {
        self.watch = every;
    }

    /// Sets the grace of later adds, in microseconds.
    pub(crate) fn set_grace(&mut self, micros: u32)
        requires { micros ≤ most_micros }
        ensures { self.new ≡ session_with_grace self.old micros }
    {
        self.grace = micros;
    }

    /// Drops a day with all its traces, and prints how many there were.
    pub(crate) fn drop_day<S: Sink>(
        &mut self,
        day: u32,
        sink: &mut S,
        buffer: &mut RowBuffer,
    ) -> Result<(), PrintFault>
        ensures stepped { PrintsSteps S.written S.faults result sink.old sink.new
            (jobs.Control (commands.Drop day)) self.old self.new buffer.old buffer.new }
        ensures workers { self.new.workers ≡ self.old.workers }
        ensures kept { kept_count self.new ≤ kept_count self.old }
        ensures counted { S.faults sink.new ≡ print_faults result (S.faults sink.old) }
    {
        // For the proof alone.
        drop_shows();
        part_calls_follow::<S, SessionPart>();
        let count = self.drop_from_book(day);
        print_count(sink, buffer, "drop", day, count)
    }

    /// Drops all days but the last so many, and prints how many traces they had.
    pub(crate) fn keep_newest<S: Sink>(
        &mut self,
        days: u32,
        sink: &mut S,
        buffer: &mut RowBuffer,
    ) -> Result<(), PrintFault>
        ensures stepped { PrintsSteps S.written S.faults result sink.old sink.new
            (jobs.Control (commands.Keep days)) self.old self.new buffer.old buffer.new }
        ensures workers { self.new.workers ≡ self.old.workers }
        ensures kept { kept_count self.new ≤ kept_count self.old }
        ensures counted { S.faults sink.new ≡ print_faults result (S.faults sink.old) }
    {
        // For the proof alone.
        newest_show();
        part_calls_follow::<S, SessionPart>();
        let count = self.keep_in_book(days);
        print_count(sink, buffer, "keep", days, count)
    }
}
