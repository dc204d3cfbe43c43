ghost use Rattle.std.specs.Prelude.{◌≡◌, ◌<◌, ◌≤◌, ◌++◌, [], false, true, length, take, min};
ghost use Rattle.std.specs.Prelude.{IfOk, OnErr, is_ok, if◌then◌else◌};
ghost use Rattle.mystery_io.specs.Counts.{counted_up, faults_after};
ghost use Rattle.mystery_io.specs.Honest.{AreHonest};
ghost use Rattle.mystery_io.specs.NamedBytes.{bytes_named};
ghost use Rattle.mystery_io.specs.Readings.{after_open, after_read};

use crate::named_files::NamedFiles;
use crate::{Failed, Files, History, MemFile};
use std::marker::Model;

/// Files in memory that never fail: a name that is not there is an empty file. Their state has what
/// they hold as well as what their calls gave.
#[derive(Debug, Drop)]
pub struct SureFiles {
    files: NamedFiles,
    is_open: bool,
    history: History,
    opens: u64,
}

impl Model for SureFiles {
    ghost use Rattle.mystery_io.specs.FilesState.{SureState};
    ghost use Rattle.mystery_io.specs.Histories.{readings_of};
    ghost use Rattle.mystery_io.specs.Honest.{GivesContents};
    ghost use Rattle.mystery_io.specs.NamedBytes.{bytes_named};

    ghost Value = { SureState };

    ghost view = { λ a. record {
      files = a.files.files;
      left = a.files.left;
      is_open = a.is_open;
      given = readings_of a.history;
      opens = a.opens;
    } };

    ghost invariant = { λ a. GivesContents (bytes_named a.files.files) (readings_of a.history)
        a.files.left a.is_open };
}

impl SureFiles {
    /// Holds these files, with none open.
    pub fn new(files: Vec<MemFile>) -> SureFiles
        ensures { result ≡ record {
          files = files.items;
          left = [];
          is_open = false;
          given = [];
          opens = 0;
        } }
    {
        SureFiles {
            files: NamedFiles::new(files),
            is_open: false,
            history: History::Nothing,
            opens: 0,
        }
    }

    /// States that its calls gave what it holds.
    pub fn gives_what_it_holds(&self)
        ensures { AreHonest (bytes_named self.now.files) self.now.given }
    {
        let _ = &self.files;
    }
}

impl Files for SureFiles {
    ghost given = { λ s. s.given };

    ghost is_open = { λ s. s.is_open };

    ghost opens = { λ s. s.opens };

    ghost faults = { λ _. 0 };

    fn open(&mut self, name: &str) -> Result<(), Failed>
        ensures given { self.new.given ≡ after_open self.old.given name.now }
        ensures is_open { self.new.is_open ≡ is_ok result }
        ensures counted { self.new.opens ≡ counted_up self.old.opens }
        ensures tallied { 0 ≡ faults_after result 0 }
        // What is left to read.
        ensures opened { self.new.left ≡ bytes_named self.old.files name.now }
        ensures sure { is_ok result ≡ true }
        ensures same { self.new.files ≡ self.old.files }
    {
        self.history.open(name.as_bytes());
        self.opens = self.opens.saturating_add(1);
        self.files.open(name);
        self.is_open = true;
        Ok(())
    }

    fn read(&mut self, into: &mut [u8]) -> Result<usize, Failed>
        requires { 0 < length into.old }
        ensures within { IfOk result (λ n. n ≤ length into.new) }
        ensures gives { IfOk result (λ n. self.new.given
            ≡ (if self.old.is_open then after_read self.old.given (take n into.new)
            else self.old.given)) }
        ensures stays { OnErr result (self.new.given ≡ self.old.given) }
        ensures is_open { self.new.is_open ≡ self.old.is_open }
        ensures counted { self.new.opens ≡ self.old.opens }
        ensures tallied { 0 ≡ faults_after result 0 }
        // The piece is the next of what is left.
        ensures next { IfOk result (λ n. self.old.left ≡ take n into.new ++ self.new.left) }
        ensures count { IfOk result (λ n. n ≡ min (length self.old.left) (length into.old)) }
        ensures sure { is_ok result ≡ true }
        ensures same { self.new.files ≡ self.old.files }
    {
        let count = self.files.read(into.len(), into);
        if self.is_open {
            self.history.give(&into[..count]);
        }
        Ok(count)
    }
}
