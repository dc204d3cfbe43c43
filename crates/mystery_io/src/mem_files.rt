ghost use Rattle.std.specs.Prelude.{◌≡◌, ◌<◌, ◌≤◌, ◌++◌, ◌||◌, [], false, not, length, take, min};
ghost use Rattle.std.specs.Prelude.{IfOk, OnOk, OnErr, is_ok, is_err, is_some, if◌then◌else◌};
ghost use Rattle.mystery_io.specs.Counts.{counted_up, is_planned, faults_after};
ghost use Rattle.mystery_io.specs.Honest.{AreHonest};
ghost use Rattle.mystery_io.specs.NamedBytes.{file_named, bytes_named};
ghost use Rattle.mystery_io.specs.Readings.{after_open, after_read};

use crate::calls::is_planned;
use crate::named_files::NamedFiles;
use crate::{Failed, Files, History, MemFile};
use std::marker::Model;

/// Files in memory that fail as planned. Their state has what they hold as well as what their calls
/// gave.
///
/// The calls of `open` and `read` are numbered from 1. A call fails exactly where its number is
/// among those that fail, or where it opens a name that is not there.
#[derive(Debug, Drop)]
pub struct MemFiles {
    files: NamedFiles,
    most: usize,
    failing: Vec<u32>,
    history: History,
    calls: u64,
    opens: u64,
    faults: u64,
}

impl Model for MemFiles {
    ghost use Rattle.std.specs.Prelude.{◌<◌};
    ghost use Rattle.mystery_io.specs.FilesState.{FilesState};
    ghost use Rattle.mystery_io.specs.Histories.{readings_of};
    ghost use Rattle.mystery_io.specs.Honest.{GivesContents};
    ghost use Rattle.mystery_io.specs.NamedBytes.{bytes_named};

    ghost Value = { FilesState };

    ghost view = { λ a. record {
      files = a.files.files;
      most = a.most;
      failing = a.failing.items;
      left = a.files.left;
      is_open = a.files.is_open;
      given = readings_of a.history;
      calls = a.calls;
      opens = a.opens;
      faults = a.faults;
    } };

    ghost invariant = { λ a. record {
      some : 0 < a.most;
      honest : GivesContents (bytes_named a.files.files) (readings_of a.history) a.files.left
          a.files.is_open;
    } };
}

impl MemFiles {
    /// Holds these files, with none open. A read gives at most `most` bytes, and `failing` has
    /// the numbers of the calls that fail.
    pub fn new(files: Vec<MemFile>, most: usize, failing: Vec<u32>) -> MemFiles
        requires { 0 < most }
        ensures { result ≡ record {
          files = files.items;
          most = most;
          failing = failing.items;
          left = [];
          is_open = false;
          given = [];
          calls = 0;
          opens = 0;
          faults = 0;
        } }
    {
        MemFiles {
            files: NamedFiles::new(files),
            most,
            failing,
            history: History::Nothing,
            calls: 0,
            opens: 0,
            faults: 0,
        }
    }

    /// States that its calls gave what it holds, even where some failed.
    pub fn gives_what_it_holds(&self)
        ensures { AreHonest (bytes_named self.now.files) self.now.given }
    {
        let _ = &self.files;
    }
}

impl Files for MemFiles {
    ghost given = { λ s. s.given };

    ghost is_open = { λ s. s.is_open };

    ghost opens = { λ s. s.opens };

    ghost faults = { λ s. s.faults };

    fn open(&mut self, name: &str) -> Result<(), Failed>
        ensures given { self.new.given ≡ after_open self.old.given name.now }
        ensures is_open { self.new.is_open ≡ is_ok result }
        ensures counted { self.new.opens ≡ counted_up self.old.opens }
        ensures tallied { self.new.faults ≡ faults_after result self.old.faults }
        // What is left to read, and when it fails.
        ensures opened { OnOk result (self.new.left ≡ bytes_named self.old.files name.now) }
        ensures closed { OnErr result (self.new.left ≡ []) }
        ensures fails { is_err result
            ≡ (is_planned self.old.failing (counted_up self.old.calls)
            || not (is_some (file_named self.old.files name.now))) }
        ensures same { self.new ≡ record self.old {
          left = self.new.left;
          is_open = self.new.is_open;
          given = self.new.given;
          calls = counted_up self.old.calls;
          opens = counted_up self.old.opens;
          faults = self.new.faults;
        } }
    {
        self.history.open(name.as_bytes());
        self.calls = self.calls.saturating_add(1);
        self.opens = self.opens.saturating_add(1);
        if is_planned(&self.failing, self.calls) || !self.files.open(name) {
            self.files.close();
            self.faults = self.faults.saturating_add(1);
            return Err(Failed);
        }
        Ok(())
    }

    fn read(&mut self, into: &mut [u8]) -> Result<usize, Failed>
        requires { 0 < length into.old }
        ensures within { IfOk result (λ n. n ≤ length into.new) }
        ensures gives { IfOk result (λ n. self.new.given
            ≡ (if self.old.is_open then after_read self.old.given (take n into.new)
            else self.old.given)) }
        ensures stays { OnErr result (self.new.given ≡ self.old.given) }
        ensures is_open { self.new.is_open ≡ self.old.is_open }
        ensures counted { self.new.opens ≡ self.old.opens }
        ensures tallied { self.new.faults ≡ faults_after result self.old.faults }
        // The piece is the next of what is left, and when it fails.
        ensures next { IfOk result (λ n. self.old.left ≡ take n into.new ++ self.new.left) }
        ensures keeps { OnErr result (self.new.left ≡ self.old.left) }
        ensures fails { is_err result ≡ is_planned self.old.failing (counted_up self.old.calls) }
        ensures count { IfOk result
            (λ n. n ≡ min (min self.old.most (length self.old.left)) (length into.old)) }
        ensures same { self.new ≡ record self.old {
          left = self.new.left;
          given = self.new.given;
          calls = counted_up self.old.calls;
          faults = self.new.faults;
        } }
    {
        self.calls = self.calls.saturating_add(1);
        if is_planned(&self.failing, self.calls) {
            self.faults = self.faults.saturating_add(1);
            return Err(Failed);
        }
        let count = self.files.read(self.most, into);
        if self.files.is_open() {
            self.history.give(&into[..count]);
        }
        Ok(count)
    }
}
