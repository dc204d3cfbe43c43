ghost use Rattle.std.specs.Prelude.{◌≡◌, ◌<◌, ◌≤◌, [], None, length, take, is_some, IfOk, OnErr};
ghost use Rattle.std.specs.Prelude.{if◌then◌else◌};
ghost use Rattle.std.specs.Io.KnownBytes.{Consumes, IsAtEnd, Keeps};
ghost use Rattle.mystery_io.specs.Counts.{faults_after};
ghost use Rattle.mystery_io.specs.Readings.{after_read};

use crate::{Failed, Files, History};
use std::fs;
use std::io::Read;

/// The real files, read through the runtime, with the history of what their calls gave. The clauses
/// of `read` say of the open file what std tells of it too.
#[derive(Drop)]
pub struct RealFiles<'r, R: std::rt::Files> {
    rt: &'r R,
    file: Option<R::File>,
    history: History,
    opens: u64,
    faults: u64,
}

impl<'r, R: std::rt::Files> RealFiles<'r, R> {
    ghost use Rattle.mystery_io.specs.RealObjects.{files_given, open_file, open_calls};
    ghost use Rattle.mystery_io.specs.RealObjects.{file_faults};

    /// Reads through this runtime, with no file open.
    pub fn new(rt: &'r R) -> RealFiles<'r, R>
        ensures closed { open_file result ≡ None }
        ensures empty { files_given result ≡ [] }
        ensures none { (open_calls result ≡ 0) × (file_faults result ≡ 0) }
    {
        RealFiles {
            rt,
            file: None,
            history: History::Nothing,
            opens: 0,
            faults: 0,
        }
    }
}

impl<R: std::rt::Files> Files for RealFiles<'_, R> {
    ghost use Rattle.mystery_io.specs.RealObjects.{bytes_ahead, files_given, open_file, open_calls};
    ghost use Rattle.mystery_io.specs.RealObjects.{file_faults};

    ghost given = { λ s. files_given s };

    ghost is_open = { λ s. is_some (open_file s) };

    ghost opens = { λ s. open_calls s };

    ghost faults = { λ s. file_faults s };

    fn open(&mut self, name: &str) -> Result<(), Failed> {
        self.history.open(name.as_bytes());
        self.opens = self.opens.saturating_add(1);
        match fs::open(self.rt, name) {
            Ok(file) => {
                self.file = Some(file);
                Ok(())
            }
            Err(_) => {
                self.file = None;
                self.faults = self.faults.saturating_add(1);
                Err(Failed)
            }
        }
    }

    fn read(&mut self, into: &mut [u8]) -> Result<usize, Failed>
        requires { 0 < length into.old }
        ensures within { IfOk result (λ n. n ≤ length into.new) }
        ensures gives { IfOk result (λ n. files_given self.new
            ≡ (if is_some (open_file self.old) then after_read (files_given self.old)
            (take n into.new) else files_given self.old)) }
        ensures stays { OnErr result (files_given self.new ≡ files_given self.old) }
        ensures is_open { is_some (open_file self.new) ≡ is_some (open_file self.old) }
        ensures counted { open_calls self.new ≡ open_calls self.old }
        ensures tallied { file_faults self.new ≡ faults_after result (file_faults self.old) }
        // What std tells of the open file.
        ensures consumes { IfOk result (λ n. Consumes
            (bytes_ahead R.File.remaining (open_file self.old))
            (bytes_ahead R.File.remaining (open_file self.new)) (take n into.new)) }
        ensures at_end { IfOk result
            (λ n. n ≡ 0 → IsAtEnd (bytes_ahead R.File.remaining (open_file self.new))) }
        ensures keeps { OnErr result
            (Keeps (bytes_ahead R.File.remaining (open_file self.old))
            (bytes_ahead R.File.remaining (open_file self.new))) }
    {
        let Some(file) = &mut self.file else {
            return Ok(0);
        };
        match file.read(into) {
            Ok(count) => {
                self.history.give(&into[..count]);
                Ok(count)
            }
            Err(_) => {
                self.faults = self.faults.saturating_add(1);
                Err(Failed)
            }
        }
    }
}
