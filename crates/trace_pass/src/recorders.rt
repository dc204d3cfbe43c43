ghost use Rattle.std.specs.Prelude.{◌≡◌, ◌<◌, ◌≤◌, IfErr, IfOk, OnOk};
ghost use Rattle.hypothesis_index.specs.Places.{width_of};
ghost use Rattle.refute_tests.specs.Clearing.{HaveNamesBelow};
ghost use Rattle.trace_pass.specs.States.{HasOffered, IsOfRecorder, first_recording};

use crate::recordings::Recording;
use hypothesis_index::width;
use pipeline_tests::whole_row;
use std::alloc::{AllocError, Global};
use std::marker::Model;
use trace_types::NamedTrace;
use word_rule::MeetTable;

/// The table in which recordings record their traces. Contracts see the table and the number below
/// which all names are.
#[derive(Drop)]
pub struct Recorder {
    pub(crate) table: MeetTable,
    pub(crate) names: u32,
    pub(crate) alloc: Global,
}

impl Model for Recorder {
    ghost use Rattle.std.specs.Prelude.{◌≡◌, ◌≤◌};
    ghost use Rattle.hypothesis_index.specs.Places.{width_of};
    ghost use Rattle.trace_pass.specs.States.{RecorderState};

    ghost Value = { RecorderState };

    ghost view = { λ r. record { table = r.table; names = r.names } };

    ghost invariant = { λ r. (r.names ≤ 512) × (r.table.width ≡ width_of r.names) };
}

/// Memory ran out before the trace's first step: it was not offered, and comes back.
#[derive(Debug, Drop)]
pub struct OfferFault {
    pub trace: NamedTrace,
}

impl Recorder {
    /// Opens a recorder for traces whose names are below the number, and a recording with all
    /// shares. The only error is that memory ran out.
    pub fn open(alloc: Global, names: u32, shares: u32) -> Result<(Recorder, Recording), AllocError>
        requires names { names ≤ 512 }
        requires shares { 0 < shares }
        ensures names { IfOk result (λ r. r.0.names ≡ names) }
        ensures width { IfOk result (λ r. r.0.table.width ≡ width_of names) }
        ensures shares { IfOk result (λ r. r.0.table.all ≡ shares) }
        ensures recording { IfOk result (λ r. r.1 ≡ first_recording r.0) }
    {
        let (table, pass) = MeetTable::open(alloc, width(names), shares)?;
        let recorder = Recorder {
            table,
            names,
            alloc,
        };
        let recording = Recording {
            pass,
            traces: Vec::new(alloc),
            names,
        };
        Ok((recorder, recording))
    }

    /// Tells the number of words, to which the places of all names and tasks belong.
    pub fn width(&self) -> u32
        ensures width { result ≡ self.now.table.width }
        ensures names { result ≡ width_of self.now.names }
        ensures few { self.now.names ≤ 512 }
    {
        self.table.width()
    }

    /// Offers the trace, which is then the last of the recording's. The row and the room for the
    /// trace are there before the first step, so nothing fails after it; the only fault is that
    /// memory ran out.
    pub fn offer(&self, recording: &mut Recording, trace: NamedTrace) -> Result<(), OfferFault>
        requires table { IsOfRecorder self.now recording.old }
        requires names { HaveNamesBelow self.now.names trace }
        ensures ok { OnOk result (HasOffered self.now recording.old trace recording.new) }
        ensures fault { IfErr result (λ f. (f.trace ≡ trace) × (recording.new ≡ recording.old)) }
    {
        let Ok(row) = whole_row(self.alloc, &trace) else {
            return Err(OfferFault { trace });
        };
        if recording.traces.reserve(1).is_err() {
            return Err(OfferFault { trace });
        }
        self.table.offer(&mut recording.pass, &row);
        recording.traces.push_reserved(trace);
        Ok(())
    }
}
