ghost use Rattle.std.specs.Prelude.{◌≡◌};
ghost use Rattle.word_rows.specs.Changes.{new_view};
ghost use Rattle.word_rule.specs.Histories.{IsOfOneHistory};
ghost use Rattle.word_rule.specs.Holdings.{IsOfTable, together, with_view};
ghost use Rattle.trace_pass.specs.States.{IsOfRecorder, with_pass};

use crate::recorders::Recorder;
use crate::recordings::Recording;
use std::marker::Model;

/// What tells another recording what a recording has done and seen. It has no share and offered
/// nothing itself. Contracts see its table, its view and the pasts that it knows.
#[derive(Drop)]
pub struct Note {
    note: word_rule::Note,
}

impl Model for Note {
    ghost use Rattle.std.specs.Prelude.{◌≡◌, []};
    ghost use Rattle.word_rule.specs.Holdings.{Holding};

    ghost Value = { Holding };

    ghost view = { λ n. n.note };

    ghost invariant = { λ n. n.note.view.done ≡ [] };
}

impl Recorder {
    /// Makes a note that has seen what the recording has done and seen. Takes no memory.
    pub fn note(&self, recording: &mut Recording) -> Note
        requires { IsOfRecorder self.now recording.old }
        ensures same { recording.new ≡ recording.old }
        ensures note { result ≡
            with_view recording.old.pass (new_view 0 recording.old.pass.view) }
    {
        let note = self.table.note(&mut recording.pass);
        Note { note }
    }

    /// Takes in a note: the recording has then seen what the note has. What both knew is of one
    /// history. Takes no memory.
    pub fn meet(&self, recording: &mut Recording, note: Note)
        requires recording { IsOfRecorder self.now recording.old }
        requires note { IsOfTable self.now.table note }
        ensures together { recording.new ≡
            with_pass recording.old (together recording.old.pass note) }
        ensures one { IsOfOneHistory self.now.table.width self.now.table.all
            recording.new.pass.pasts recording.new.pass.view }
    {
        self.table.meet(&mut recording.pass, note.note);
    }
}
