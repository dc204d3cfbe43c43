ghost use Rattle.std.specs.Prelude.{◌≡◌, [], ℕ, List, IfErr, OnOk, Ok};
ghost use Rattle.span_text.specs.Places.{FailsAt};
ghost use Rattle.span_text.specs.declared.placed.Placed.{Placed as APlaced};
ghost use Rattle.span_files.specs.SpansOfForms.{spans_by};
ghost use Rattle.span_files.specs.InputSpans.{IsAppended, place_in, span_of};

use crate::{SpanForm, SpanPlace};
use span_text::{Placed, SpanError};
use span_types::Span;
use std::alloc::{AllocError, Global};

/// The spans of files, in order, and where each stands.
#[derive(Debug, Drop)]
pub struct FileSpans {
    /// The spans.
    pub spans: Vec<Span>,
    /// Where each of them stands, by its index.
    pub places: Vec<SpanPlace>,
}

impl FileSpans {
    /// Starts with no spans.
    pub fn new(alloc: Global) -> FileSpans
        ensures spans { result.spans.items ≡ [] }
        ensures places { result.places.items ≡ [] }
    {
        FileSpans {
            spans: Vec::new(alloc),
            places: Vec::new(alloc),
        }
    }

    /// Appends spans of the file with this index.
    fn append(&mut self, index: u32, file: Vec<Placed>) -> Result<(), AllocError>
        ensures { OnOk result (IsAppended index file.items self.old self.new) }
    {
        self.spans.reserve(file.len())?;
        self.places.reserve(file.len())?;
        'spans: for placed in file {
            let place = placed.place;
            self.spans.push(placed.span)?;
            self.places.push(SpanPlace { file: index, place })?;
        }
        Ok(())
    }

    /// Reads the file with this index in its form, and appends its spans.
    ///
    /// The errors are `Memory`, and `Refused` with the first fault.
    pub fn take_file(
        &mut self,
        alloc: Global,
        form: SpanForm,
        index: u32,
        bytes: &[u8],
    ) -> Result<(), SpanError>
        ensures appended { OnOk result ((more : List APlaced) × (spans_by form bytes.now ≡ Ok more)
            × IsAppended index more self.old self.new) }
        ensures fault { IfErr result (λ error. FailsAt error (spans_by form bytes.now)) }
    {
        let file = form.read(alloc, bytes)?;
        self.append(index, file)?;
        Ok(())
    }
}
