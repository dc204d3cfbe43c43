ghost use Rattle.std.specs.Prelude.{◌≡◌, ◌++◌, ◌↔◌, ◌≤◌, [], length, map, OnOk, IsTrue};
ghost use Rattle.text_rows.specs.Fields.{field_text};
ghost use Rattle.text_rows.specs.Printing.{flush_size};
ghost use Rattle.text_rows.specs.Rows.{row_of};

use crate::Field;
use crate::row_bytes::put_row;
use std::alloc::{AllocError, Global};
use std::marker::Model;

/// Flush the buffer at this size.
pub(crate) const FLUSH_SIZE: usize = 65_536;

/// Bytes of rows that are not written yet, seen as their list.
#[derive(Debug, Drop)]
pub struct RowBuffer {
    bytes: Vec<u8>,
}

impl Model for RowBuffer {
    ghost use Rattle.std.specs.Prelude.{List, ℕ};

    ghost Value = { List ℕ };

    ghost view = { λ a. a.bytes.items };
}

impl RowBuffer {
    /// Makes an empty buffer, without allocating.
    pub fn new(alloc: Global) -> RowBuffer
        ensures { result ≡ [] }
    {
        RowBuffer {
            bytes: Vec::new(alloc),
        }
    }

    /// Returns the bytes that are not written yet.
    pub fn bytes(&self) -> &[u8]
        ensures { result.now ≡ self.now }
    {
        &self.bytes
    }

    /// Tells whether the buffer is to be flushed: it has 65,536 bytes or more.
    pub(crate) fn is_full(&self) -> bool
        ensures { IsTrue result ↔ (flush_size ≤ length self.now) }
    {
        self.bytes.len() >= FLUSH_SIZE
    }

    /// Appends a row. The only error is an allocation failure, after which the buffer may end in
    /// the middle of the row.
    pub(crate) fn push_row(&mut self, fields: &[Field<'_>]) -> Result<(), AllocError>
        ensures { OnOk result (self.new ≡ self.old ++ row_of (map field_text fields.now)) }
    {
        put_row(&mut self.bytes, fields)
    }

    /// Appends a text. The only error is an allocation failure.
    pub(crate) fn push_text(&mut self, text: &[u8]) -> Result<(), AllocError>
        ensures { OnOk result (self.new ≡ self.old ++ text.now) }
    {
        self.bytes.extend_from_slice(text)
    }

    /// Empties the buffer and keeps its memory.
    pub(crate) fn clear(&mut self)
        ensures { self.new ≡ [] }
    {
        self.bytes.clear();
    }
}
