ghost use Rattle.std.specs.Prelude.{◌≡◌, ◌≤◌, length};

use std::marker::Model;

/// The most bytes of a text that lies in its value.
pub(crate) const MOST_SHORT: usize = 30;

/// A UTF-8 text of at most 30 bytes, which lie in the value itself.
#[derive(Drop)]
pub(crate) struct ShortText {
    bytes: [u8; MOST_SHORT],
    len: u8,
}

impl Model for ShortText {
    ghost use Rattle.std.specs.Prelude.{◌≡◌, ◌≤◌, List, ℕ, length, take, IsUtf8};

    ghost Value = { List ℕ };

    ghost view = { λ a. take a.len a.bytes };

    ghost invariant = { λ a. (a.len ≤ 30) × (length a.bytes ≡ 30) × IsUtf8 (take a.len a.bytes) };
}

impl ShortText {
    /// Copies the text.
    pub(crate) fn new(text: &str) -> ShortText
        requires { length text.now ≤ 30 }
        ensures { result ≡ text.now }
    {
        let mut bytes = [0; MOST_SHORT];
        bytes[..text.len()].copy_from_slice(text.as_bytes());
        ShortText {
            bytes,
            len: text.len() as u8,
        }
    }

    /// Makes a second text with the same bytes.
    pub(crate) fn copy(&self) -> ShortText
        ensures { result ≡ self.now }
    {
        ShortText {
            bytes: self.bytes,
            len: self.len,
        }
    }

    /// Lends the text.
    pub(crate) fn as_str(&self) -> &str
        ensures { result.now ≡ self.now }
    {
        // SAFETY: by the invariant, these bytes are UTF-8.
        unsafe { std::str::from_utf8_unchecked(&self.bytes[..usize::from(self.len)]) }
    }
}
