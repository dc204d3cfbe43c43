ghost use Rattle.std.specs.Prelude.{◌≡◌, IfOk};

use crate::short_text::{MOST_SHORT, ShortText};
use std::alloc::{AllocError, Global};
use std::cmp::Ordering;
use std::fmt;
use std::hash::{Hash, Hasher};
use std::marker::Model;

/// A UTF-8 text, seen as its list of bytes and ordered by them. One of at most 30 bytes takes no
/// memory besides its value.
#[derive(Drop)]
pub struct Text {
    held: Held,
}

/// The bytes of a text: in the value, or in memory of their own.
#[derive(Drop)]
enum Held {
    Short(ShortText),
    Long(String),
}

impl Model for Text {
    ghost use Rattle.std.specs.Prelude.{List, ℕ};
    ghost use Rattle.trace_types.specs.inner.Texts.{held_bytes};

    ghost Value = { List ℕ };

    ghost view = { λ a. held_bytes a.held };
}

impl Text {
    /// Copies the text. The only error is out of memory.
    pub fn new(alloc: Global, text: &str) -> Result<Text, AllocError>
        ensures { IfOk result (λ t. t ≡ text.now) }
    {
        let held = if text.len() <= MOST_SHORT {
            Held::Short(ShortText::new(text))
        } else {
            Held::Long(String::from_str(alloc, text)?)
        };
        Ok(Text { held })
    }

    /// Lends the text.
    pub fn as_str(&self) -> &str
        ensures { result.now ≡ self.now }
    {
        match &self.held {
            Held::Short(text) => text.as_str(),
            Held::Long(text) => text.as_str(),
        }
    }

    /// Makes a second text with the same bytes. The only error is out of memory.
    pub fn copy(&self, alloc: Global) -> Result<Text, AllocError>
        ensures { IfOk result (λ t. t ≡ self.now) }
    {
        let held = match &self.held {
            Held::Short(text) => Held::Short(text.copy()),
            Held::Long(text) => Held::Long(String::from_str(alloc, text.as_str())?),
        };
        Ok(Text { held })
    }
}

impl fmt::Debug for Text {
    fn fmt<W: fmt::Write>(&self, f: &mut fmt::Formatter<W>) -> fmt::Result {
        fmt::Debug::fmt(self.as_str(), f)
    }
}

impl PartialEq for Text {
    ghost use Rattle.std.specs.Str.{bytes_eq};
    ghost use Rattle.std.proofs.Common.{rules};
    ghost use Rattle.std.specs.Cmp.Rules.{comparing};

    ghost eq = { bytes_eq };

    ghost laws = { Prim.search (comparing, rules) };

    fn eq(&self, other: &Text) -> bool {
        self.as_str() == other.as_str()
    }
}

impl Eq for Text {
    ghost use Rattle.std.proofs.Common.{rules};
    ghost use Rattle.std.specs.Cmp.Rules.{comparing};

    ghost laws = { Prim.search (comparing, rules) };
}

impl PartialOrd for Text {
    ghost use Rattle.std.proofs.Common.{rules};
    ghost use Rattle.std.specs.Cmp.Rules.{comparing};
    ghost use Rattle.std.specs.Cmp.{partial_order_from_own_ties};
    ghost use Rattle.std.specs.Cmp.Lexicographic.{slice_cmp};
    ghost use Rattle.std.specs.Ordering.{nat_cmp, as_partial_cmp};

    ghost partial_cmp = { as_partial_cmp (slice_cmp nat_cmp) };

    ghost laws = { partial_order_from_own_ties (Prim.search (comparing, rules)) (Prim.search (comparing, rules)) };

    fn partial_cmp(&self, other: &Text) -> Option<Ordering> {
        Some(self.cmp(other))
    }
}

impl Ord for Text {
    ghost use Rattle.std.proofs.Common.{rules};
    ghost use Rattle.std.specs.Cmp.Rules.{comparing};
    ghost use Rattle.std.specs.Cmp.Lexicographic.{slice_cmp};
    ghost use Rattle.std.specs.Ordering.{nat_cmp};

    ghost cmp = { slice_cmp nat_cmp };

    ghost total = { Prim.search (comparing, rules) };

    ghost matches_partial_cmp = { Prim.search (comparing, rules) };

    ghost matches_eq = { Prim.search (comparing, rules) };

    fn cmp(&self, other: &Text) -> Ordering {
        self.as_str().cmp(other.as_str())
    }
}

impl Hash for Text {
    ghost use Rattle.std.specs.Hash as fed;
    ghost use Rattle.std.proofs.Common.{rules};
    ghost use Rattle.std.specs.Cmp.Rules.{hashing};

    ghost hash_input = { fed.str };

    ghost respects_eq = { Prim.search (hashing, rules) };

    fn hash<H: Hasher>(&self, state: &mut H) {
        self.as_str().hash(state);
    }
}
