ghost use Rattle.std.specs.Prelude.{◌≡◌, ◌++◌, ◌∷◌, [], if◌then◌else◌, OnOk};

use std::alloc::AllocError;
use std::cmp::Ordering;
use std::marker::Model;

/// A text of a catalogue with its number there, ordered by the text. Contracts see it as the pair.
#[derive(Debug, Drop)]
pub struct Listed<'a, T> {
    /// The text.
    pub text: &'a T,
    /// Its number in the catalogue.
    pub number: u32,
}

impl<'a, T> Model for Listed<'a, T> {
    ghost use Rattle.std.specs.Prelude.{ℕ};

    ghost Value = { T × ℕ };

    ghost view = { λ a. (a.text.now, a.number) };
}

impl<'a, T> Listed<'a, T> {
    ghost use Rattle.std.specs.Prelude.{◌≡◌};

    /// Gives the number.
    pub fn number(&self) -> u32
        ensures { result ≡ self.now.1 }
    {
        self.number
    }
}

/// Appends a text with its number where it is wanted.
pub(crate) fn list_where<'a, T>(
    wanted: bool,
    items: &mut Vec<Listed<'a, T>>,
    text: &'a T,
    number: u32,
) -> Result<(), AllocError>
    ensures { OnOk result (items.new.items ≡ (if wanted
        then items.old.items ++ (text.now, number) ∷ [] else items.old.items)) }
{
    if wanted {
        items.push(Listed { text, number })?;
    }
    Ok(())
}

impl<'a, T: PartialEq> PartialEq for Listed<'a, T> {
    ghost use Rattle.std.specs.Cmp.{on_per};

    ghost eq = { λ a b. T.eq a.0 b.0 };

    ghost laws = { on_per (λ a. a.0) T.laws };

    fn eq(&self, other: &Self) -> bool {
        self.text.eq(other.text)
    }
}

impl<'a, T: Eq> Eq for Listed<'a, T> {
    ghost use Rattle.std.specs.Cmp.{on_equiv};

    ghost laws = { on_equiv (λ a. a.0) T.Eq.laws };
}

impl<'a, T: PartialOrd> PartialOrd for Listed<'a, T> {
    ghost use Rattle.std.specs.Cmp.{on_po};

    ghost partial_cmp = { λ a b. T.partial_cmp a.0 b.0 };

    ghost laws = { on_po (λ a. a.0) T.PartialOrd.laws };

    fn partial_cmp(&self, other: &Self) -> Option<Ordering> {
        self.text.partial_cmp(other.text)
    }
}

impl<'a, T: Ord> Ord for Listed<'a, T> {
    ghost use Rattle.std.specs.Cmp.{on_total};

    ghost cmp = { λ a b. T.cmp a.0 b.0 };

    ghost total = { on_total (λ a. a.0) T.total };

    ghost matches_partial_cmp = { λ a b. T.matches_partial_cmp a.0 b.0 };

    ghost matches_eq = { λ a b. T.matches_eq a.0 b.0 };

    fn cmp(&self, other: &Self) -> Ordering {
        self.text.cmp(other.text)
    }
}
