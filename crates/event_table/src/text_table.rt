ghost use Rattle.std.specs.Prelude.{◌≡◌, ◌↔◌, ◌+◌, ◌^◌, ◌<◌, ◌≤◌, ◌++◌, ◌∷◌, [], ℕ, List, length};
ghost use Rattle.std.specs.Prelude.{None, Some, slice_get, IfNone, IfOk, IfSome, OnErr, OnOk};
ghost use Rattle.std.specs.BTreeMap.{get};
ghost use Rattle.event_table.specs.Texts.{AreDifferent};
ghost use Rattle.event_table.specs.inner.Growth.{GrowsBy, with_text};
ghost use Rattle.event_table.specs.inner.TextNumbers.{IsNumbering, key_cmp, key_of, number_in};

use crate::hints::{HintKey, Hints, hint_key};
use crate::text_keys::text_key;
use std::alloc::{AllocError, Global};
use std::collections::BTreeMap;
use std::marker::Model;
use trace_types::Text;

/// Different texts, numbered from 0 in the order of first sight, seen as their list.
#[derive(Drop)]
pub struct TextTable {
    texts: Vec<Text>,
    numbers: BTreeMap<(u64, Text), u32>,
}

impl Model for TextTable {
    ghost use Rattle.std.specs.Prelude.{List, ℕ};
    ghost use Rattle.event_table.specs.inner.TextNumbers.{IsNumbering};

    ghost Value = { List (List ℕ) };

    ghost view = { λ t. t.texts.items };

    ghost invariant = { λ t. IsNumbering t.texts.items t.numbers };
}

/// Finds the number of the text with this key.
fn find_number(numbers: &BTreeMap<(u64, Text), u32>, key: &(u64, Text)) -> Option<u32>
    ensures absent { IfNone result (get key_cmp numbers.now key.now ≡ None) }
    ensures found { IfSome result (λ n. get key_cmp numbers.now key.now ≡ Some n) }
{
    numbers.get(key).copied()
}

/// Appends a text that is new, and gives its number. The only error is out of memory.
fn append_text(
    alloc: Global,
    texts: &mut Vec<Text>,
    numbers: &mut BTreeMap<(u64, Text), u32>,
    key: (u64, Text),
) -> Result<u32, AllocError>
    requires few { length texts.old.items < 2 ^ 32 }
    requires key { key ≡ key_of key.1 }
    requires numbered { IsNumbering texts.old.items numbers.old }
    requires new { number_in numbers.old key.1 ≡ None }
    ensures texts { OnOk result (texts.new.items ≡ texts.old.items ++ key.1 ∷ []) }
    ensures number { IfOk result (λ n. n ≡ length texts.old.items) }
    ensures numbered { IsNumbering texts.new.items numbers.new }
    ensures error { OnErr result (texts.new.items ≡ texts.old.items) }
{
    let number = texts.len() as u32;
    let text = key.1.copy(alloc)?;
    texts.reserve(1)?;
    numbers.insert(key, number)?;
    texts.push_reserved(text);
    Ok(number)
}

impl TextTable {
    /// Makes an empty table. Takes no memory.
    pub(crate) fn new(alloc: Global) -> TextTable
        ensures { result ≡ [] }
    {
        TextTable {
            texts: Vec::new(alloc),
            numbers: BTreeMap::new(alloc),
        }
    }

    /// Counts the texts.
    pub fn len(&self) -> usize
        ensures { result ≡ length self.now }
    {
        self.texts.len()
    }

    /// In a table, two numbers are one exactly where their texts are one. Does nothing.
    pub fn tell_texts_apart(&self)
        ensures numbers { (i j : ℕ) (x y : List ℕ) → slice_get self.now i ≡ Some x
            → slice_get self.now j ≡ Some y → (i ≡ j) ↔ (x ≡ y) }
        ensures differ { AreDifferent self.now }
    {
        // For the proof alone.
        let _texts = &self.texts;
    }

    /// Lends the text with this number.
    pub fn text(&self, number: u32) -> &Text
        requires { number < length self.now }
        ensures { slice_get self.now number ≡ Some result.now }
    {
        &self.texts[number as usize]
    }

    /// Looks for a text where a hint points to.
    fn find_by_hint(&self, hints: &Hints, key: &HintKey, text: &str) -> Option<u32>
        ensures { IfSome result (λ n. slice_get self.now n ≡ Some text.now) }
    {
        let number = hints.number(key)?;
        if (number as usize) < self.len() && self.text(number).as_str() == text {
            return Some(number);
        }
        None
    }

    /// Gives the texts, in order.
    pub(crate) fn into_texts(self) -> Vec<Text>
        ensures { result.items ≡ self }
    {
        self.texts
    }

    /// Gives the number of a text, which is appended if it is new, by a look at the map. The only
    /// error is out of memory.
    pub(crate) fn insert(&mut self, alloc: Global, text: Text) -> Result<u32, AllocError>
        requires { length self.old < 2 ^ 32 }
        ensures texts { OnOk result (self.new ≡ with_text self.old text) }
        ensures number { IfOk result (λ n. slice_get self.new n ≡ Some text) }
        ensures grown { GrowsBy 1 self.old self.new }
        ensures error { OnErr result (self.new ≡ self.old) }
    {
        let key = text_key(text);
        if let Some(number) = find_number(&self.numbers, &key) {
            return Ok(number);
        }
        append_text(alloc, &mut self.texts, &mut self.numbers, key)
    }

    /// Gives the number of a text, which is appended if it is new. The hints say where to look for
    /// it first. The only error is out of memory.
    pub(crate) fn find_or_add(
        &mut self,
        alloc: Global,
        hints: &mut Hints,
        text: &str,
    ) -> Result<u32, AllocError>
        requires { length self.old < 2 ^ 32 }
        ensures texts { OnOk result (self.new ≡ with_text self.old text.now) }
        ensures number { IfOk result (λ n. slice_get self.new n ≡ Some text.now) }
        ensures grown { GrowsBy 1 self.old self.new }
        ensures error { OnErr result (self.new ≡ self.old) }
    {
        let key = hint_key(text);
        if let Some(number) = self.find_by_hint(hints, &key, text) {
            return Ok(number);
        }
        let number = self.insert(alloc, Text::new(alloc, text)?)?;
        hints.set(&key, number);
        Ok(number)
    }
}
