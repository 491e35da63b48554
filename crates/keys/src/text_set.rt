//! Texts, each once.

ghost use Rattle.std.specs.Prelude.{◌≡◌, ◌<◌, ◌^◌, ◌++◌, ◌∷◌, [], None, OnErr, OnOk, Some, false, length, map, slice_get};
ghost use Rattle.std.specs.Option.{ForSome, option_copied};
ghost use Rattle.std.specs.List.{IsDistinct, list_any};
ghost use Rattle.std.specs.Str.{bytes_eq};
ghost use Rattle.arrays.specs.Prelude.{text};

use arrays::NoMemory;
use indexmap::IndexSet;
use std::alloc::Global;
use std::marker::Model;

/// Texts in order of coming, each once.
#[derive(Drop)]
pub struct TextSet {
    alloc: Global,
    texts: IndexSet<String>,
}

impl Model for TextSet {
    ghost use Rattle.std.specs.Prelude.{List, ℕ, map};
    ghost use Rattle.std.specs.Coded.{coded_list, coded_ℕ};
    ghost use Rattle.std.specs.String.{string_bytes};

    ghost Value = { List (List ℕ) };

    ghost coded = { coded_list (coded_list coded_ℕ) };

    ghost view = { λ s. map string_bytes s.texts.keys };
}

impl TextSet {
    /// No texts, which take no memory until the first.
    pub fn new(alloc: Global) -> TextSet
        ensures { result ≡ [] }
    {
        TextSet {
            alloc,
            texts: IndexSet::new(alloc),
        }
    }

    /// How many texts there are. No text comes twice.
    pub fn len(&self) -> usize
        ensures count { result ≡ length self.now }
        ensures small { result < 2 ^ 63 }
        ensures once { IsDistinct bytes_eq self.now }
    {
        self.texts.len()
    }

    /// The text at a place, none past the end.
    pub(crate) fn text_at(&self, place: usize) -> Option<&str>
        ensures { option_copied result ≡ slice_get self.now place }
    {
        match self.texts.get_index(place) {
            Some(text) => Some(text.as_str()),
            None => None,
        }
    }

    /// The place of a text, none where it isn't there.
    pub fn place_of(&self, text: &str) -> Option<usize>
        ensures there { ForSome result (λ n. slice_get self.now n ≡ Some text.now) }
        ensures absent { result ≡ None → list_any (bytes_eq text.now) self.now ≡ false }
    {
        self.texts.get_index_of(text)
    }

    /// Puts a text at the end that isn't there.
    pub fn add_new(&mut self, text: &str) -> Result<(), NoMemory>
        requires { list_any (bytes_eq text.now) self.old ≡ false }
        ensures texts { OnOk result (self.new ≡ self.old ++ text.now ∷ []) }
        ensures err { OnErr result (self.new ≡ self.old) }
    {
        let copy = String::from_str(self.alloc, text)?;
        self.texts.insert_full(copy)?;
        Ok(())
    }
}
