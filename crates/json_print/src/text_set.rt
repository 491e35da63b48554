//! The texts of a dictionary, each once.

ghost use Rattle.std.specs.Prelude.{◌≡◌, ◌++◌, ◌∷◌, [], OnOk, false, map, position, string_bytes};
ghost use Rattle.std.specs.Str.{bytes_eq};
ghost use Rattle.pool.specs.Texts.{is_among, with_text};

use arrays::NoMemory;
use indexmap::IndexSet;
use std::alloc::Global;
use std::marker::Model;

/// Texts in order of coming, each once: there may be more of them, and they may be longer together, than a column of
/// texts holds.
#[derive(Drop)]
pub(crate) struct TextSet {
    texts: IndexSet<String>,
}

impl Model for TextSet {
    ghost use Rattle.std.specs.Prelude.{List, ℕ, map};
    ghost use Rattle.std.specs.Coded.{coded_list, coded_ℕ};
    ghost use Rattle.std.specs.String.{string_bytes};

    ghost Value = { List (List ℕ) };

    ghost coded = { coded_list (coded_list coded_ℕ) };

    ghost view = { λ s. map string_bytes s.texts.keys };
}

impl TextSet {
    /// No texts, which take no memory until the first.
    pub(crate) fn new(alloc: Global) -> TextSet
        ensures { result ≡ [] }
    {
        TextSet {
            texts: IndexSet::new(alloc),
        }
    }

    /// The place of a text, none where it isn't in the set.
    pub(crate) fn place_of(&self, text: &str) -> Option<usize>
        ensures { result ≡ position (bytes_eq text.now) self.now }
    {
        self.texts.get_index_of(text)
    }

    /// The texts.
    pub(crate) fn texts(&self) -> &[String]
        ensures { map string_bytes result.now ≡ self.now }
    {
        self.texts.as_slice()
    }

    /// Puts a text at the end, unless it is in the set.
    pub(crate) fn add(&mut self, alloc: Global, text: &str) -> Result<(), NoMemory>
        ensures { OnOk result (self.new ≡ with_text self.old text.now) }
    {
        match self.place_of(text) {
            Some(_) => Ok(()),
            None => self.add_new(alloc, text),
        }
    }

    /// Puts a text at the end that isn't in the set.
    fn add_new(&mut self, alloc: Global, text: &str) -> Result<(), NoMemory>
        requires { is_among self.old text.now ≡ false }
        ensures { OnOk result (self.new ≡ self.old ++ text.now ∷ []) }
    {
        let copy = String::from_str(alloc, text)?;
        self.texts.insert(copy)?;
        Ok(())
    }
}
