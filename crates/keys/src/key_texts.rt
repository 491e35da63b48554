//! The texts that parts of keys name.

ghost use Rattle.std.specs.Prelude.{◌≡◌, ◌++◌, ◌<◌, ◌≤◌, ◌^◌, IfOk, None, Some, false, length, slice_get};
ghost use Rattle.std.specs.Option.{ForSome, option_copied};
ghost use Rattle.std.specs.List.{IsDistinct, list_any};
ghost use Rattle.std.specs.Str.{bytes_eq};
ghost use Rattle.std.proofs.Props.{props};
ghost use mathlib.Core.List.{IsPrefix};

use crate::text_set::TextSet;
use arrays::NoMemory;
use std::alloc::Global;

/// Texts in order of coming, each once, behind common ones with which others begin too. The common ones take no memory here, and
/// have the same places in all that begin with them.
#[derive(Drop)]
pub(crate) struct KeyTexts<'a> {
    common: &'a TextSet,
    /// How many common ones there are.
    common_len: usize,
    own: TextSet,
    ghost once: { IsDistinct bytes_eq (common.now ++ own) } by { Prim.hlevel props },
    ghost count: { common_len ≡ length common.now },
    ghost few: { (common_len < 2 ^ 63) × (length own ≤ 2 ^ 63) },
}

impl<'a> KeyTexts<'a> {
    ghost use Rattle.keys.specs.Texts.{named_texts};

    /// The common ones alone.
    pub(crate) fn new(alloc: Global, common: &'a TextSet) -> KeyTexts<'a>
        ensures { named_texts result ≡ common.now }
    {
        KeyTexts {
            common,
            common_len: common.len(),
            own: TextSet::new(alloc),
        }
    }

    /// The text at a place, none past the end.
    pub(crate) fn text_at(&self, place: usize) -> Option<&str>
        ensures { option_copied result ≡ slice_get (named_texts self.now) place }
    {
        if place < self.common_len {
            self.common.text_at(place)
        } else {
            self.own.text_at(place - self.common_len)
        }
    }

    /// The place of a text, which is put at the end where it is new. It is likely to be this one.
    pub(crate) fn add_likely(&mut self, text: &str, place: usize) -> Result<usize, NoMemory>
        ensures place { IfOk result (λ n. slice_get (named_texts self.new) n ≡ Some text.now) }
        ensures begins { IsPrefix (named_texts self.old) (named_texts self.new) }
    {
        if self.text_at(place) == Some(text) {
            return Ok(place);
        }
        self.add(text)
    }

    /// The place of a text, which is put at the end where it is new.
    pub(crate) fn add(&mut self, text: &str) -> Result<usize, NoMemory>
        ensures place { IfOk result (λ n. slice_get (named_texts self.new) n ≡ Some text.now) }
        ensures begins { IsPrefix (named_texts self.old) (named_texts self.new) }
    {
        match self.place_of(text) {
            Some(place) => Ok(place),
            None => self.add_new(text),
        }
    }

    /// The place of a text, none where it isn't there.
    fn place_of(&self, text: &str) -> Option<usize>
        ensures there { ForSome result (λ n. slice_get (named_texts self.now) n ≡ Some text.now) }
        ensures absent { result ≡ None → list_any (bytes_eq text.now) (named_texts self.now) ≡ false }
    {
        if let Some(place) = self.common.place_of(text) {
            return Some(place);
        }
        let place = self.own.place_of(text)?;
        Some(self.common_len + place)
    }

    /// Puts a text at the end that isn't there, and tells its place.
    fn add_new(&mut self, text: &str) -> Result<usize, NoMemory>
        requires { list_any (bytes_eq text.now) (named_texts self.old) ≡ false }
        ensures place { IfOk result (λ n. slice_get (named_texts self.new) n ≡ Some text.now) }
        ensures begins { IsPrefix (named_texts self.old) (named_texts self.new) }
    {
        let place = self.common_len + self.own.len();
        self.own.add_new(text)?;
        Ok(place)
    }
}
