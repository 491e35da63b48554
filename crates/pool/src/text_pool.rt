ghost use Rattle.std.specs.Prelude.{◌≡◌, ◌<◌, ◌≤◌, ◌==◌, ◌++◌, ◌∷◌, false, IfSome, [], length, map, take, true, slice_get, sum_by, Some, IfOk, IfErr, OnOk, OnErr, option_copied};
ghost use Rattle.std.specs.String.{string_bytes};
ghost use Rattle.arrays.specs.Item as item;
ghost use Rattle.arrays.specs.Kind as kind;
ghost use Rattle.arrays.specs.Prelude.{most_slots, shown};
ghost use Rattle.pool.specs.Front.{IsFront};
ghost use Rattle.pool.specs.Texts.{IsPoolFault, is_among, is_once, is_too_full, place_of, with_text};
ghost use Rattle.arrays.specs.OffsetWidths as OffsetWidth;

use crate::fault::PoolFault;
use arrays::{Array, BuildFault, MOST_SLOTS, NoMemory, OffsetWidth, TextBuilder, Words};
use indexmap::IndexSet;
use std::alloc::Global;
use std::marker::Model;

/// Texts in order of coming, each once.
#[derive(Drop)]
pub struct TextPool {
    alloc: Global,
    texts: IndexSet<String>,
    /// How many bytes the texts have together.
    bytes: usize,
}

impl Model for TextPool {
    ghost use Rattle.std.specs.Prelude.{List, ℕ};
    ghost use Rattle.std.specs.Coded.{coded_list, coded_ℕ};

    ghost Value = { List (List ℕ) };

    ghost coded = { coded_list (coded_list coded_ℕ) };

    ghost use Rattle.pool.specs.Pool.{show_pool, IsPool};

    ghost view = { show_pool };

    ghost invariant = { λ p. IsPool (show_pool p) p.bytes };
}

impl TextPool {
    /// A pool of no texts, which takes no memory until the first.
    pub fn new(alloc: Global) -> TextPool
        ensures { result ≡ [] }
    {
        TextPool {
            alloc,
            texts: IndexSet::new(alloc),
            bytes: 0,
        }
    }

    /// How many texts there are. No text comes twice, and all fit a column.
    pub fn len(&self) -> usize
        ensures count { result ≡ length self.now }
        ensures once { is_once self.now ≡ true }
        ensures fits { is_too_full self.now ≡ false }
    {
        self.texts.len()
    }

    /// Whether there is no text.
    pub fn is_empty(&self) -> bool
        ensures { result ≡ (length self.now == 0) }
    {
        self.len() == 0
    }

    /// The place of a text, none where it isn't in the pool.
    pub fn code_of(&self, text: &str) -> Option<u32>
        ensures place { result ≡ place_of self.now text.now }
        ensures small { IfSome result (λ code. code < most_slots) }
    {
        match self.texts.get_index_of(text) {
            Some(place) => Some(place as u32),
            None => None,
        }
    }

    /// The text at a place, none past the end.
    pub fn text_of(&self, code: u32) -> Option<&str>
        ensures { option_copied result ≡ slice_get self.now code }
    {
        match self.texts.get_index(code as usize) {
            Some(text) => Some(text.as_str()),
            None => None,
        }
    }

    /// Takes back all texts but the first `len`.
    pub fn cut_back(&mut self, len: usize)
        requires { len ≤ length self.old }
        ensures { self.new ≡ take len self.old }
    {
        let cut = byte_count(&self.texts.as_slice()[len..]);
        self.texts.truncate(len);
        self.bytes -= cut;
    }

    /// The texts as a column, in their order.
    pub fn to_array(&self, alloc: Global) -> Result<Array, NoMemory>
        ensures { IfOk result (λ d. d ≡ shown kind.utf8 (map item.text self.now)) }
    {
        self.completed(self.column(alloc)?, 0)
    }

    /// The texts as a column, in their order, of which the first stand in a dictionary: these are copied from there at once.
    pub fn to_array_after(&self, alloc: Global, words: &Words) -> Result<Array, NoMemory>
        requires { IsFront self.now words.now }
        ensures { IfOk result (λ d. d ≡ shown kind.utf8 (map item.text self.now)) }
    {
        let front = words.view();
        match self
            .column(alloc)?
            .extended(&front.texts(OffsetWidth::Narrow))
        {
            Ok(texts) => self.completed(texts, front.len()),
            Err(BuildFault::NoMemory) => Err(NoMemory),
            // The texts of a pool fit a column, so the first of them do.
            Err(BuildFault::OffsetsFull) => unreachable!(),
        }
    }

    /// A column without a text yet, with room for all.
    fn column(&self, alloc: Global) -> Result<TextBuilder, NoMemory>
        ensures width { IfOk result (λ b. b.width ≡ OffsetWidth.Narrow) }
        ensures empty { IfOk result (λ b. b.items ≡ []) }
        ensures fits { is_too_full self.now ≡ false }
    {
        TextBuilder::with_capacity(alloc, OffsetWidth::Narrow, self.len(), self.byte_len())
    }

    /// The column of the first texts with the others at its end.
    fn completed(&self, column: TextBuilder, first: usize) -> Result<Array, NoMemory>
        requires width { column.width ≡ OffsetWidth.Narrow }
        requires items { column.items ≡ map item.text (take first self.now) }
        requires within { first ≤ length self.now }
        ensures { IfOk result (λ d. d ≡ shown kind.utf8 (map item.text self.now)) }
    {
        let mut texts = column;
        for code in first..self.len() {
            match texts.push(self.text_of(code as u32)) {
                Ok(()) => {}
                Err(BuildFault::NoMemory) => return Err(NoMemory),
                // The texts of a pool fit a column.
                Err(BuildFault::OffsetsFull) => unreachable!(),
            }
        }
        texts.finish()
    }

    /// How many bytes the texts have together.
    fn byte_len(&self) -> usize {
        self.bytes
    }

    /// The place of a text, which is put at the end where it is new. The pool stays where it can't have it.
    pub(crate) fn add(&mut self, text: &str) -> Result<u32, PoolFault>
        requires { is_too_full self.old ≡ false }
        ensures texts { OnOk result (self.new ≡ with_text self.old text.now) }
        ensures place { IfOk result (λ code. place_of self.new text.now ≡ Some code) }
        ensures small { IfOk result (λ code. code < most_slots) }
        ensures fits { is_too_full self.new ≡ false }
        ensures err { OnErr result (self.new ≡ self.old) }
        ensures fault { IfErr result (IsPoolFault (is_too_full (with_text self.old text.now))) }
    {
        match self.code_of(text) {
            Some(code) => Ok(code),
            None => self.add_new(text),
        }
    }

    /// The place of a text that isn't in the pool, which is put at the end.
    fn add_new(&mut self, text: &str) -> Result<u32, PoolFault>
        requires { is_among self.old text.now ≡ false }
        ensures texts { OnOk result (self.new ≡ self.old ++ text.now ∷ []) }
        ensures place { IfOk result (λ code. code ≡ length self.old) }
        ensures small { IfOk result (λ code. code < most_slots) }
        ensures fits { is_too_full self.new ≡ false }
        ensures err { OnErr result (self.new ≡ self.old) }
        ensures fault { IfErr result (IsPoolFault (is_too_full (self.old ++ text.now ∷ []))) }
    {
        let code = self.len();
        if code >= MOST_SLOTS || text.len() > MOST_SLOTS - self.bytes {
            return Err(PoolFault::TextsFull);
        }
        let copy = String::from_str(self.alloc, text)?;
        self.texts.insert(copy)?;
        self.bytes += text.len();
        Ok(code as u32)
    }
}

/// How many bytes texts have together.
fn byte_count(texts: &[String]) -> usize
    requires { sum_by (λ t. length (string_bytes t)) texts.now ≤ most_slots }
    ensures { result ≡ sum_by (λ t. length (string_bytes t)) texts.now }
{
    texts.iter().map(|t| t.len()).sum()
}
