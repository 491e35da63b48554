ghost use Rattle.std.specs.Prelude.{◌≡◌, length, true, Some, IfOk, IfErr, None, is_some, ◌==◌, ◌⊎◌};
ghost use Rattle.std.specs.List.{All};
ghost use mathlib.Core.List.{IsPrefix};
ghost use Rattle.std.specs.Arc.{arc_value};
ghost use Rattle.arrays.specs.Dictionary.{encoded, is_code, over};
ghost use Rattle.types.specs.Kind as kind;
ghost use Rattle.types.specs.Kind.{int32, kind_of};
ghost use Rattle.layout.specs.Reading.{fault, reading};
ghost use Rattle.arrays.specs.Array.{words_with};
ghost use Rattle.arrays.specs.Lent.{read_lent};
ghost use Rattle.arrays.specs.Parts.{read_alone};
ghost use Rattle.arrays.specs.Words.{read_texts};

mod encoding;
mod from_parts;
mod list_parts;
mod nulls;
pub(crate) mod parts;
mod values;

use crate::array::encoding::Encoding;
use crate::array::parts::Parts;
use crate::lent::LentParts;
use crate::view::{View, ViewType};
use crate::words::Words;
use colbits::NoMemory;
use layout::{LayoutFault, RawArray, first_fault, release};
use std::alloc::Global;
use std::marker::Model;
use std::sync::Arc;
use types::DataType;

/// A lawful Arrow array: its parts were checked, and cannot change. Copies share them.
///
/// Clauses see what it shows: its kind, the validity of its slots, and an item for each slot.
#[derive(Drop)]
pub struct Array {
    parts: Arc<Parts>,
    /// Of a dictionary-encoded array, whose parts are its codes.
    encoding: Option<Encoding>,
}

impl Model for Array {
    ghost use Rattle.std.specs.Prelude.{◌≡◌, None};
    ghost use Rattle.layout.specs.Prelude.{Seen, seen_code};

    ghost Value = { Seen };

    ghost coded = { seen_code };

    ghost use Rattle.arrays.specs.Array.{read_array, show_array};

    ghost view = { show_array };

    ghost invariant = { λ a. (read_array a).fault ≡ None };
}

/// Checks the parts of an array once, and keeps them: from then on nothing of them is checked again.
///
/// The first fault is reported, in the order of the faults' table, and the parts are gone then. Want of
/// memory comes only where no fault stands.
pub fn validate(alloc: Global, raw: RawArray) -> Result<Array, LayoutFault>
    ensures ok { IfOk result (λ a. (fault raw ≡ None) × (a ≡ (reading raw).seen)) }
    ensures err { IfErr result (λ e. (fault raw ≡ Some e) ⊎ ((e ≡ LayoutFault.NoMemory) × (fault raw ≡ None))) }
{
    match first_fault(&raw) {
        Some(fault) => {
            release(raw);
            Err(fault)
        }
        None => Array::from_lawful(alloc, raw).map_err(|_| LayoutFault::NoMemory),
    }
}

impl Array {
    /// The array of lawful parts.
    fn from_lawful(alloc: Global, raw: RawArray) -> Result<Array, NoMemory>
        requires { fault raw ≡ None }
        ensures { IfOk result (λ a. a ≡ (reading raw).seen) }
    {
        let RawArray {
            ty,
            length,
            null_count: _,
            buffers,
            children,
            dictionary,
        } = raw;
        let parts = Parts {
            ty,
            length,
            buffers,
            children,
        };
        match Words::shared(alloc, dictionary)? {
            Some(words) => Array::encoded(alloc, parts, words),
            None => Array::plain(alloc, parts),
        }
    }

    /// The array of lawful parts without a dictionary.
    fn plain(alloc: Global, parts: Parts) -> Result<Array, NoMemory>
        requires { (read_alone (kind_of parts.ty) parts None).fault ≡ None }
        ensures { IfOk result (λ a. a ≡ (read_alone (kind_of parts.ty) parts None).seen) }
    {
        Ok(Array {
            parts: Arc::new(alloc, parts)?,
            encoding: None,
        })
    }

    /// The array of lawful parts with a dictionary.
    fn encoded(alloc: Global, parts: Parts, words: Arc<Words>) -> Result<Array, NoMemory>
        requires { (read_alone kind.dict parts (Some (arc_value words))).fault ≡ None }
        ensures { IfOk result (λ a. a ≡ (read_alone kind.dict parts (Some (arc_value words))).seen) }
    {
        Ok(Array {
            parts: Arc::new(alloc, parts)?,
            encoding: Some(Encoding::of(words)),
        })
    }

    /// How many slots there are.
    pub fn len(&self) -> usize
        ensures { result ≡ length self.now.items }
    {
        self.parts.length as usize
    }

    /// Whether there is no slot.
    pub fn is_empty(&self) -> bool
        ensures { result ≡ (length self.now.items == 0) }
    {
        self.len() == 0
    }

    /// The type of the array.
    pub fn ty(&self) -> &DataType
        ensures { kind_of result.now ≡ self.now.kind }
    {
        match &self.encoding {
            Some(encoding) => &encoding.ty,
            None => &self.parts.ty,
        }
    }

    /// All slots of the array.
    pub fn view(&self) -> View<'_>
        ensures { result ≡ self.now }
    {
        let parts = &*self.parts;
        match &self.encoding {
            Some(encoding) => View::whole(
                ViewType::Dict,
                &parts.buffers,
                &parts.children,
                Some(&encoding.words),
                parts.length,
            ),
            None => View::whole(
                ViewType::of(&parts.ty),
                &parts.buffers,
                &parts.children,
                None,
                parts.length,
            ),
        }
    }

    /// The parts of the array, as Arrow lays them out. Nothing is copied.
    pub fn parts(&self) -> LentParts<'_>
        ensures lawful { (read_lent self.now.kind result).fault ≡ None }
        ensures shows { (read_lent self.now.kind result).seen ≡ self.now }
    {
        match &self.encoding {
            Some(encoding) => LentParts::of(&self.parts, Some(&encoding.words)),
            None => LentParts::of(&self.parts, None),
        }
    }

    /// An array of codes and their dictionary, which may be shared: 32-bit numbers, each of them null or
    /// the index of an entry. No memory is taken, and nothing is copied or checked.
    ///
    /// Codes `[1, null, 0]` over the entries `["a", "b"]` show `["b", null, "a"]`.
    pub fn dict(codes: Array, dictionary: Arc<Words>) -> Array
        requires numbers { codes.kind ≡ kind.int int32 }
        requires codes { All (λ c. is_code (length (arc_value dictionary).items) c ≡ true) codes.items }
        ensures { result ≡ encoded codes (arc_value dictionary) }
    {
        let Array { parts, encoding: _ } = codes;
        Array {
            parts,
            encoding: Some(Encoding::of(dictionary)),
        }
    }

    /// The same column over a longer dictionary, which begins with the texts of its own and may be shared. The codes are
    /// shared, and nothing is checked. `NoMemory` only where sharing is refused.
    ///
    /// Codes `[1, null, 0]` over `["a", "b"]` are `["b", null, "a"]` over `["a", "b", "c"]` too.
    pub fn with_dictionary(&self, dictionary: Arc<Words>) -> Result<Array, NoMemory>
        requires kind { self.now.kind ≡ kind.dict }
        requires begun { IsPrefix self.now.entries.items (arc_value dictionary).items }
        ensures { IfOk result (λ a. a ≡ over self.now (arc_value dictionary)) }
    {
        let encoding = Encoding::of(dictionary);
        Ok(Array {
            parts: self.parts.clone()?,
            encoding: Some(encoding),
        })
    }

    /// The parts of an array of texts.
    pub(crate) fn into_texts(self) -> Arc<Parts>
        requires { self.kind ≡ kind.utf8 }
        ensures lawful { (read_texts (arc_value result)).fault ≡ None }
        ensures shows { (read_texts (arc_value result)).seen ≡ self }
    {
        let Array { parts, encoding: _ } = self;
        parts
    }

    /// The same array: its parts are shared. `NoMemory` only where that is refused.
    pub fn copy(&self, _alloc: Global) -> Result<Array, NoMemory>
        ensures { IfOk result (λ a. a ≡ self.now) }
    {
        Ok(Array {
            parts: self.parts.clone()?,
            encoding: shared(&self.encoding)?,
        })
    }
}

/// The same dictionary once more: its texts are shared.
fn shared(encoding: &Option<Encoding>) -> Result<Option<Encoding>, NoMemory>
    ensures kind { IfOk result (λ e. is_some e ≡ is_some encoding.now) }
    ensures words { IfOk result (λ e. words_with e ≡ words_with encoding.now) }
{
    match encoding {
        Some(encoding) => Ok(Some(Encoding::of(encoding.words.clone()?))),
        None => Ok(None),
    }
}
