ghost use Rattle.std.specs.Prelude.{◌≡◌, None, IfOk, option_map};
ghost use Rattle.std.specs.Option.{ForSome};
ghost use Rattle.std.specs.Arc.{arc_value};
ghost use Rattle.types.specs.Kind as kind;
ghost use Rattle.arrays.specs.Dictionary.{entries_shown, texts_alone};
ghost use Rattle.arrays.specs.Lent.{read_lent};
ghost use Rattle.layout.specs.Reading.{fault, reading};

use crate::array::Array;
use crate::array::parts::Parts;
use crate::lent::LentParts;
use crate::view::{View, ViewType};
use colbits::NoMemory;
use layout::RawArray;
use std::alloc::Global;
use std::marker::Model;
use std::sync::Arc;
use types::OffsetWidth;

/// The texts of a dictionary: a Utf8 array, as a type that holds no other array. Doubles and nulls may
/// stand among them.
#[derive(Drop)]
pub struct Words {
    parts: Arc<Parts>,
}

impl Model for Words {
    ghost use Rattle.std.specs.Prelude.{◌≡◌, None};
    ghost use Rattle.layout.specs.Prelude.{Seen, seen_code};

    ghost Value = { Seen };

    ghost coded = { seen_code };

    ghost use Rattle.arrays.specs.Words.{read_words, show_words};

    ghost view = { show_words };

    ghost invariant = { λ w. (read_words w).fault ≡ None };
}

impl Words {
    /// All texts.
    pub fn view(&self) -> View<'_>
        ensures value { result ≡ self.now }
        ensures texts { result ≡ texts_alone (entries_shown result) }
    {
        let parts = &*self.parts;
        View::whole(
            ViewType::Text(OffsetWidth::Narrow),
            &parts.buffers,
            &[],
            None,
            parts.length,
        )
    }

    /// The parts of the texts, as an array of their own. Nothing is copied.
    pub fn parts(&self) -> LentParts<'_>
        ensures lawful { (read_lent kind.utf8 result).fault ≡ None }
        ensures shows { (read_lent kind.utf8 result).seen ≡ self.now }
    {
        let parts = &*self.parts;
        LentParts {
            length: parts.length,
            buffers: &parts.buffers,
            children: &[],
            words: None,
        }
    }

    /// An array of texts as a dictionary: its parts move, so that no memory is taken and nothing is copied.
    pub fn of(array: Array) -> Words
        requires { array.kind ≡ kind.utf8 }
        ensures { result ≡ array }
    {
        Words {
            parts: array.into_texts(),
        }
    }

    /// The texts of a lawful raw array of texts. No part is copied.
    pub(crate) fn from_raw(alloc: Global, raw: RawArray) -> Result<Words, NoMemory>
        requires lawful { fault raw ≡ None }
        requires texts { (reading raw).kind ≡ kind.utf8 }
        ensures { IfOk result (λ w. w ≡ (reading raw).seen) }
    {
        let RawArray {
            ty,
            length,
            null_count: _,
            buffers,
            children,
            dictionary: _,
        } = raw;
        let parts = Parts {
            ty,
            length,
            buffers,
            children,
        };
        Ok(Words {
            parts: Arc::new(alloc, parts)?,
        })
    }

    /// The texts of a lawful raw dictionary, to be shared by arrays and their copies.
    pub(crate) fn shared(
        alloc: Global,
        dictionary: Option<Box<RawArray>>,
    ) -> Result<Option<Arc<Words>>, NoMemory>
        requires { ForSome dictionary (λ raw. (fault raw.value ≡ None) × ((reading raw.value).kind ≡ kind.utf8)) }
        ensures { IfOk result (λ words.
            option_map arc_value words ≡ option_map (λ raw. (reading raw.value).seen) dictionary) }
    {
        match dictionary {
            Some(raw) => {
                let words = Words::from_raw(alloc, Box::into_inner(raw))?;
                Ok(Some(Arc::new(alloc, words)?))
            }
            None => Ok(None),
        }
    }
}
