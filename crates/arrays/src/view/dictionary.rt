//! A dictionary-encoded view: its codes, and the dictionary that they name.

ghost use Rattle.std.specs.Prelude.{◌≡◌, ◌<◌, Some, All, true, length, slice_get, option_map, pos, IfSome};
ghost use Rattle.std.specs.Arc.{arc_value};
ghost use Rattle.arrays.specs.Slot.{item_of};
ghost use Rattle.arrays.specs.Dictionary.{codes_of, dictionary_of, encoded, entries_shown, is_code, looked_up};
ghost use Rattle.types.specs.Kind as kind;

use crate::view::{View, ViewType};
use crate::words::Words;
use std::sync::Arc;
use types::{INT32, natural_at};

impl<'a> View<'a> {
    /// The codes of a dictionary-encoded view: numbers of 32 bits, null where the slot isn't valid.
    pub fn codes(&self) -> View<'a>
        requires { self.now.kind ≡ kind.dict }
        ensures value { result ≡ codes_of self.now }

        // Each item is that of the dictionary at its code, and each code names one.
        ensures items { self.now ≡ encoded (codes_of self.now) (dictionary_of self.now) }
        ensures within { All (λ c. is_code (length self.now.entries.items) c ≡ true) self.now.codes }
    {
        View {
            ty: ViewType::Int(INT32),
            buffers: self.buffers,
            children: self.children,
            words: None,
            total: self.total,
            start: self.start,
            len: self.len,
        }
    }

    /// The dictionary of a dictionary-encoded view, to be shared: it is the whole one, also of a slice.
    pub fn dictionary(&self) -> &'a Arc<Words>
        requires { self.now.kind ≡ kind.dict }
        ensures { entries_shown (arc_value result.now) ≡ self.now.entries }
    {
        self.words.unwrap()
    }

    /// All entries of the dictionary of a dictionary-encoded view.
    pub fn entries(&self) -> View<'a>
        requires { self.now.kind ≡ kind.dict }
        ensures { result ≡ dictionary_of self.now }
    {
        self.dictionary().view()
    }

    /// The entry that slot `i` names, none where the slot isn't valid.
    pub(crate) fn code_at(&self, i: usize) -> Option<usize>
        requires dict { self.now.kind ≡ kind.dict }
        requires within { i < length self.now.items }
        ensures item { slice_get self.now.items i
            ≡ Some (looked_up self.now.entries.items (item_of (option_map pos result))) }
        ensures entry { IfSome result (λ c. c < length self.now.entries.items) }
    {
        let codes = self.codes();
        let numbers = codes.numbers(INT32);
        if !codes.is_valid(i) {
            return None;
        }
        Some(natural_at(numbers, i))
    }
}
