//! The item of one slot.

ghost use Rattle.std.specs.Prelude.{◌≡◌, ◌<◌, IfSome, Some, length, slice_get, true};
ghost use Rattle.std.specs.Option.{option_copied};
ghost use Rattle.arrays.specs.Slot.{item_of, holds_at, is_int, is_list, is_text, item_of_bool, item_of_list, item_of_text};
ghost use Rattle.types.specs.Kind as kind;
ghost use Rattle.types.specs.Kind.{item_kind};

use crate::numbers::number_at;
use crate::view::{View, ViewType};
use types::{IntType, OffsetWidth};

impl<'a> View<'a> {
    /// Number `i` of an integer view, none where the slot is null.
    pub fn int_at(&self, i: usize) -> Option<i128>
        requires int { is_int self.now.kind ≡ true }
        requires within { i < length self.now.items }
        ensures { slice_get self.now.items i ≡ Some (item_of result) }
    {
        match self.ty {
            ViewType::Int(ty) => self.int_as(ty, i),
            _ => unreachable!(),
        }
    }

    /// Number `i` of a view of integers of this type, none where the slot is null. The view's type isn't looked at,
    /// as `int_at` asks it.
    pub fn int_as(&self, ty: IntType, i: usize) -> Option<i128>
        requires int { self.now.kind ≡ kind.int ty }
        requires within { i < length self.now.items }
        ensures { slice_get self.now.items i ≡ Some (item_of result) }
    {
        let numbers = self.numbers(ty);
        if self.is_valid(i) {
            Some(number_at(ty, numbers, i))
        } else {
            None
        }
    }

    /// Truth value `i`, none where the slot is null.
    pub fn bool_at(&self, i: usize) -> Option<bool>
        requires boolean { self.now.kind ≡ kind.boolean }
        requires within { i < length self.now.items }
        ensures { slice_get self.now.items i ≡ Some (item_of_bool result) }
    {
        let bits = self.bool_bits();
        if !self.is_valid(i) {
            return None;
        }
        Some(bits.get(i))
    }

    /// Text `i` of a view of texts without a dictionary whose offsets are of this width, none where the slot is null. The
    /// view's type isn't looked at, as `text_at` does.
    pub fn text_as(&self, width: OffsetWidth, i: usize) -> Option<&'a str>
        requires text { self.now.kind ≡ kind.texts width }
        requires within { i < length self.now.items }
        ensures { slice_get self.now.items i ≡ Some (item_of_text (option_copied result)) }
    {
        self.texts(width).get(i)
    }

    /// Text `i` of a view of texts, dictionary-encoded or not, none where there is no item.
    pub fn text_at(&self, i: usize) -> Option<&'a str>
        requires text { is_text self.now.kind ≡ true }
        requires within { i < length self.now.items }
        ensures { slice_get self.now.items i ≡ Some (item_of_text (option_copied result)) }
    {
        match self.ty {
            ViewType::Text(width) => self.text_as(width, i),
            ViewType::Dict => self.entry_at(i),
            _ => unreachable!(),
        }
    }

    /// The text that code `i` names, none where there is no item.
    fn entry_at(&self, i: usize) -> Option<&'a str>
        requires dict { self.now.kind ≡ kind.dict }
        requires within { i < length self.now.items }
        ensures { slice_get self.now.items i ≡ Some (item_of_text (option_copied result)) }
    {
        match self.code_at(i) {
            Some(code) => self.entries().text_as(OffsetWidth::Narrow, code),
            None => None,
        }
    }

    /// Whether slot `i` holds an item: where its code is valid, its entry of a dictionary may still be null.
    pub fn holds(&self, i: usize) -> bool
        requires { i < length self.now.items }
        ensures { result ≡ holds_at self.now i }
    {
        match self.ty {
            ViewType::Dict => match self.code_at(i) {
                Some(code) => self.entries().is_valid(code),
                None => false,
            },
            _ => self.is_valid(i),
        }
    }

    /// List `i`, none where the slot is null.
    pub fn list_at(&self, i: usize) -> Option<View<'a>>
        requires list { is_list self.now.kind ≡ true }
        requires within { i < length self.now.items }
        ensures items { slice_get self.now.items i ≡ Some (item_of_list result) }
        ensures kind { IfSome result (λ v. item_kind self.now.kind ≡ Some v.kind) }
    {
        let lists = self.lists();
        match lists.get(i) {
            Some((start, len)) => Some(lists.child.slice(start, len)),
            None => None,
        }
    }
}
