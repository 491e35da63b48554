ghost use Rattle.std.specs.Prelude.{◌≡◌, ◌+◌, ◌<◌, ◌≤◌, None, false, length, option_map};
ghost use Rattle.std.specs.Arc.{arc_value};
ghost use Rattle.layout.specs.Prelude.{null_count_of, part, read_checked, valid_at};
ghost use Rattle.types.specs.Kind as kind;
ghost use Rattle.types.specs.Prelude.{kind_of, most_slots, same_kind};
ghost use Rattle.arrays.specs.Slot.{holds_at};
ghost use Rattle.arrays.specs.ViewType.{view_kind};

mod bools;
mod dictionary;
mod ints;
mod items;
mod lists;
mod parts;
mod texts;
mod typed;

use crate::words::Words;
pub use bools::Bools;
use colbits::{Bits, Buffer};
pub use ints::Ints;
use layout::{RawArray, buffers};
pub use lists::Lists;
use std::marker::Model;
use std::sync::Arc;
pub use texts::Texts;
use types::{DataType, Field, IntType, OffsetWidth, is_same};

/// The type of a view: of texts and lists with the width of their offsets, of a list with the field of its items.
#[derive(Clone, Copy)]
pub enum ViewType<'a> {
    Int(IntType),
    Bool,
    Text(OffsetWidth),
    List(OffsetWidth, &'a Field),
    Dict,
}

impl<'a> ViewType<'a> {
    /// The type without what lies in it.
    pub fn of(ty: &'a DataType) -> ViewType<'a>
        ensures { view_kind result ≡ kind_of ty.now }
    {
        match ty {
            DataType::Int(int) => ViewType::Int(*int),
            DataType::Bool => ViewType::Bool,
            DataType::Utf8 => ViewType::Text(OffsetWidth::Narrow),
            DataType::LargeUtf8 => ViewType::Text(OffsetWidth::Wide),
            DataType::List(item) => ViewType::List(OffsetWidth::Narrow, item),
            DataType::LargeList(item) => ViewType::List(OffsetWidth::Wide, item),
            DataType::Dict => ViewType::Dict,
        }
    }

    /// Whether two types are the same: names and nullability of list items aren't compared.
    pub fn is_same(self, other: ViewType<'_>) -> bool
        ensures { result ≡ same_kind (view_kind self.entry) (view_kind other.entry) }
    {
        match (self, other) {
            (ViewType::Int(a), ViewType::Int(b)) => a == b,
            (ViewType::Bool, ViewType::Bool) => true,
            (ViewType::Text(a), ViewType::Text(b)) => a == b,
            (ViewType::List(a, item), ViewType::List(b, other)) => {
                a == b && is_same(&item.ty, &other.ty)
            }
            (ViewType::Dict, ViewType::Dict) => true,
            _ => false,
        }
    }
}

/// Neighbouring slots of an array, borrowed: nothing is copied, and no memory is taken.
#[derive(Drop)]
pub struct View<'a> {
    ty: ViewType<'a>,
    buffers: &'a [Option<Buffer>],
    children: &'a [RawArray],
    words: Option<&'a Arc<Words>>,
    /// How many slots the whole array has.
    total: usize,
    /// The first slot of the view, and how many it has.
    start: usize,
    len: usize,
}

impl<'a> Model for View<'a> {
    ghost use Rattle.layout.specs.Prelude.{Seen, seen_code};

    ghost Value = { Seen };

    ghost coded = { seen_code };

    ghost use Rattle.arrays.specs.View.{IsView, show_view};

    ghost view = { show_view };

    ghost invariant = { IsView };
}

impl<'a> View<'a> {
    /// All slots of the parts of a checked array.
    pub(crate) fn whole(
        ty: ViewType<'a>,
        buffers: &'a [Option<Buffer>],
        children: &'a [RawArray],
        words: Option<&'a Arc<Words>>,
        total: u64,
    ) -> View<'a>
        requires { (read_checked (view_kind ty) total buffers.now children.now
            (option_map (λ w. arc_value w.now) words)).fault ≡ None }
        ensures { result ≡ (read_checked (view_kind ty.entry) total buffers.now children.now
            (option_map (λ w. arc_value w.now) words.entry)).seen }
    {
        let total = total as usize;
        View {
            ty,
            buffers,
            children,
            words,
            total,
            start: 0,
            len: total,
        }
    }

    /// How many slots there are.
    pub fn len(&self) -> usize
        ensures { result ≡ length self.now.items }
    {
        self.len
    }

    /// How many slots there are, as arrays are made of: no more than an array may have.
    pub fn slots(&self) -> u32
        ensures count { result ≡ length self.now.items }
        ensures short { result ≤ most_slots }
    {
        let len = self.len;
        len as u32
    }

    /// The type of the slots.
    pub fn ty(&self) -> ViewType<'a>
        ensures { view_kind result ≡ self.now.kind }
    {
        self.ty
    }

    /// The `len` slots from slot `start` on.
    pub fn slice(&self, start: usize, len: usize) -> View<'a>
        requires { start + len ≤ length self.now.items }
        ensures { result ≡ part start len self.now }
    {
        View {
            ty: self.ty,
            buffers: self.buffers,
            children: self.children,
            words: self.words,
            total: self.total,
            start: self.start + start,
            len,
        }
    }

    /// Whether slot `i` is valid: this is of the validity alone.
    pub fn is_valid(&self, i: usize) -> bool
        requires { i < length self.now.items }
        ensures validity { result ≡ valid_at self.now i }

        // Where no dictionary is named, a valid slot holds an item.
        ensures item { same_kind self.now.kind kind.dict ≡ false → result ≡ holds_at self.now i }
    {
        buffers::is_valid(self.buffers, self.start + i)
    }

    /// The validity of the slots, none where the bitmap is absent and all are valid.
    pub fn validity(&self) -> Option<Bits<'a>>
        ensures { result ≡ self.now.validity }
    {
        match buffers::buffer_at(self.buffers, 0) {
            Some(bytes) => Some(Bits::new(bytes, self.start, self.len)),
            None => None,
        }
    }

    /// How many slots aren't valid. It counts the bits of the view.
    pub fn null_count(&self) -> usize
        ensures { result ≡ null_count_of self.now }
    {
        match self.validity() {
            Some(bits) => bits.len() - bits.count_ones(),
            None => 0,
        }
    }
}
