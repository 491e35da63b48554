//! A column of truth values in the making.

ghost use Rattle.std.specs.Prelude.{◌≡◌, ◌<◌, [], ◌∷◌, ◌++◌, length, IfOk, OnErr, OnOk};
ghost use Rattle.types.specs.Kind as kind;
ghost use Rattle.arrays.specs.Shown.{shown};
ghost use Rattle.arrays.specs.Slot.{item_of_bool};
ghost use Rattle.types.specs.Limits.{most_slots};

use super::validity::ValidityBuilder;
use crate::array::Array;
use crate::validity::buffer_of;
use colbits::{BitmapBuilder, NoMemory};
use std::alloc::Global;
use std::marker::Model;

/// A column of truth values in the making.
#[derive(Drop)]
pub struct BoolBuilder {
    alloc: Global,
    values: BitmapBuilder,
    valid: ValidityBuilder,
}

impl Model for BoolBuilder {
    ghost use Rattle.std.specs.Prelude.{◌≡◌, List, length};
    ghost use Rattle.layout.specs.Prelude.{Item, items_code};
    ghost use Rattle.arrays.specs.Growing.{bools_where};

    ghost Value = { List Item };

    ghost coded = { items_code };

    ghost view = { λ b. bools_where b.values b.valid };

    ghost invariant = { λ b. length b.values ≡ length b.valid };
}

impl BoolBuilder {
    /// An empty column, with room for so many slots.
    pub fn with_capacity(alloc: Global, slots: usize) -> Result<BoolBuilder, NoMemory>
        ensures { IfOk result (λ b. b ≡ []) }
    {
        Ok(BoolBuilder {
            alloc,
            values: BitmapBuilder::with_capacity(alloc, slots)?,
            valid: ValidityBuilder::new(alloc),
        })
    }

    /// Adds a slot at the end: the value, or null.
    pub fn push(&mut self, value: Option<bool>) -> Result<(), NoMemory>
        requires room { length self.old < most_slots }
        ensures ok { OnOk result (self.new ≡ self.old ++ item_of_bool value ∷ []) }
        ensures err { OnErr result (self.new ≡ self.old) }
    {
        let before = self.values.len();
        self.values.push(value.unwrap_or(false))?;
        match self.valid.push(value.is_some()) {
            Ok(()) => Ok(()),
            Err(error) => {
                self.values.truncate(before);
                Err(error)
            }
        }
    }

    /// The column as an array, with a validity only where there is a null.
    pub fn finish(self) -> Result<Array, NoMemory>
        ensures { IfOk result (λ a. a ≡ shown kind.boolean self) }
    {
        let BoolBuilder {
            alloc,
            values,
            valid,
        } = self;
        let len = valid.len() as u32;
        let validity = valid.finish()?;
        let bits = values.finish()?;
        Array::from_bits(alloc, len, buffer_of(validity), bits.into_buffer())
    }
}
