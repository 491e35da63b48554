//! A column of lists in the making.

ghost use Rattle.std.specs.Prelude.{◌≡◌, ◌<◌, ◌≤◌, ℕ, Option, [], ◌∷◌, ◌++◌, false, length, IfErr, IfOk, OnErr, OnOk};
ghost use Rattle.types.specs.Kind as kind;
ghost use Rattle.types.specs.Prelude.{depth, dict, kind_of, most_slots, same_kind};
ghost use Rattle.arrays.specs.Lengths.{IsBuildFault, cut, is_past, total};
ghost use Rattle.arrays.specs.Shown.{shown};

use super::fault::BuildFault;
use super::offsets::OffsetsBuilder;
use crate::array::Array;
use colbits::NoMemory;
use std::alloc::Global;
use std::marker::Model;
use types::{Field, MOST_SLOTS, OffsetWidth};

/// A column of lists in the making, of which the lengths are given: their offsets begin at 0, and a null has no
/// items. The items come as an array at the end.
#[derive(Drop)]
pub struct ListBuilder {
    alloc: Global,
    slots: OffsetsBuilder,
}

impl Model for ListBuilder {
    ghost use Rattle.std.specs.Prelude.{◌≡◌, false};
    ghost use Rattle.arrays.specs.Column.{SizedColumn, sized_column_code};
    ghost use Rattle.arrays.specs.Lengths.{is_past, total};

    ghost Value = { SizedColumn };

    ghost coded = { sized_column_code };

    ghost view = { λ b. b.slots };

    // A child has no more slots than an array may have, whatever the offsets count.
    ghost invariant = { λ b. is_past (total b.slots.lengths) ≡ false };
}

impl ListBuilder {
    /// An empty column whose offsets are of this width, with room for so many slots.
    pub fn with_capacity(
        alloc: Global,
        width: OffsetWidth,
        slots: usize,
    ) -> Result<ListBuilder, NoMemory>
        requires { slots ≤ most_slots }
        ensures width { IfOk result (λ b. b.width ≡ width) }
        ensures empty { IfOk result (λ b. b.lengths ≡ []) }
    {
        Ok(ListBuilder {
            alloc,
            slots: OffsetsBuilder::with_capacity(alloc, width, slots)?,
        })
    }

    /// Adds a slot at the end: a list of so many items, or null.
    pub fn push(&mut self, items: Option<usize>) -> Result<(), BuildFault>
        requires room { length self.old.lengths < most_slots }
        ensures width { self.new.width ≡ self.old.width }
        ensures ok { OnOk result (self.new.lengths ≡ self.old.lengths ++ items ∷ []) }
        ensures err { OnErr result (self.new.lengths ≡ self.old.lengths) }
        ensures fault { IfErr result (IsBuildFault (is_past (total (self.old.lengths ++ items ∷ [])))) }
    {
        if items.unwrap_or(0) > MOST_SLOTS - self.slots.total() {
            return Err(BuildFault::OffsetsFull);
        }
        self.slots.push(items)?;
        Ok(())
    }

    /// The column of the child's items as an array, with a validity only where there is a null.
    pub fn finish(self, item: Field, child: Array) -> Result<Array, NoMemory>
        requires total { total self.lengths ≡ length child.items }
        requires kind { kind_of item.ty ≡ child.kind }
        requires no_dict { same_kind child.kind dict ≡ false }
        requires depth { depth child.kind < 8 }
        ensures { IfOk result (λ a. a ≡ shown (kind.lists self.width child.kind) (cut self.lengths child.items)) }
    {
        let ListBuilder { alloc, slots } = self;
        let slots = slots.finish()?;
        Array::from_list(alloc, item, slots, child)
    }
}
