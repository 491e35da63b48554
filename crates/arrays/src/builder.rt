ghost use Rattle.std.specs.Prelude.{◌≡◌, ◌+◌, ◌*◌, ◌<◌, ◌≤◌, [], ◌∷◌, ◌++◌, length, take, IfOk, OnOk, OnErr, if◌then◌else◌};
ghost use Rattle.std.specs.Option.{ForSome};
ghost use Rattle.types.specs.Prelude.{IsOfType, bytes_of, most_slots};
ghost use Rattle.types.specs.Kind as kind;
ghost use Rattle.arrays.specs.Shown.{shown};

pub mod bools;
pub mod fault;
pub mod lists;
mod offsets;
pub mod texts;
pub mod validity;

use crate::array::Array;
use crate::numbers::push_number;
use crate::validity::buffer_of;
use crate::view::View;
use colbits::{Bits, Buffer, NoMemory};
use std::alloc::Global;
use std::marker::Model;
use types::{IntType, Integer};
use validity::ValidityBuilder;

/// A column of integers in the making.
#[derive(Drop)]
pub struct IntBuilder {
    alloc: Global,
    ty: IntType,
    values: Vec<u8>,
    valid: ValidityBuilder,
}

impl Model for IntBuilder {
    ghost use Rattle.arrays.specs.Column.{column_code};
    ghost use Rattle.arrays.specs.Column.{Column};

    ghost Value = { Column };

    ghost coded = { column_code };

    ghost use Rattle.arrays.specs.Builder.{show_builder, IsBuilt};

    ghost view = { show_builder };

    ghost invariant = { λ b. IsBuilt b.ty b.values.items b.valid };
}

impl IntBuilder {
    ghost use Rattle.layout.specs.Item.{int, null};
    ghost use Rattle.arrays.specs.Slot.{item_of};
    ghost use Rattle.arrays.specs.Builder.{numbers_where};

    /// An empty column of the type, with room for so many slots.
    pub fn with_capacity(alloc: Global, ty: IntType, slots: usize) -> Result<IntBuilder, NoMemory>
        requires { slots ≤ most_slots }
        ensures { IfOk result (λ b. (b.ty ≡ ty) × (b.items ≡ [])) }
    {
        let width = ty.bits.bytes();

        // A buffer is padded by at most 63 bytes, so that the numbers aren't copied again.
        Ok(IntBuilder {
            alloc,
            ty,
            values: Vec::with_capacity(alloc, slots * width + 63)?,
            valid: ValidityBuilder::new(alloc),
        })
    }

    /// Adds a slot at the end: the number, or null.
    pub fn push(&mut self, number: Option<i128>) -> Result<(), NoMemory>
        requires of_type { ForSome number (IsOfType self.old.ty) }
        requires room { length self.old.items < most_slots }
        ensures kept { self.new.ty ≡ self.old.ty }
        ensures ok { OnOk result (self.new.items ≡ self.old.items ++ item_of number ∷ []) }
        ensures err { OnErr result (self.new.items ≡ self.old.items) }
    {
        match number {
            Some(number) => self.add(number, true),
            None => self.add(0, false),
        }
    }

    /// The same for a type that is known to the compiler, so that no slot's type is looked at.
    #[inline(always)]
    pub fn push_as<T: Integer>(&mut self, number: Option<i128>) -> Result<(), NoMemory>
        requires ty { T.ty ≡ self.old.ty }
        requires of_type { ForSome number (IsOfType self.old.ty) }
        requires room { length self.old.items < most_slots }
        ensures kept { self.new.ty ≡ self.old.ty }
        ensures ok { OnOk result (self.new.items ≡ self.old.items ++ item_of number ∷ []) }
        ensures err { OnErr result (self.new.items ≡ self.old.items) }
    {
        match number {
            Some(number) => self.add_as::<T>(number, true),
            None => self.add_as::<T>(0, false),
        }
    }

    /// The column with all slots of a view of the same type at its end. The numbers are copied at once, with what lies
    /// under nulls.
    pub fn extended<T: Integer>(self, view: &View<'_>) -> Result<IntBuilder, NoMemory>
        requires kind { view.now.kind ≡ kind.int self.ty }
        requires ty { T.ty ≡ self.ty }
        requires room { length self.items + length view.now.items ≤ most_slots }
        ensures ty { IfOk result (λ b. b.ty ≡ self.ty) }
        ensures items { IfOk result (λ b. b.items ≡ self.items ++ view.now.items) }
    {
        let numbers = view.numbers(T::ty());
        self.extended_at_once(numbers, &view.validity(), view.len())
    }

    /// The column as an array, with a validity only where there is a null.
    pub fn finish(self) -> Result<Array, NoMemory>
        ensures kind { IfOk result (λ a. a.kind ≡ kind.int self.ty) }
        ensures items { IfOk result (λ a. a.items ≡ self.items) }
        ensures whole { IfOk result (λ a. a ≡ shown (kind.int self.ty) self.items) }
    {
        let IntBuilder {
            alloc,
            ty,
            values,
            valid,
        } = self;
        let len = valid.len() as u32;
        let validity = valid.finish()?;
        let values = Buffer::from_vec(values)?;
        Array::from_numbers(alloc, ty, len, buffer_of(validity), values)
    }

    /// The column with so many slots at its end, whose numbers are these where they are valid.
    fn extended_at_once(
        self,
        numbers: &[u8],
        validity: &Option<Bits<'_>>,
        count: usize,
    ) -> Result<IntBuilder, NoMemory>
        requires size { length numbers.now ≡ count * bytes_of self.ty.bits }
        requires room { length self.items + count ≤ most_slots }
        ensures ty { IfOk result (λ b. b.ty ≡ self.ty) }
        ensures items { IfOk result (λ b. b.items ≡ self.items ++ numbers_where validity.now self.ty numbers.now count) }
    {
        let IntBuilder {
            alloc,
            ty,
            mut values,
            mut valid,
        } = self;
        values.extend_from_slice(numbers)?;
        valid.push_slots(validity, count)?;
        Ok(IntBuilder {
            alloc,
            ty,
            values,
            valid,
        })
    }

    fn add(&mut self, number: i128, valid: bool) -> Result<(), NoMemory>
        requires of_type { IsOfType self.old.ty number }
        requires room { length self.old.items < most_slots }
        ensures kept { self.new.ty ≡ self.old.ty }
        ensures ok { OnOk result (self.new.items ≡ self.old.items ++ (if valid then int number else null) ∷ []) }
        ensures err { OnErr result (self.new.items ≡ self.old.items) }
    {
        let before = self.values.len();
        push_number(&mut self.values, self.ty, number)?;
        mark(&mut self.values, &mut self.valid, before, valid)
    }

    #[inline(always)]
    fn add_as<T: Integer>(&mut self, number: i128, valid: bool) -> Result<(), NoMemory>
        requires ty { T.ty ≡ self.old.ty }
        requires of_type { IsOfType self.old.ty number }
        requires room { length self.old.items < most_slots }
        ensures kept { self.new.ty ≡ self.old.ty }
        ensures ok { OnOk result (self.new.items ≡ self.old.items ++ (if valid then int number else null) ∷ []) }
        ensures err { OnErr result (self.new.items ≡ self.old.items) }
    {
        let before = self.values.len();
        T::push(&mut self.values, number)?;
        mark(&mut self.values, &mut self.valid, before, valid)
    }
}

/// Tells of the slot whose number lies at the end of the values whether it is valid, or takes the number away: the
/// values had so many bytes before it.
#[inline(always)]
fn mark(
    values: &mut Vec<u8>,
    slots: &mut ValidityBuilder,
    before: usize,
    valid: bool,
) -> Result<(), NoMemory>
    requires within { before ≤ length values.old.items }
    requires room { length slots.old < most_slots }
    ensures ok_values { OnOk result (values.new.items ≡ values.old.items) }
    ensures ok_slots { OnOk result (slots.new ≡ slots.old ++ valid ∷ []) }
    ensures err_values { OnErr result (values.new.items ≡ take before values.old.items) }
    ensures err_slots { OnErr result (slots.new ≡ slots.old) }
{
    match slots.push(valid) {
        Ok(()) => Ok(()),
        Err(error) => {
            values.truncate(before);
            Err(error)
        }
    }
}
