//! Columns of values that stand in a slice.

ghost use Rattle.std.specs.Prelude.{◌≡◌, ◌||◌, IfErr, IfOk, length, map, option_map};
ghost use Rattle.std.specs.Option.{ForSome, option_copied};
ghost use Rattle.types.specs.Kind as kind;
ghost use Rattle.types.specs.Prelude.{IsOfType, is_full};
ghost use Rattle.types.specs.declared.offset_width.OffsetWidth.TheVariants.{Narrow};
ghost use Rattle.arrays.specs.Lengths.{IsFull, is_past, text_bytes};
ghost use Rattle.arrays.specs.Shown.{shown};
ghost use Rattle.arrays.specs.Slot.{item_of, item_of_bool, item_of_text};

use crate::array::Array;
use crate::builder::IntBuilder;
use crate::builder::bools::BoolBuilder;
use crate::builder::fault::BuildFault;
use crate::builder::texts::TextBuilder;
use std::alloc::Global;
use types::{Integer, MOST_SLOTS, OffsetWidth};

impl Array {
    /// The numbers as a column of their type, null where there is none.
    ///
    /// # Errors
    /// `OffsetsFull` for over 2^31 - 1 slots; `NoMemory` where a growth was refused.
    pub fn of_ints<T: Integer>(alloc: Global, numbers: &[Option<T>]) -> Result<Array, BuildFault>
        ensures ok { IfOk result (λ a. a ≡ shown (kind.int T.ty) (map (λ n. item_of (option_map T.value n)) numbers.now)) }
        ensures err { IfErr result (IsFull (is_past (length numbers.now))) }
    {
        if numbers.len() > MOST_SLOTS {
            return Err(BuildFault::OffsetsFull);
        }
        let mut builder = IntBuilder::with_capacity(alloc, T::ty(), numbers.len())?;
        for number in numbers {
            builder.push_as::<T>(wide(number))?;
        }
        Ok(builder.finish()?)
    }

    /// The truth values as a column, null where there is none.
    ///
    /// # Errors
    /// As those of `of_ints`.
    pub fn of_bools(alloc: Global, values: &[Option<bool>]) -> Result<Array, BuildFault>
        ensures ok { IfOk result (λ a. a ≡ shown kind.boolean (map item_of_bool values.now)) }
        ensures err { IfErr result (IsFull (is_past (length values.now))) }
    {
        if values.len() > MOST_SLOTS {
            return Err(BuildFault::OffsetsFull);
        }
        let mut builder = BoolBuilder::with_capacity(alloc, values.len())?;
        for value in values {
            builder.push(*value)?;
        }
        Ok(builder.finish()?)
    }

    /// The texts as a column with offsets of 32 bits, null where there is none.
    ///
    /// # Errors
    /// `OffsetsFull` for over 2^31 - 1 slots, or bytes together; `NoMemory` where a growth was refused.
    pub fn of_texts(alloc: Global, texts: &[Option<&str>]) -> Result<Array, BuildFault>
        ensures ok { IfOk result (λ a. a ≡ shown kind.utf8 (map (λ t. item_of_text (option_copied t)) texts.now)) }
        ensures err { IfErr result (IsFull (is_past (length texts.now)
            || is_full Narrow (text_bytes (map (λ t. item_of_text (option_copied t)) texts.now)))) }
    {
        if texts.len() > MOST_SLOTS {
            return Err(BuildFault::OffsetsFull);
        }
        let mut builder = TextBuilder::with_capacity(alloc, OffsetWidth::Narrow, texts.len(), 0)?;
        for text in texts {
            builder.push(*text)?;
        }
        Ok(builder.finish()?)
    }
}

/// The number, as the numbers of each type fit it.
fn wide<T: Integer>(number: &Option<T>) -> Option<i128>
    ensures value { result ≡ option_map T.value number.now }
    ensures of_type { ForSome result (IsOfType T.ty) }
{
    match number {
        Some(number) => Some(number.wide()),
        None => None,
    }
}
