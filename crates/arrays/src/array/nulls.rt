ghost use Rattle.std.specs.Prelude.{◌≡◌, ◌≤◌, false, IfOk, None, replicate};
ghost use Rattle.arrays.specs.Nulls.{nulls};
ghost use Rattle.types.specs.Kind as kind;
ghost use Rattle.types.specs.Prelude.{depth, has_dict_in_list, kind_of, most_slots};

use super::Array;
use crate::builder::IntBuilder;
use crate::builder::bools::BoolBuilder;
use crate::builder::fault::BuildFault;
use crate::builder::lists::ListBuilder;
use crate::builder::texts::TextBuilder;
use crate::words::Words;
use colbits::NoMemory;
use std::alloc::Global;
use std::sync::Arc;
use types::{DataType, Field, INT32, IntType, OffsetWidth};

// Columns of nulls.
impl Array {
    /// A column of `len` nulls of the type. One with a dictionary has no entry there, and one of lists no item.
    ///
    /// `NoMemory` where a growth was refused.
    #[cycle(nulls)]
    pub fn nulls(alloc: Global, ty: &DataType, len: u32) -> Result<Array, NoMemory>
        requires short { len ≤ most_slots }
        requires depth { depth (kind_of ty.now) ≤ 8 }
        requires no_dict { has_dict_in_list (kind_of ty.now) ≡ false }
        ensures { IfOk result (λ a. a ≡ nulls (kind_of ty.now) len) }
    {
        match ty {
            DataType::Int(int) => null_numbers(alloc, *int, len),
            DataType::Bool => null_bools(alloc, len),
            DataType::Utf8 => null_texts(alloc, OffsetWidth::Narrow, len),
            DataType::LargeUtf8 => null_texts(alloc, OffsetWidth::Wide, len),
            DataType::List(item) => null_lists(alloc, OffsetWidth::Narrow, item, len),
            DataType::LargeList(item) => null_lists(alloc, OffsetWidth::Wide, item, len),
            DataType::Dict => null_codes(alloc, len),
        }
    }
}

/// So many null numbers.
fn null_numbers(alloc: Global, ty: IntType, len: u32) -> Result<Array, NoMemory>
    requires { len ≤ most_slots }
    ensures { IfOk result (λ a. a ≡ nulls (kind.int ty) len) }
{
    let mut numbers = IntBuilder::with_capacity(alloc, ty, len as usize)?;
    for _slot in 0..len {
        numbers.push(None)?;
    }
    numbers.finish()
}

/// So many null truth values.
fn null_bools(alloc: Global, len: u32) -> Result<Array, NoMemory>
    requires { len ≤ most_slots }
    ensures { IfOk result (λ a. a ≡ nulls kind.boolean len) }
{
    let mut bools = BoolBuilder::with_capacity(alloc, len as usize)?;
    for _slot in 0..len {
        bools.push(None)?;
    }
    bools.finish()
}

/// So many null texts, whose offsets are of this width.
fn null_texts(alloc: Global, width: OffsetWidth, len: u32) -> Result<Array, NoMemory>
    requires { len ≤ most_slots }
    ensures { IfOk result (λ a. a ≡ nulls (kind.texts width) len) }
{
    let mut texts = TextBuilder::with_capacity(alloc, width, len as usize, 0)?;
    for _slot in 0..len {
        match texts.push(None) {
            Ok(()) => (),
            // A null has no bytes.
            Err(BuildFault::OffsetsFull) => unreachable!(),
            Err(BuildFault::NoMemory) => return Err(NoMemory),
        }
    }
    texts.finish()
}

/// So many null codes, and a dictionary without entries.
#[tactic(auto, using(crate::proofs::NullLemmas::null_codes))]
fn null_codes(alloc: Global, len: u32) -> Result<Array, NoMemory>
    requires { len ≤ most_slots }
    ensures { IfOk result (λ a. a ≡ nulls kind.dict len) }
{
    let codes = null_numbers(alloc, INT32, len)?;
    let entries = null_texts(alloc, OffsetWidth::Narrow, 0)?;
    Ok(Array::dict(codes, Arc::new(alloc, Words::of(entries))?))
}

/// So many null lists of the field's items, whose offsets are of this width.
#[cycle(nulls)]
fn null_lists(alloc: Global, width: OffsetWidth, item: &Field, len: u32) -> Result<Array, NoMemory>
    requires short { len ≤ most_slots }
    requires depth { depth (kind.lists width (kind_of item.now.ty)) ≤ 8 }
    requires no_dict { has_dict_in_list (kind.lists width (kind_of item.now.ty)) ≡ false }
    ensures { IfOk result (λ a. a ≡ nulls (kind.lists width (kind_of item.now.ty)) len) }
{
    let items = Array::nulls(alloc, &item.ty, 0)?;
    null_slots(alloc, width, len)?.finish(item.copy(alloc)?, items)
}

/// So many null slots of lists, whose offsets are of this width.
fn null_slots(alloc: Global, width: OffsetWidth, len: u32) -> Result<ListBuilder, NoMemory>
    requires { len ≤ most_slots }
    ensures width { IfOk result (λ b. b.width ≡ width) }
    ensures slots { IfOk result (λ b. b.lengths ≡ replicate len None) }
{
    let mut lists = ListBuilder::with_capacity(alloc, width, len as usize)?;
    for _slot in 0..len {
        match lists.push(None) {
            Ok(()) => (),
            // A null has no items.
            Err(BuildFault::OffsetsFull) => unreachable!(),
            Err(BuildFault::NoMemory) => return Err(NoMemory),
        }
    }
    Ok(lists)
}
