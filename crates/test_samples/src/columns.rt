//! Columns of texts, of lists and of codes.

use crate::fields::item;
use crate::integers::INT8;
use crate::parts::{Parts, Positions, Words, raw, raw_flat, raw_words};
use crate::values::{raw_bools, raw_numbers, raw_texts};
use crate::widths::{NARROW, Widths, offset_bytes};
use arrays::{Array, DataType, Field, IntType, OffsetWidth, RawArray, validate};
use std::alloc::Global;
use std::test::Fail;

/// The texts joe, null, null and mark, with bytes under a null.
pub const NAMES: Words = (Some(&[0x09]), &[0, 3, 5, 5, 9], b"joe\xff\xffmark");

/// Five codes into a dictionary of four entries, of which the third is the first again and the last is null:
/// a, a, null by its entry, null, b.
pub fn raw_coded(alloc: Global) -> Result<RawArray, Fail> {
    let codes: Positions = &[
        Some(&[0x17]),
        Some(b"\x02\0\0\0\0\0\0\0\x03\0\0\0\x09\0\0\0\x01\0\0\0"),
    ];
    let mut column = raw(alloc, DataType::Dict, 5, codes)?;
    let entries: Words = (Some(&[0x07]), &[0, 1, 2, 3, 3], b"aba");
    let dictionary = raw_words(alloc, OffsetWidth::Narrow, entries)?;
    column.dictionary = Some(Box::new(alloc, dictionary)?);
    Ok(column)
}

/// The codes as an array.
pub fn coded(alloc: Global) -> Result<Array, Fail> {
    Ok(validate(alloc, raw_coded(alloc)?)?)
}

/// Lists over a child: the bytes of their bitmap, and their offsets.
type Cuts = (&'static [u8], &'static [i64]);

/// The parts of lists of the item's type whose offsets are of a width.
fn raw_cuts(
    alloc: Global,
    width: OffsetWidth,
    item: Field,
    cuts: Cuts,
    child: RawArray,
) -> Result<RawArray, Fail> {
    let (bitmap, numbers) = cuts;
    let offsets = offset_bytes(alloc, width, numbers)?;
    let positions = [Some(bitmap), Some(offsets.as_slice())];
    let ty = DataType::of_lists(width, Box::new(alloc, item)?);
    let lists = numbers.len().saturating_sub(1) as u64;
    let mut column = raw(alloc, ty, lists, &positions)?;
    column.children.push(child)?;
    Ok(column)
}

/// The lists 12, -7, 25; null; 0, -127, 127, 50; and one without items. The items are of INT8.
pub fn raw_lists(alloc: Global, width: OffsetWidth, item: Field) -> Result<RawArray, Fail> {
    let items: Positions = &[None, Some(&[12, 249, 25, 0, 129, 127, 50])];
    let child = raw(alloc, DataType::Int(INT8), 7, items)?;
    raw_cuts(alloc, width, item, (&[0x0d], &[0, 3, 3, 7, 7]), child)
}

/// Lists of lists: the first two of those, null, and the other two.
fn raw_lists_of_lists(alloc: Global, widths: Widths) -> Result<RawArray, Fail> {
    let child = raw_lists(alloc, widths.inner, item(alloc, DataType::Int(INT8))?)?;
    let item = item(alloc, child.ty.copy(alloc)?)?;
    raw_cuts(alloc, widths.outer, item, (&[0x05], &[0, 2, 2, 4]), child)
}

/// An array that tests start from.
#[derive(Clone, Copy)]
pub enum Sample {
    Numbers(IntType, &'static [Option<i128>]),
    Bools(&'static [Option<bool>]),
    Strings(&'static [Option<&'static str>]),
    Of(Parts),
    Texts(Words),
    Coded,
    Lists,
    ListsOfLists,
}

/// The parts of a sample whose offsets are of these widths.
pub fn raw_sample(alloc: Global, widths: Widths, sample: Sample) -> Result<RawArray, Fail> {
    match sample {
        Sample::Numbers(ty, numbers) => raw_numbers(alloc, ty, numbers),
        Sample::Bools(bools) => raw_bools(alloc, bools),
        Sample::Strings(texts) => raw_texts(alloc, widths.texts, texts),
        Sample::Of(parts) => raw_flat(alloc, parts),
        Sample::Texts(words) => raw_words(alloc, widths.texts, words),
        Sample::Coded => raw_coded(alloc),
        Sample::Lists => raw_lists(alloc, widths.inner, item(alloc, DataType::Int(INT8))?),
        Sample::ListsOfLists => raw_lists_of_lists(alloc, widths),
    }
}

/// The array of a sample whose offsets are of these widths.
pub fn sampled_at(alloc: Global, widths: Widths, sample: Sample) -> Result<Array, Fail> {
    Ok(validate(alloc, raw_sample(alloc, widths, sample)?)?)
}

/// The same with narrow offsets.
pub fn sampled(alloc: Global, sample: Sample) -> Result<Array, Fail> {
    sampled_at(alloc, NARROW, sample)
}
