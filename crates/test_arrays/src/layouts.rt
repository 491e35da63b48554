//! Tests of the faults of parts, and of their order.

mod deep;
mod hostile;
mod worked;

use Content::{Bitmap, Bytes, Cut, Int32s, Nothing, Offsets};
use Inner::{Bits, Indices, Numbers, Texts};
use arrays::{Buffer, DataType, IntType, OffsetWidth, RawArray, Width};
use std::alloc::Global;
use std::test::Fail;
use test_samples::{Widths, list_of, lists_of, offset_bytes, raw};

/// A type that isn't a list: of numbers the width, and whether they are signed.
#[derive(Clone, Copy)]
enum Inner {
    Numbers(Width, bool),
    Bits,
    Texts,
    Indices,
}

/// What lies at a position.
#[derive(Clone, Copy)]
enum Content {
    Nothing,
    /// A bitmap, which may be absent.
    Bitmap(Option<&'static [u8]>),
    Bytes(&'static [u8]),
    /// Numbers or indices of 32 bits, little-endian.
    Int32s(&'static [i64]),
    /// Offsets, as wide as the array has them.
    Offsets(&'static [i64]),
    /// The same without so many of their last bytes.
    Cut(&'static [i64], usize),
}

/// So many lists in one another and the type in them, the length, the null count, and what lies at each position.
type Part = (usize, Inner, u64, Option<u64>, &'static [Content]);

const LONGER: Inner = Numbers(Width::W32, true);

const UNSIGNED: Inner = Numbers(Width::W16, false);

/// The parts, without children or a dictionary, whose offsets are of these widths.
fn parts(alloc: Global, widths: Widths, part: Part) -> Result<RawArray, Fail> {
    let (lists, inner, length, null_count, positions) = part;
    parts_over(alloc, widths, (lists, inner, length, null_count), positions)
}

/// What parts say of themselves: so many lists in one another and the type in them, the length, and the null count.
type Head = (usize, Inner, u64, Option<u64>);

/// The parts over what lies at their positions.
fn parts_over(
    alloc: Global,
    widths: Widths,
    head: Head,
    positions: &[Content],
) -> Result<RawArray, Fail> {
    let (lists, inner, length, null_count) = head;
    let ty = match inner {
        Numbers(bits, signed) => DataType::Int(IntType { bits, signed }),
        Bits => DataType::Bool,
        Texts => DataType::of_texts(widths.texts),
        Indices => DataType::Dict,
    };
    let mut parts = raw(alloc, lists_of(alloc, widths, lists, ty)?, length, &[])?;
    parts.null_count = null_count;
    for content in positions {
        let buffer = buffer(alloc, widths.of_lists(lists), *content)?;
        parts.buffers.push(buffer)?;
    }
    Ok(parts)
}

/// The buffer at a position of an array whose offsets are of this width.
fn buffer(alloc: Global, width: OffsetWidth, content: Content) -> Result<Option<Buffer>, Fail> {
    let bytes = match content {
        Nothing | Bitmap(None) => return Ok(None),
        Bytes(bytes) | Bitmap(Some(bytes)) => Vec::from_slice(alloc, bytes)?,
        Int32s(numbers) => offset_bytes(alloc, OffsetWidth::Narrow, numbers)?,
        Offsets(offsets) => offset_bytes(alloc, width, offsets)?,
        Cut(offsets, missing) => {
            let mut bytes = offset_bytes(alloc, width, offsets)?;
            bytes.truncate(bytes.len().saturating_sub(missing));
            bytes
        }
    };
    Ok(Some(Buffer::from_vec(bytes)?))
}

/// A part over its children and its dictionary.
type Whole = (Part, &'static [Part], Option<Part>);

/// The parts with what stands in them.
fn assembled(alloc: Global, widths: Widths, whole: Whole) -> Result<RawArray, Fail> {
    let (own, children, dictionary) = whole;
    let mut array = parts(alloc, widths, own)?;
    for child in children {
        array.children.push(parts(alloc, widths, *child)?)?;
    }
    if let Some(entries) = dictionary {
        let entries = parts(alloc, widths, entries)?;
        array.dictionary = Some(Box::new(alloc, entries)?);
    }
    Ok(array)
}

/// What lies at the two positions of lists.
type Slot = [Content; 2];

/// An array in so many lists of one slot.
fn in_lists(
    alloc: Global,
    widths: Widths,
    lists: usize,
    array: RawArray,
    slot: Slot,
) -> Result<RawArray, Fail> {
    let mut inner = array;
    for list in 0..lists {
        let width = widths.of_lists(list + 1);
        let ty = list_of(alloc, width, inner.ty.copy(alloc)?)?;
        let mut list = raw(alloc, ty, 1, &[])?;
        for content in slot {
            list.buffers.push(buffer(alloc, width, content)?)?;
        }
        list.children.push(inner)?;
        inner = list;
    }
    Ok(inner)
}
