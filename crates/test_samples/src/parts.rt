//! Arrays of the bytes of their buffers.

use crate::widths::offset_bytes;
use arrays::{Array, Buffer, DataType, IntType, OffsetWidth, RawArray, validate};
use std::alloc::Global;
use std::test::Fail;

/// The bytes of each position of a layout, none where it holds no buffer, as a constant has them.
pub type Positions = &'static [Option<&'static [u8]>];

/// The parts of an array without children: its type, its length and the bytes of each position, none where it holds no
/// buffer.
pub fn raw(
    alloc: Global,
    ty: DataType,
    length: u64,
    positions: &[Option<&[u8]>],
) -> Result<RawArray, Fail> {
    let mut buffers = Vec::new(alloc);
    for position in positions {
        buffers.push(match position {
            Some(bytes) => Some(Buffer::from_bytes(alloc, *bytes)?),
            None => None,
        })?;
    }
    Ok(RawArray {
        ty,
        length,
        null_count: None,
        buffers,
        children: Vec::new(alloc),
        dictionary: None,
    })
}

/// Texts: the bytes of their bitmap, none where it is absent, their offsets, and their bytes.
pub type Words = (Option<&'static [u8]>, &'static [i64], &'static [u8]);

/// The parts of texts whose offsets are of a width.
pub fn raw_words(alloc: Global, width: OffsetWidth, words: Words) -> Result<RawArray, Fail> {
    let (bitmap, numbers, bytes) = words;
    let offsets = offset_bytes(alloc, width, numbers)?;
    let positions = [bitmap, Some(offsets.as_slice()), Some(bytes)];
    let texts = numbers.len().saturating_sub(1) as u64;
    raw(alloc, DataType::of_texts(width), texts, &positions)
}

/// An array without children, checked.
pub fn checked(
    alloc: Global,
    ty: DataType,
    length: u64,
    positions: Positions,
) -> Result<Array, Fail> {
    Ok(validate(alloc, raw(alloc, ty, length, positions)?)?)
}

/// A type without children and without a dictionary.
#[derive(Clone, Copy)]
pub enum Flat {
    Int(IntType),
    Bool,
    Utf8,
}

/// An array of a flat type: the type, the length and the bytes of each position.
pub type Parts = (Flat, u64, Positions);

/// These parts.
pub fn raw_flat(alloc: Global, parts: Parts) -> Result<RawArray, Fail> {
    let (flat, length, positions) = parts;
    let ty = match flat {
        Flat::Int(int) => DataType::Int(int),
        Flat::Bool => DataType::Bool,
        Flat::Utf8 => DataType::Utf8,
    };
    raw(alloc, ty, length, positions)
}

/// The array of these parts.
pub fn built(alloc: Global, parts: Parts) -> Result<Array, Fail> {
    Ok(validate(alloc, raw_flat(alloc, parts)?)?)
}
