//! Arrays of values, as tables of cases say them.

use crate::parts::raw;
use arrays::{BitmapBuf, Buffer, DataType, IntType, OffsetWidth, RawArray, Width};
use std::alloc::Global;
use std::test::Fail;

/// The parts of a column of these numbers, of which the lower bytes are stored.
pub fn raw_numbers(alloc: Global, ty: IntType, numbers: &[Option<i128>]) -> Result<RawArray, Fail> {
    let (mut valid, mut bytes) = (Vec::new(alloc), Vec::new(alloc));
    for number in numbers {
        valid.push(number.is_some())?;
        let wide = number.unwrap_or(0).to_le_bytes();
        match ty.bits {
            Width::W8 => bytes.extend_from_slice(&wide[..1])?,
            Width::W16 => bytes.extend_from_slice(&wide[..2])?,
            Width::W32 => bytes.extend_from_slice(&wide[..4])?,
            Width::W64 => bytes.extend_from_slice(&wide[..8])?,
        }
    }
    let bits = bits_of(alloc, &valid)?;
    let positions = [Some(bits.bytes()), Some(bytes.as_slice())];
    raw(alloc, DataType::Int(ty), valid.len() as u64, &positions)
}

/// The parts of a column of these truth values.
pub fn raw_bools(alloc: Global, bools: &[Option<bool>]) -> Result<RawArray, Fail> {
    let (mut valid, mut values) = (Vec::new(alloc), Vec::new(alloc));
    for value in bools {
        valid.push(value.is_some())?;
        values.push(value.unwrap_or(false))?;
    }
    let (bits, values) = (bits_of(alloc, &valid)?, bits_of(alloc, &values)?);
    let positions = [Some(bits.bytes()), Some(values.bytes())];
    raw(alloc, DataType::Bool, valid.len() as u64, &positions)
}

/// The parts of a column of these texts, whose offsets are of a width.
pub fn raw_texts(
    alloc: Global,
    width: OffsetWidth,
    texts: &[Option<&str>],
) -> Result<RawArray, Fail> {
    let (mut valid, mut offsets, mut bytes) = (Vec::new(alloc), Vec::new(alloc), Vec::new(alloc));
    push_offset(&mut offsets, width, 0)?;
    for text in texts {
        valid.push(text.is_some())?;
        bytes.extend_from_slice(text.unwrap_or("").as_bytes())?;
        push_offset(&mut offsets, width, bytes.len())?;
    }
    let bits = bits_of(alloc, &valid)?;
    let positions = [
        Some(bits.bytes()),
        Some(offsets.as_slice()),
        Some(bytes.as_slice()),
    ];
    let ty = DataType::of_texts(width);
    raw(alloc, ty, valid.len() as u64, &positions)
}

/// Adds an offset of a width at the end.
fn push_offset(bytes: &mut Vec<u8>, width: OffsetWidth, offset: usize) -> Result<(), Fail> {
    let wide = offset.to_le_bytes();
    match width {
        OffsetWidth::Narrow => bytes.extend_from_slice(&wide[..4])?,
        OffsetWidth::Wide => bytes.extend_from_slice(&wide)?,
    }
    Ok(())
}

/// A bit for each slot that is valid.
fn bits_of(alloc: Global, valid: &[bool]) -> Result<Buffer, Fail> {
    Ok(BitmapBuf::from_bools(alloc, valid)?.into_buffer())
}
