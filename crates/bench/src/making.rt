//! What columns and batches are made of: each value follows from its row.

use arrays::{
    Array, BitmapBuf, Buffer, DataType, Field, INT64, RawArray, RecordBatch, Schema, validate,
};
use std::alloc::Global;

/// How the number of a row follows from it.
#[derive(Clone, Copy)]
pub(crate) enum Rule {
    /// In no order, from a salt on; so many differ.
    Spread(u32, u32),
    /// The same of each two rows together.
    Pairs(u32, u32),
    /// The row itself, but of the first rows, so many, numbers from another on.
    Rising(u32, u32),
}

impl Rule {
    /// The number of a row.
    fn of(self, row: u32) -> u32 {
        match self {
            Rule::Spread(salt, distinct) => among(row.wrapping_add(salt), distinct),
            Rule::Pairs(salt, distinct) => among((row / 2).wrapping_add(salt), distinct),
            Rule::Rising(fresh, first) if row < fresh => first.wrapping_add(row),
            Rule::Rising(_, _) => row,
        }
    }
}

/// A number that follows from its place, of so many, or of all of 32 bits where these are none.
fn among(place: u32, distinct: u32) -> u32 {
    let number = place.wrapping_mul(2_654_435_761);
    number.checked_rem(distinct).unwrap_or(number)
}

/// Which slots of a column are null.
#[derive(Clone, Copy)]
pub(crate) enum Nulls {
    /// None is.
    Never,
    /// Each twentieth is: where a row and this number together are a multiple of 20.
    Sparse(u32),
}

/// A column of numbers of 64 bits.
pub(crate) fn longs(alloc: Global, rows: u32, nulls: Nulls, rule: Rule) -> Option<Array> {
    let mut bytes = Vec::with_capacity(alloc, 8 * rows as usize + 63).ok()?;
    for row in 0..rows {
        let number = i64::from(rule.of(row));
        bytes.extend_from_slice(&number.to_le_bytes()).ok()?;
    }
    column(alloc, DataType::Int(INT64), rows, nulls, bytes)
}

/// A column of numbers of 32 bits.
pub(crate) fn shorts(
    alloc: Global,
    ty: DataType,
    rows: u32,
    nulls: Nulls,
    rule: Rule,
) -> Option<Array> {
    let mut bytes = Vec::with_capacity(alloc, 4 * rows as usize + 63).ok()?;
    for row in 0..rows {
        bytes.extend_from_slice(&rule.of(row).to_le_bytes()).ok()?;
    }
    column(alloc, ty, rows, nulls, bytes)
}

/// A column of truth values: the highest byte of each number has eight.
pub(crate) fn truths(alloc: Global, rows: u32, nulls: Nulls, rule: Rule) -> Option<Array> {
    let count = rows / 8 + 1;
    let mut bytes = Vec::with_capacity(alloc, count as usize + 63).ok()?;
    for place in 0..count {
        bytes.push((rule.of(place) >> 24) as u8).ok()?;
    }
    column(alloc, DataType::Bool, rows, nulls, bytes)
}

/// A column of the digits of numbers.
pub(crate) fn digits(alloc: Global, rows: u32, nulls: Nulls, rule: Rule) -> Option<Array> {
    let mut offsets = Vec::with_capacity(alloc, 4 * rows as usize + 67).ok()?;
    let mut bytes = Vec::new(alloc);
    offsets.extend_from_slice(&[0; 4]).ok()?;
    for row in 0..rows {
        let digits = rule.of(row).to_string(alloc).ok()?;
        bytes.extend_from_slice(digits.as_bytes()).ok()?;
        let end = u32::try_from(bytes.len()).ok()?;
        offsets.extend_from_slice(&end.to_le_bytes()).ok()?;
    }
    let buffers = vec![in alloc;
        validity(alloc, rows, nulls)?,
        Some(Buffer::from_vec(offsets).ok()?),
        Some(Buffer::from_vec(bytes).ok()?),
    ]
    .ok()?;
    array(alloc, DataType::Utf8, rows, buffers)
}

/// A column whose values lie behind one another.
fn column(alloc: Global, ty: DataType, rows: u32, nulls: Nulls, values: Vec<u8>) -> Option<Array> {
    let values = Some(Buffer::from_vec(values).ok()?);
    let buffers = vec![in alloc; validity(alloc, rows, nulls)?, values].ok()?;
    array(alloc, ty, rows, buffers)
}

/// The bitmap of so many rows, if there is need of one; none, where memory ran out.
fn validity(alloc: Global, rows: u32, nulls: Nulls) -> Option<Option<Buffer>> {
    let Nulls::Sparse(salt) = nulls else {
        return Some(None);
    };
    let mut valid = Vec::with_capacity(alloc, rows as usize).ok()?;
    for row in 0..rows {
        valid.push(!row.wrapping_add(salt).is_multiple_of(20)).ok()?;
    }
    Some(Some(BitmapBuf::from_bools(alloc, &valid).ok()?.into_buffer()))
}

/// The array of these buffers.
fn array(alloc: Global, ty: DataType, rows: u32, buffers: Vec<Option<Buffer>>) -> Option<Array> {
    let raw = RawArray {
        ty,
        length: u64::from(rows),
        null_count: None,
        buffers,
        children: Vec::new(alloc),
        dictionary: None,
    };
    validate(alloc, raw).ok()
}

/// The batch of columns that go by these names, all of which may hold nulls.
pub(crate) fn batch(
    alloc: Global,
    names: &[&str],
    rows: u32,
    columns: Vec<Array>,
) -> Option<RecordBatch> {
    let mut fields = Vec::new(alloc);
    for (name, column) in names.iter().zip(columns.iter()) {
        fields
            .push(field(alloc, *name, column.ty().copy(alloc).ok()?)?)
            .ok()?;
    }
    RecordBatch::new(Schema::new(fields).ok()?, rows, columns).ok()
}

/// A field that may hold nulls.
pub(crate) fn field(alloc: Global, name: &str, ty: DataType) -> Option<Field> {
    Field::nullable(alloc, name, ty).ok()
}
