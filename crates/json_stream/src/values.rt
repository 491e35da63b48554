//! DATA: the values of a column's slots.

ghost use Rattle.std.specs.Prelude.{◌≡◌, ◌<◌, ◌≤◌, List, [], length, drop, None, Some, IfOk, IsTrue, OnErr};
ghost use Rattle.arrays.specs.Prelude.{kind_of, most_slots, out-Field};
ghost use Rattle.arrays.specs.Kind as kind;
ghost use Rattle.json_read.specs.Prelude.{Data, array, coding_of, no_items};
ghost use Rattle.json_stream.specs.Cursor.{HasValue, HasValues, IsBehind};
ghost use Rattle.json_stream.specs.Field.{coding_in, kind_in};
ghost use Rattle.json_stream.specs.Slots.{IsSlotAdded, HoldsSlots, is_slotted, spelling_at};

use crate::cursor::Cursor;
use crate::field::EncodedField;
use crate::slots::{CodeColumn, IntColumn, SlotBuilder, TextColumn};
use crate::validity::valid_at;
use arrays::{
    Array, BitmapBuf, BoolBuilder, DataType, Field, INT32, IntBuilder, MOST_SLOTS, NoMemory,
    OffsetWidth, TextBuilder,
};
use json_read::Coding;
use json_scan::{ItemVisitor, Miss, Placed, ScanResult, pass_over, read_array};
use std::alloc::Global;

/// Adds a slot by the value that stands here, or after spaces, and gives the place behind it. Under a null the value is passed over, whatever it
/// is.
#[inline]
fn push_slot<B: SlotBuilder>(
    builder: &mut B,
    valid: Option<bool>,
    cursor: Cursor,
) -> Result<usize, Miss>
    requires room { length (B.items builder.old) < most_slots }
    ensures kind { B.kind builder.new ≡ B.kind builder.old }
    ensures coding { B.coding builder.new ≡ B.coding builder.old }
    ensures ok { IfOk result (λ end. HasValue cursor.entry end (λ d. IsSlotAdded (spelling_at (B.kind builder.old) (B.coding builder.old)) valid d (B.items builder.old) (B.items builder.new))) }
    ensures err { OnErr result (B.items builder.new ≡ B.items builder.old) }
    ensures onward { IfOk result (IsBehind cursor.entry) }
{
    match valid {
        Some(true) => return builder.push_value(cursor.text, cursor.at),
        Some(false) => {}
        None => return Err(Miss::Unread),
    }
    let end = pass_over(cursor.text, cursor.at, cursor.depth)?;
    match builder.push_null() {
        Ok(()) => Ok(end),
        Err(NoMemory) => Err(Miss::NoMemory),
    }
}

/// The slots so far.
#[derive(Drop)]
struct Slots<'v, B: SlotBuilder> {
    builder: B,
    validity: &'v Option<BitmapBuf>,
    count: usize,
    ghost counted: { length (B.items builder) ≡ count },
}

impl<'v, B: SlotBuilder> ItemVisitor for Slots<'v, B> {
    ghost use Rattle.std.specs.Prelude.{◌≡◌};
    ghost use Rattle.json_stream.specs.Slots.{AreSlots, spelling_at};

    ghost holds = { λ text depth first ds now. (B.kind now.builder ≡ B.kind first.builder) × (B.coding now.builder ≡ B.coding first.builder)
        × (now.validity ≡ first.validity)
        × AreSlots (spelling_at (B.kind first.builder) (B.coding first.builder)) first.validity.now ds (B.items now.builder) };

    #[inline]
    fn visit(&mut self, text: &str, at: usize, depth: usize) -> Result<usize, Miss> {
        if self.count >= MOST_SLOTS {
            return Err(Miss::Unread);
        }
        let valid = valid_at(self.validity, self.count);
        match push_slot(&mut self.builder, valid, Cursor { text, at, depth }) {
            Ok(end) => {
                self.count += 1;
                Ok(end)
            }
            Err(miss) => Err(miss),
        }
    }
}

/// The array of the values that stand here, or after spaces, by a column that has none yet.
fn read_slots<B: SlotBuilder>(
    builder: B,
    validity: &Option<BitmapBuf>,
    cursor: Cursor,
) -> ScanResult<Array>
    requires empty { B.items builder ≡ [] }
    requires slotted { IsTrue (is_slotted (B.kind builder) (B.coding builder)) }
    ensures ok { IfOk result (λ r. HasValues cursor.entry r.end (λ ds. HoldsSlots (B.kind builder) (B.coding builder) validity.now ds r.value)) }
    ensures onward { IfOk result (λ r. IsBehind cursor.entry r.end) }
{
    let mut slots = Slots {
        builder,
        validity,
        count: 0,
    };
    let end = read_array(cursor.text, cursor.at, cursor.depth, &mut slots)?;
    match slots.builder.finish() {
        Ok(array) => Ok(Placed { value: array, end }),
        Err(NoMemory) => Err(Miss::NoMemory),
    }
}

/// How many slots have a flag: so many are known to come.
fn flagged(validity: &Option<BitmapBuf>) -> usize
    ensures { result ≤ most_slots }
{
    match validity {
        Some(bits) => bits.bits().len().min(MOST_SLOTS),
        None => 0,
    }
}

/// The array of the texts that stand here, or after spaces, with offsets of this width.
fn read_texts(
    alloc: Global,
    width: OffsetWidth,
    validity: &Option<BitmapBuf>,
    cursor: Cursor,
) -> ScanResult<Array>
    ensures ok { IfOk result (λ r. HasValues cursor.entry r.end (λ ds. HoldsSlots (kind.texts width) None validity.now ds r.value)) }
    ensures onward { IfOk result (λ r. IsBehind cursor.entry r.end) }
{
    let builder = match TextBuilder::with_capacity(alloc, width, flagged(validity), 0) {
        Ok(builder) => builder,
        Err(NoMemory) => return Err(Miss::NoMemory),
    };
    let buffer = Vec::new(alloc);
    read_slots(TextColumn { builder, buffer }, validity, cursor)
}

/// The same of indices into a dictionary.
fn read_codes(
    alloc: Global,
    coding: &Coding,
    validity: &Option<BitmapBuf>,
    cursor: Cursor,
) -> ScanResult<Array>
    ensures ok { IfOk result (λ r. HasValues cursor.entry r.end (λ ds. HoldsSlots kind.dict (Some (coding_of coding.now)) validity.now ds r.value)) }
    ensures onward { IfOk result (λ r. IsBehind cursor.entry r.end) }
{
    let entries = coding.words.view().slots();
    let builder = match IntBuilder::with_capacity(alloc, INT32, flagged(validity)) {
        Ok(builder) => builder,
        Err(NoMemory) => return Err(Miss::NoMemory),
    };
    let codes = CodeColumn {
        coding,
        entries,
        builder,
    };
    read_slots(codes, validity, cursor)
}

/// The array of the values that stand here, or after spaces, of a column that isn't encoded. Lists aren't read.
fn read_plain(
    alloc: Global,
    field: &Field,
    validity: &Option<BitmapBuf>,
    cursor: Cursor,
) -> ScanResult<Array>
    ensures ok { IfOk result (λ r. HasValues cursor.entry r.end (λ ds. HoldsSlots (kind_of (out-Field field.now).ty) None validity.now ds r.value)) }
    ensures onward { IfOk result (λ r. IsBehind cursor.entry r.end) }
{
    match &field.ty {
        DataType::Int(ty) => match IntBuilder::with_capacity(alloc, *ty, flagged(validity)) {
            Ok(builder) => read_slots(IntColumn { ty: *ty, builder }, validity, cursor),
            Err(NoMemory) => Err(Miss::NoMemory),
        },
        DataType::Bool => match BoolBuilder::with_capacity(alloc, flagged(validity)) {
            Ok(builder) => read_slots(builder, validity, cursor),
            Err(NoMemory) => Err(Miss::NoMemory),
        },
        DataType::Utf8 => read_texts(alloc, OffsetWidth::Narrow, validity, cursor),
        DataType::LargeUtf8 => read_texts(alloc, OffsetWidth::Wide, validity, cursor),
        DataType::List(_) | DataType::LargeList(_) | DataType::Dict => Err(Miss::Unread),
    }
}

/// The values that stand here, or after spaces, as an array of the field's type. Lists aren't read.
pub(crate) fn read_values(
    alloc: Global,
    field: EncodedField,
    validity: &Option<BitmapBuf>,
    cursor: Cursor,
) -> ScanResult<Array>
    ensures ok { IfOk result (λ r. HasValues cursor.entry r.end (λ ds. HoldsSlots (kind_in field.entry) (coding_in field.entry) validity.now ds r.value)) }
    ensures onward { IfOk result (λ r. IsBehind cursor.entry r.end) }
{
    let Some(coding) = field.coding else {
        return read_plain(alloc, field.field, validity, cursor);
    };
    match &field.field.ty {
        DataType::Dict => read_codes(alloc, coding, validity, cursor),
        DataType::Int(_)
        | DataType::Bool
        | DataType::Utf8
        | DataType::LargeUtf8
        | DataType::List(_)
        | DataType::LargeList(_) => Err(Miss::Unread),
    }
}
