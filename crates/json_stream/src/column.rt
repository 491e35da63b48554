//! Column objects: their members in any order, of those of one name the last.

ghost use Rattle.std.specs.Prelude.{◌≡◌, ◌<◌, ◌≤◌, length, drop, List, Option, Some, option_map, IfOk, IfSome, IsTrue};
ghost use Rattle.arrays.specs.Prelude.{kind_of, out-Field};
ghost use Rattle.json_read.specs.Prelude.{Data, HoldsColumn, HoldsTop, Members, coding_of, object};
ghost use Rattle.json_scan.specs.Spelling.{SpellsAt};
ghost use Rattle.json_stream.specs.Column.{HoldsParts, IsValues, StandsOn};
ghost use Rattle.json_stream.specs.Cursor.{HasAt, HasValue, IsBehind};
ghost use Rattle.json_stream.specs.Field.{coding_in, kind_in};

use crate::cursor::Cursor;
use crate::field::EncodedField;
use crate::list::read_list;
use crate::natural::read_count;
use crate::validity::read_validity;
use crate::values::read_values;
use arrays::{Array, BitmapBuf, DataType, Field, OffsetWidth};
use json_read::{Coding, Member};
use json_scan::{
    Container, MemberVisitor, Miss, Placed, ScanResult, ends_in, pass_over, read_object,
};
use std::alloc::Global;

/// Where a value stands.
#[derive(Clone, Copy, Drop, PartialEq, Eq)]
pub struct Stretch {
    pub start: usize,
    pub end: usize,
}

/// Where the value of a member stands, which begins at the cursor and ends there. It is no key: no colon follows.
pub fn member_stretch(cursor: Cursor, end: usize) -> Result<Stretch, Miss>
    requires { end ≤ length cursor.text.now }
    ensures end { IfOk result (λ s. s.end ≡ end) }
    ensures stands { IfOk result (λ s. (d : Data) → HasAt cursor.entry d end → StandsOn cursor.entry.depth cursor.entry.text.now (Some d) (Some s)) }
{
    if ends_in(cursor.text, end, Container::Object) {
        Ok(Stretch {
            start: cursor.at,
            end,
        })
    } else {
        Err(Miss::Unread)
    }
}

/// What has been read of a column object.
#[derive(Drop)]
pub(crate) struct ColumnParts<'f> {
    alloc: Global,
    field: EncodedField<'f>,
    pub count: Option<u32>,
    /// None where all slots are valid.
    pub validity: Option<BitmapBuf>,
    /// Where DATA stands.
    pub place: Option<Stretch>,
    /// The values of DATA, if it stands behind the flags; else it is read once all members are known.
    pub values: Option<Array>,
}

/// The values that stand here, or after spaces, where flags are known; else they are passed over.
fn read_or_pass(
    alloc: Global,
    field: EncodedField,
    validity: &Option<BitmapBuf>,
    cursor: Cursor,
) -> ScanResult<Option<Array>>
    ensures ok { IfOk result (λ r. HasValue cursor.entry r.end (λ d. IsValues (kind_in field.entry) (coding_in field.entry) validity.now (Some d) r.value)) }
    ensures onward { IfOk result (λ r. IsBehind cursor.entry r.end) }
{
    if validity.is_some() {
        let values = read_values(alloc, field, validity, cursor)?;
        return Ok(Placed {
            value: Some(values.value),
            end: values.end,
        });
    }
    let end = pass_over(cursor.text, cursor.at, cursor.depth)?;
    Ok(Placed { value: None, end })
}

impl MemberVisitor for ColumnParts<'_> {
    ghost use Rattle.std.specs.Prelude.{◌≡◌};
    ghost use Rattle.json_stream.specs.Column.{HoldsParts};
    ghost use Rattle.json_stream.specs.Field.{coding_in, kind_in};

    ghost holds = { λ text depth first ms now. (now.field ≡ first.field)
        × HoldsParts (kind_in first.field) (coding_in first.field) depth text ms now };

    fn visit(&mut self, text: &str, name: &str, at: usize, depth: usize) -> Result<usize, Miss> {
        let cursor = Cursor { text, at, depth };
        if name == Member::Count.name() {
            let count = read_count(cursor)?;
            self.count = Some(count.value);
            return Ok(count.end);
        }
        if name == Member::Validity.name() {
            let validity = read_validity(self.alloc, cursor)?;
            self.validity = validity.value;
            self.values = None;
            return Ok(validity.end);
        }
        if name == Member::Data.name() {
            let data = read_or_pass(self.alloc, self.field, &self.validity, cursor)?;
            let place = member_stretch(cursor, data.end)?;
            self.place = Some(place);
            self.values = data.value;
            return Ok(data.end);
        }
        pass_over(text, at, depth)
    }
}

/// The values of DATA, which stands there.
fn values_at(
    alloc: Global,
    field: EncodedField,
    validity: &Option<BitmapBuf>,
    text: &str,
    place: Option<Stretch>,
    depth: usize,
) -> Result<Array, Miss>
    ensures { IfOk result (λ a. (found : Option Data) → StandsOn depth text.now found place
        → IsValues (kind_in field.entry) (coding_in field.entry) validity.now found (Some a)) }
{
    let Some(place) = place else {
        return Err(Miss::Unread);
    };
    let at = place.start;
    if at > text.len() {
        return Err(Miss::Unread);
    }
    match read_values(alloc, field, validity, Cursor { text, at, depth }) {
        Ok(values) if values.end == place.end => Ok(values.value),
        Ok(_) => Err(Miss::Unread),
        Err(miss) => Err(miss),
    }
}

/// Whether there are so many flags, or none.
pub(crate) fn are_flags_of(validity: &Option<BitmapBuf>, count: usize) -> bool
    ensures { IsTrue result → IfSome validity.now (λ bits. length bits ≡ count) }
{
    match validity {
        None => true,
        Some(bits) => bits.bits().len() == count,
    }
}

/// The array, if the count and the flags are of as many slots.
fn if_whole(count: Option<u32>, validity: &Option<BitmapBuf>, array: Array) -> Result<Array, Miss>
    ensures { IfOk result (λ a. (a ≡ array) × (count ≡ Some (length a.items))
        × IfSome validity.now (λ bits. length bits ≡ length a.items)) }
{
    let Some(count) = count else {
        return Err(Miss::Unread);
    };
    if array.len() == count as usize && are_flags_of(validity, array.len()) {
        Ok(array)
    } else {
        Err(Miss::Unread)
    }
}

/// The column of these parts.
fn column_of(parts: ColumnParts, text: &str, depth: usize) -> Result<Array, Miss>
    ensures { IfOk result (λ a. (ms : Members)
        → HoldsParts (kind_in parts.entry.field) (coding_in parts.entry.field) depth text.now ms parts.entry
        → HoldsTop (kind_in parts.entry.field) (coding_in parts.entry.field) (length a.items) (object ms) a) }
{
    let ColumnParts {
        alloc,
        field,
        count,
        validity,
        place,
        values,
    } = parts;
    if let Some(array) = values {
        return if_whole(count, &validity, array);
    }
    let array = values_at(alloc, field, &validity, text, place, depth)?;
    if_whole(count, &validity, array)
}

/// The column that stands here, or after spaces, as an array of the field's type: of integers, truth values, texts, or indices into the dictionary
/// of the coding. A field that is a dictionary has a coding, and no other has one: else nothing is read.
fn read_slotted(
    alloc: Global,
    field: &Field,
    coding: &Option<Coding>,
    cursor: Cursor,
) -> ScanResult<Array>
    ensures ok { IfOk result (λ r. HasValue cursor.entry r.end (λ d. HoldsTop (kind_of (out-Field field.now).ty) (option_map coding_of coding.now) (length r.value.items) d r.value)) }
    ensures onward { IfOk result (λ r. IsBehind cursor.entry r.end) }
{
    let mut parts = ColumnParts {
        alloc,
        field: EncodedField { field, coding },
        count: None,
        validity: None,
        place: None,
        values: None,
    };
    let end = read_object(alloc, cursor.text, cursor.at, cursor.depth, &mut parts)?;
    let value = column_of(parts, cursor.text, cursor.depth.saturating_sub(1))?;
    Ok(Placed { value, end })
}

/// The same without a coding.
pub(crate) fn read_plain(alloc: Global, field: &Field, cursor: Cursor) -> ScanResult<Array>
    ensures ok { IfOk result (λ r. HasValue cursor.entry r.end (λ d. HoldsColumn (kind_of (out-Field field.now).ty) (length r.value.items) d r.value)) }
    ensures onward { IfOk result (λ r. IsBehind cursor.entry r.end) }
{
    read_slotted(alloc, field, &None, cursor)
}

/// The column that stands here, or after spaces, as an array of the field's type. One of a dictionary isn't read.
#[cycle(columns)]
pub(crate) fn read_uncoded(alloc: Global, field: &Field, cursor: Cursor) -> ScanResult<Array>
    ensures ok { IfOk result (λ r. HasValue cursor.entry r.end (λ d. HoldsColumn (kind_of (out-Field field.now).ty) (length r.value.items) d r.value)) }
    ensures onward { IfOk result (λ r. IsBehind cursor.entry r.end) }
{
    match &field.ty {
        DataType::List(item) => read_list(alloc, OffsetWidth::Narrow, item, cursor),
        DataType::LargeList(item) => read_list(alloc, OffsetWidth::Wide, item, cursor),
        DataType::Int(_) | DataType::Bool | DataType::Utf8 | DataType::LargeUtf8 | DataType::Dict =>
            read_plain(alloc, field, cursor),
    }
}

/// The column that stands here, or after spaces, as an array of the field's type, by its coding where it is encoded. A field that is a dictionary
/// has a coding, and no other has one: else nothing is read.
pub fn read_column(
    alloc: Global,
    field: &Field,
    coding: &Option<Coding>,
    text: &str,
    at: usize,
    depth: usize,
) -> ScanResult<Array>
    requires { at ≤ length text.now }
    ensures ok { IfOk result (λ r. (d : Data) × SpellsAt depth (drop at text.now) d (drop r.end text.now)
        × HoldsTop (kind_of (out-Field field.now).ty) (option_map coding_of coding.now) (length r.value.items) d r.value) }
    ensures onward { IfOk result (λ r. at < r.end) }
    ensures within { IfOk result (λ r. r.end ≤ length text.now) }
{
    let cursor = Cursor { text, at, depth };
    if coding.is_some() {
        return read_slotted(alloc, field, coding, cursor);
    }
    read_uncoded(alloc, field, cursor)
}
