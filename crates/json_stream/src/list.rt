//! Columns of lists: their members in any order, of those of one name the last.

ghost use Rattle.std.specs.Prelude.{◌≡◌, ◌-◌, ◌<◌, ◌≤◌, ◌||◌, ◌&&◌, ◌==◌, ◌+◌, false, true, length, drop, Some, IfOk, IfSome, option_and_then};
ghost use Rattle.arrays.specs.Prelude.{IsBufferOf, is_validity_short, kept, kind_of, list_parts, out-Field, same_kind};
ghost use Rattle.arrays.specs.Kind as kind;
ghost use Rattle.json_read.specs.Prelude.{Data, HoldsColumn, Members, are_enough, lists_fault, object};
ghost use Rattle.json_stream.specs.Cursor.{HasAt, HasValue, IsBehind};
ghost use Rattle.json_stream.specs.Lists.{HoldsChild, HoldsLists, IsOnStretch, array_of_one};

use crate::column::{Stretch, are_flags_of, read_plain, read_uncoded};
use crate::cursor::Cursor;
use crate::natural::read_count;
use crate::offsets::{Offsets, read_offsets};
use crate::validity::read_validity;
use arrays::{
    Array, BitmapBuf, Buffer, DataType, Field, LayoutFault, NoMemory, OffsetSlots, OffsetWidth,
};
use json_read::Member;
use json_scan::{
    Container, ItemVisitor, MemberVisitor, Miss, Placed, ScanResult, ends_in, pass_over,
    read_array, read_object,
};
use std::alloc::Global;

/// The child of a column of lists.
#[derive(Drop)]
pub(crate) enum Child {
    Read(Array),
    /// Where it stands: a column of lists in its turn, which is read once all members are known.
    At(Stretch),
}

/// The place of the child that stands here, or after spaces.
fn find_child(cursor: Cursor) -> ScanResult<Stretch>
    ensures ok { IfOk result (λ r. HasValue cursor.entry r.end (λ d. IsOnStretch cursor.entry.depth cursor.entry.text.now d r.value)) }
    ensures onward { IfOk result (λ r. IsBehind cursor.entry r.end) }
{
    let end = pass_over(cursor.text, cursor.at, cursor.depth)?;
    if !ends_in(cursor.text, end, Container::Array) {
        return Err(Miss::Unread);
    }
    Ok(Placed {
        value: Stretch {
            start: cursor.at,
            end,
        },
        end,
    })
}

/// The child that stands here, or after spaces: one of lists is passed over.
fn read_or_find(alloc: Global, item: &Field, cursor: Cursor) -> ScanResult<Child>
    ensures ok { IfOk result (λ r. HasValue cursor.entry r.end (λ d. HoldsChild (kind_of (out-Field item.now).ty) cursor.entry.depth cursor.entry.text.now d r.value)) }
    ensures onward { IfOk result (λ r. IsBehind cursor.entry r.end) }
{
    if let DataType::List(_) | DataType::LargeList(_) = &item.ty {
        let found = find_child(cursor)?;
        return Ok(Placed {
            value: Child::At(found.value),
            end: found.end,
        });
    }
    let read = read_plain(alloc, item, cursor)?;
    Ok(Placed {
        value: Child::Read(read.value),
        end: read.end,
    })
}

/// The child, once it is there.
#[derive(Drop)]
struct Children<'f> {
    alloc: Global,
    item: &'f Field,
    child: Option<Child>,
}

impl ItemVisitor for Children<'_> {
    ghost use Rattle.std.specs.Prelude.{◌≡◌};
    ghost use Rattle.arrays.specs.Prelude.{kind_of, out-Field};
    ghost use Rattle.json_stream.specs.Lists.{HoldsOnlyChild};

    ghost holds = { λ text depth first ds now. (now.item ≡ first.item)
        × HoldsOnlyChild (kind_of (out-Field first.item.now).ty) depth text ds now.child };

    fn visit(&mut self, text: &str, at: usize, depth: usize) -> Result<usize, Miss> {
        if self.child.is_some() {
            return Err(Miss::Unread);
        }
        let child = read_or_find(self.alloc, self.item, Cursor { text, at, depth })?;
        self.child = Some(child.value);
        Ok(child.end)
    }
}

/// The children that stand here, or after spaces: an array of exactly one.
fn read_children(alloc: Global, item: &Field, cursor: Cursor) -> ScanResult<Child>
    ensures ok { IfOk result (λ r. (d : Data) × HasAt cursor.entry (array_of_one d) r.end
        × HoldsChild (kind_of (out-Field item.now).ty) (cursor.entry.depth - 1) cursor.entry.text.now d r.value) }
    ensures onward { IfOk result (λ r. IsBehind cursor.entry r.end) }
{
    let mut children = Children {
        alloc,
        item,
        child: None,
    };
    let end = read_array(cursor.text, cursor.at, cursor.depth, &mut children)?;
    let Children { child, .. } = children;
    let Some(value) = child else {
        return Err(Miss::Unread);
    };
    Ok(Placed { value, end })
}

/// What has been read of a column object of lists.
#[derive(Drop)]
pub(crate) struct ListParts {
    pub count: Option<u32>,
    /// None where all lists are valid.
    pub validity: Option<BitmapBuf>,
    pub offsets: Option<Offsets>,
    pub child: Option<Child>,
}

/// Takes the members of a column object of lists.
#[derive(Drop)]
struct ListMembers<'f> {
    alloc: Global,
    width: OffsetWidth,
    item: &'f Field,
    parts: ListParts,
}

impl MemberVisitor for ListMembers<'_> {
    ghost use Rattle.std.specs.Prelude.{◌≡◌};
    ghost use Rattle.arrays.specs.Prelude.{kind_of, out-Field};
    ghost use Rattle.json_stream.specs.Lists.{HoldsLists};

    ghost holds = { λ text depth first ms now. (now.width ≡ first.width) × (now.item ≡ first.item)
        × HoldsLists first.width (kind_of (out-Field first.item.now).ty) depth text ms now.parts };

    fn visit(&mut self, text: &str, name: &str, at: usize, depth: usize) -> Result<usize, Miss> {
        let cursor = Cursor { text, at, depth };
        if name == Member::Count.name() {
            let count = read_count(cursor)?;
            self.parts.count = Some(count.value);
            return Ok(count.end);
        }
        if name == Member::Validity.name() {
            let validity = read_validity(self.alloc, cursor)?;
            self.parts.validity = validity.value;
            return Ok(validity.end);
        }
        if name == Member::Offset.name() {
            let offsets = read_offsets(self.alloc, self.width, cursor)?;
            self.parts.offsets = Some(offsets.value);
            return Ok(offsets.end);
        }
        if name == Member::Children.name() {
            let child = read_children(self.alloc, self.item, cursor)?;
            self.parts.child = Some(child.value);
            return Ok(child.end);
        }
        pass_over(text, at, depth)
    }
}

/// The parts of the column of lists that stands here, or after spaces.
fn read_parts(
    alloc: Global,
    width: OffsetWidth,
    item: &Field,
    cursor: Cursor,
) -> ScanResult<ListParts>
    ensures ok { IfOk result (λ r. (ms : Members) × HasAt cursor.entry (object ms) r.end
        × HoldsLists width (kind_of (out-Field item.now).ty) (cursor.entry.depth - 1) cursor.entry.text.now ms r.value) }
    ensures onward { IfOk result (λ r. IsBehind cursor.entry r.end) }
{
    let mut members = ListMembers {
        alloc,
        width,
        item,
        parts: ListParts {
            count: None,
            validity: None,
            offsets: None,
            child: None,
        },
    };
    let end = read_object(alloc, cursor.text, cursor.at, cursor.depth, &mut members)?;
    Ok(Placed {
        value: members.parts,
        end,
    })
}

/// The buffer of a validity, none where each list is valid.
fn kept_buffer(validity: Option<BitmapBuf>) -> Option<Buffer>
    ensures { IsBufferOf result (option_and_then kept validity) }
{
    let Some(flags) = validity else {
        return None;
    };
    if flags.bits().are_ones() {
        return None;
    }
    Some(flags.into_buffer())
}

/// Whether so many offsets are those of `count` lists.
fn are_enough(count: u32, offsets: usize) -> bool
    ensures { result ≡ are_enough count offsets }
{
    offsets == count as usize + 1 || (count == 0 && offsets == 0)
}

/// The slots of a column, of as many flags as COUNT says, or none, and offsets for all.
fn slots_of(
    width: OffsetWidth,
    count: Option<u32>,
    validity: Option<BitmapBuf>,
    offsets: Offsets,
) -> Result<OffsetSlots, Miss>
    ensures width { IfOk result (λ s. s.width ≡ width) }
    ensures count { IfOk result (λ s. count ≡ Some s.len) }
    ensures whole { IfOk result (λ s. IfSome validity (λ bits. length bits ≡ s.len)) }
    ensures validity { IfOk result (λ s. IsBufferOf s.validity (option_and_then kept validity)) }
    ensures offsets { IfOk result (λ s. s.offsets ≡ offsets.bytes.items) }
    ensures enough { IfOk result (λ s. are_enough s.len offsets.len ≡ true) }
{
    let Some(len) = count else {
        return Err(Miss::Unread);
    };
    if !are_flags_of(&validity, len as usize) || !are_enough(len, offsets.len) {
        return Err(Miss::Unread);
    }
    match Buffer::from_vec(offsets.bytes) {
        Ok(bytes) => Ok(OffsetSlots {
            width,
            len,
            validity: kept_buffer(validity),
            offsets: bytes,
        }),
        Err(NoMemory) => Err(Miss::NoMemory),
    }
}

/// The array of lists over a child.
fn list_array(alloc: Global, item: &Field, slots: OffsetSlots, child: Array) -> Result<Array, Miss>
    requires kind { child.kind ≡ kind_of (out-Field item.now).ty }
    requires plain { same_kind child.kind kind.dict ≡ false }
    requires enough { is_validity_short slots.len slots.validity ≡ false }
    ensures lawful { IfOk result (λ _. lists_fault slots.width child.kind slots.len slots.offsets (length child.items) ≡ None) }
    ensures shows { IfOk result (λ a. a ≡ (list_parts slots.width child.kind slots.len slots.validity slots.offsets child).seen) }
{
    let Ok(item) = item.copy(alloc) else {
        return Err(Miss::NoMemory);
    };
    match Array::try_list(alloc, item, slots, child) {
        Ok(array) => Ok(array),
        Err(LayoutFault::NoMemory) => Err(Miss::NoMemory),
        Err(_) => Err(Miss::Unread),
    }
}

/// The array of a child, which is read where it stands if it hasn't been.
#[cycle(columns)]
fn child_array(
    alloc: Global,
    item: &Field,
    child: Child,
    text: &str,
    depth: usize,
) -> Result<Array, Miss>
    ensures { IfOk result (λ a. (d : Data) → HoldsChild (kind_of (out-Field item.now).ty) depth text.now d child
        → HoldsColumn (kind_of (out-Field item.now).ty) (length a.items) d a) }
{
    let place = match child {
        Child::Read(array) => return Ok(array),
        Child::At(place) => place,
    };
    let at = place.start;
    if at > text.len() {
        return Err(Miss::Unread);
    }
    match read_uncoded(alloc, item, Cursor { text, at, depth }) {
        Ok(read) if read.end == place.end => Ok(read.value),
        Ok(_) => Err(Miss::Unread),
        Err(miss) => Err(miss),
    }
}

/// The column of lists with offsets of this width that stands here, or after spaces.
#[cycle(columns)]
pub(crate) fn read_list(
    alloc: Global,
    width: OffsetWidth,
    item: &Field,
    cursor: Cursor,
) -> ScanResult<Array>
    ensures ok { IfOk result (λ r. HasValue cursor.entry r.end (λ d. HoldsColumn (kind.lists width (kind_of (out-Field item.now).ty)) (length r.value.items) d r.value)) }
    ensures onward { IfOk result (λ r. IsBehind cursor.entry r.end) }
{
    let read = read_parts(alloc, width, item, cursor)?;
    let ListParts {
        count,
        validity,
        offsets,
        child,
    } = read.value;
    let Some(offsets) = offsets else {
        return Err(Miss::Unread);
    };
    let Some(child) = child else {
        return Err(Miss::Unread);
    };
    let slots = slots_of(width, count, validity, offsets)?;
    let child = child_array(
        alloc,
        item,
        child,
        cursor.text,
        cursor.depth.saturating_sub(2),
    )?;
    let value = list_array(alloc, item, slots, child)?;
    Ok(Placed {
        value,
        end: read.end,
    })
}
