//! Columns of lists.

ghost use Rattle.std.specs.Prelude.{◌≡◌, ◌<◌, ◌^◌, ◌++◌, [], false, true, length, IfOk, IfErr, IfSome, OnErr, OnOk, Some, option_and_then};
ghost use Rattle.arrays.specs.Prelude.{IsOfType, bytes_of_number, is_validity_short, kind_of, list_parts, offset_type, out-Field, same_kind};
ghost use Rattle.arrays.specs.Kind as kind;
ghost use Rattle.json_base.specs.Prelude.{EachFault, IsFault, IsObject, ReadsEach, Tells, Unlike, as_array, flag_of, items_view, member_of, no_memory, view};
ghost use Rattle.json_read.specs.JsonBatch.{HoldsColumn};
ghost use Rattle.json_read.specs.JsonBatchFault.{KindFault};
ghost use Rattle.json_read.specs.JsonList.{HasListMembers, are_enough, lists_fault};
ghost use Rattle.json_read.specs.JsonListFault.{ChildFault, ListsFault, NoFlags, NoLists, NoOffset, NotLawful, OffsetsFault};
ghost use Rattle.json_read.specs.ListParts.{list_child, list_flags, list_offsets};
ghost use Rattle.json_read.specs.ListBuffers.{HoldsFlags, HoldsOffsets, IsFlag};
ghost use Rattle.json_base.specs.declared.fault.JsonFaultKind.TheVariants.{Layout};
ghost use Rattle.json_base.specs.declared.path.Member.TheVariants as member;

use crate::batch::read_array;
use crate::column::{check_count, flags, single_member};
use arrays::validity::buffer_of;
use arrays::{
    Array, Buffer, Field, IntType, Integer, LayoutFault, NoMemory, OffsetSlots, OffsetWidth,
    ValidityBuilder,
};
use json_base::member::{array_member, check_object, count_member};
use json_base::number::{flag, integer};
use json_base::{JsonFault, JsonFaultKind, Member, Step, Value};
use std::alloc::Global;

/// The flags, the offsets and the child of a column object of lists.
#[derive(Drop)]
struct ListParts<'v> {
    /// None where all lists are valid.
    flags: Option<&'v [Value]>,
    offsets: &'v [Value],
    child: &'v Value,
}

/// The offsets of `count` lists.
#[tactic(auto, using(crate::proofs::JsonLists::offsets_found))]
fn offsets_member<'v>(
    alloc: Global,
    column: &'v Value,
    count: u32,
) -> Result<&'v [Value], JsonFault>
    requires { IsObject (view column.now) }
    ensures items { IfOk result (λ items.
        option_and_then as_array (member_of member.Offset (view column.now)) ≡ Some (items_view items.now)) }
    ensures enough { IfOk result (λ items. are_enough count (length items.now) ≡ true) }
    ensures err { IfErr result (Tells (OffsetsFault count (view column.now))) }
{
    let offsets = array_member(alloc, column, Member::Offset)?;
    if offsets.len() == count as usize + 1 || (count == 0 && offsets.is_empty()) {
        Ok(offsets)
    } else {
        Err(JsonFault::at(
            alloc,
            JsonFaultKind::CountDiffers,
            &[Step::Member(Member::Offset)],
        ))
    }
}

/// The parts of a column of `count` lists.
#[tactic(auto, using(crate::proofs::JsonLists::parts_found))]
fn read_parts(alloc: Global, count: u32, column: &Value) -> Result<ListParts<'_>, JsonFault>
    ensures given { IfOk result (λ p. HasListMembers count (view column.now) (list_flags p) (list_offsets p) (list_child p)) }
    ensures flagged { IfOk result (λ p. IfSome p.flags (λ fs. length fs.now ≡ count)) }
    ensures err { IfErr result (Tells (NoLists count (view column.now))) }
{
    check_object(alloc, column)?;
    check_count(alloc, column, count)?;
    let flags = flags(alloc, column, count)?;
    let offsets = offsets_member(alloc, column, count)?;
    let child = single_member(alloc, column, Member::Children)?;
    Ok(ListParts {
        flags,
        offsets,
        child,
    })
}

/// The flags, one after another.
#[tactic(auto, using(crate::proofs::JsonLists::flags_faults))]
fn read_flags(alloc: Global, flags: &[Value]) -> Result<ValidityBuilder, JsonFault>
    requires short { length flags.now < 2 ^ 31 }
    ensures ok { IfOk result (ReadsEach IsFlag (items_view flags.now)) }
    ensures err { IfErr result (Tells (EachFault (Unlike flag_of) (items_view flags.now))) }
{
    let mut validity = ValidityBuilder::new(alloc);
    for (index, value) in flags.iter().enumerate() {
        let Some(valid) = flag(value) else {
            return Err(JsonFault::at(alloc, JsonFaultKind::WrongMember, &[Step::Item(index)]));
        };
        let Ok(()) = validity.push(valid) else {
            return Err(JsonFault::no_memory(alloc));
        };
    }
    Ok(validity)
}

/// The validity of `count` lists by their flags.
#[tactic(auto, using(crate::proofs::JsonLists::validity_faults))]
fn read_validity(alloc: Global, parts: &ListParts, count: u32) -> Result<Option<Buffer>, JsonFault>
    requires short { count < 2 ^ 31 }
    requires whole { IfSome parts.now.flags (λ fs. length fs.now ≡ count) }
    ensures ok { IfOk result (HoldsFlags (list_flags parts.now) count) }
    ensures err { IfErr result (Tells (NoFlags (list_flags parts.now))) }
{
    let Some(flags) = parts.flags else {
        return Ok(None);
    };
    let read = read_flags(alloc, flags);
    let validity = read.map_err(|fault| fault.under(alloc, Step::Member(Member::Validity)))?;
    match validity.finish() {
        Ok(bitmap) => Ok(buffer_of(bitmap)),
        Err(NoMemory) => Err(JsonFault::no_memory(alloc)),
    }
}

/// The type of offsets of this width.
pub fn offset_type(width: OffsetWidth) -> IntType
    ensures { result ≡ offset_type width }
{
    match width {
        OffsetWidth::Narrow => i32::ty(),
        OffsetWidth::Wide => i64::ty(),
    }
}

/// Adds the bytes of an offset at the end, which may be negative: of that the layout tells. A refused growth changes nothing.
pub fn push_offset(bytes: &mut Vec<u8>, width: OffsetWidth, offset: i128) -> Result<(), NoMemory>
    requires { IsOfType (offset_type width) offset }
    ensures ok { OnOk result (bytes.new.items ≡ bytes.old.items ++ bytes_of_number (offset_type width) offset) }
    ensures err { OnErr result (bytes.new.items ≡ bytes.old.items) }
{
    match width {
        OffsetWidth::Narrow => i32::push(bytes, offset),
        OffsetWidth::Wide => i64::push(bytes, offset),
    }
}

/// The bytes of the offsets, one after another.
#[tactic(auto, using(crate::proofs::JsonLists::offsets_faults))]
fn offset_bytes(alloc: Global, width: OffsetWidth, offsets: &[Value]) -> Result<Vec<u8>, JsonFault>
    ensures ok { IfOk result (λ bytes. HoldsOffsets width (items_view offsets.now) bytes.items) }
    ensures err { IfErr result (Tells (EachFault (NoOffset width) (items_view offsets.now))) }
{
    let ty = offset_type(width);
    let mut bytes = Vec::new(alloc);
    for (index, value) in offsets.iter().enumerate() {
        let Some(number) = integer(ty, value) else {
            return Err(JsonFault::at(alloc, JsonFaultKind::BadOffset, &[Step::Item(index)]));
        };
        let Ok(()) = push_offset(&mut bytes, width, number) else {
            return Err(JsonFault::no_memory(alloc));
        };
    }
    Ok(bytes)
}

/// The offsets in memory.
#[tactic(auto, using(crate::proofs::JsonLists::offsets_faults))]
fn read_offsets(alloc: Global, width: OffsetWidth, offsets: &[Value]) -> Result<Buffer, JsonFault>
    ensures ok { IfOk result (HoldsOffsets width (items_view offsets.now)) }
    ensures err { IfErr result (Tells (EachFault (NoOffset width) (items_view offsets.now))) }
{
    let bytes = offset_bytes(alloc, width, offsets)?;
    match Buffer::from_vec(bytes) {
        Ok(offsets) => Ok(offsets),
        Err(NoMemory) => Err(JsonFault::no_memory(alloc)),
    }
}

/// How a fault of the layout is reported.
#[cold]
fn layout_fault(alloc: Global, fault: LayoutFault) -> JsonFault
    ensures reported { IsFault (Layout fault) [] result }
    ensures wants { fault ≡ LayoutFault.NoMemory → result ≡ no_memory }
{
    if fault == LayoutFault::NoMemory {
        return JsonFault::no_memory(alloc);
    }
    JsonFault::at(alloc, JsonFaultKind::Layout(fault), &[])
}

/// The array of lists of these parts.
#[tactic(auto, using(crate::proofs::JsonLists::lists_made))]
fn list_array(
    alloc: Global,
    item: &Field,
    slots: OffsetSlots,
    child: Array,
) -> Result<Array, JsonFault>
    requires kind { child.kind ≡ kind_of (out-Field item.now).ty }
    requires plain { same_kind child.kind kind.dict ≡ false }
    requires enough { is_validity_short slots.len slots.validity ≡ false }
    ensures lawful { IfOk result (λ _. lists_fault slots.width child.kind slots.len slots.offsets (length child.items) ≡ None) }
    ensures shows { IfOk result (λ a. a ≡ (list_parts slots.width child.kind slots.len slots.validity slots.offsets child).seen) }
    ensures err { IfErr result (Tells (NotLawful slots.width child.kind slots.len slots.offsets (length child.items))) }
{
    let Ok(item) = item.copy(alloc) else {
        return Err(JsonFault::no_memory(alloc));
    };
    match Array::try_list(alloc, item, slots, child) {
        Ok(array) => Ok(array),
        Err(fault) => Err(layout_fault(alloc, fault)),
    }
}

/// The child of a column of lists: a column that has a count of its own.
#[cycle(columns)]
#[tactic(auto, using(crate::proofs::JsonLists::child_faults))]
fn read_child(alloc: Global, item: &Field, child: &Value) -> Result<Array, JsonFault>
    ensures ok { IfOk result (λ a. HoldsColumn (kind_of (out-Field item.now).ty) (length a.items) (view child.now) a) }
    ensures err { IfErr result (Tells (ChildFault (KindFault (kind_of (out-Field item.now).ty)) (view child.now))) }
{
    check_object(alloc, child)?;
    let rows = count_member(alloc, child, Member::Count)?;
    read_array(alloc, item, rows, child)
}

/// The column of `count` lists, with offsets of this width, that a column object holds.
#[cycle(columns)]
#[tactic(auto, using(crate::proofs::JsonLists::lists_faults))]
pub(crate) fn read_list(
    alloc: Global,
    width: OffsetWidth,
    item: &Field,
    count: u32,
    column: &Value,
) -> Result<Array, JsonFault>
    requires { count < 2 ^ 31 }
    ensures ok { IfOk result (HoldsColumn (kind.lists width (kind_of (out-Field item.now).ty)) count (view column.now)) }
    ensures err { IfErr result
        (Tells (ListsFault (KindFault (kind_of (out-Field item.now).ty)) width (kind_of (out-Field item.now).ty) count (view column.now))) }
{
    let parts = read_parts(alloc, count, column)?;
    let validity = read_validity(alloc, &parts, count)?;
    let read = read_offsets(alloc, width, parts.offsets);
    let offsets = read.map_err(|fault| fault.under(alloc, Step::Member(Member::Offset)))?;
    let slots = OffsetSlots {
        width,
        len: count,
        validity,
        offsets,
    };
    match read_child(alloc, item, parts.child) {
        Ok(child) => list_array(alloc, item, slots, child),
        Err(fault) => {
            let fault = fault.under(alloc, Step::Item(0));
            Err(fault.under(alloc, Step::Member(Member::Children)))
        }
    }
}
